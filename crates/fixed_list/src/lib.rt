// A list by value: at most N elements, in an array of N places.
#![tactic(auto)]

ghost use Rattle.std.specs.Prelude.{◌≡◌, ℕ, ◌<◌, ◌≤◌, [], ◌∷◌, ◌++◌, length, drop, replicate, ◌==◌};

use std::marker::Model;
use std::ops::DerefSlice;

// The elements come first, and the places after them are still free.
#[derive(Clone, Copy)]
pub struct FixedList<T, const N: usize> {
    places: [T; N],
    count: usize,
}

// A contract sees the elements, and what is in the free places.
impl<T, const N: usize> Model for FixedList<T, N> {
    ghost use Rattle.std.specs.Prelude.{◌≡◌, ◌≤◌, length};
    ghost use Rattle.fixed_list.specs.Lists.{ListParts, parts_code, parted, places_of};
    ghost use Rattle.fixed_list.specs.Parts.{parts_again};

    ghost Value = { ListParts T };

    ghost coded = { parts_code T.code };

    ghost view = { λ l. parted l.count l.places };

    ghost invariant = { λ l. (l.count ≤ N) × (length l.places ≡ N) };

    ghost inverse = { λ v. record { places = places_of v; count = length v.items } };

    ghost inverse_ok = { λ a h. parts_again a h };
}

impl<T, const N: usize> FixedList<T, N> {
    // How many elements it has.
    pub fn len(&self) -> usize
        ensures { result ≡ length self.now.items }
    {
        self.count
    }

    // Whether no place is free: it has as many elements as there are places, which is the most.
    pub fn is_full(&self) -> bool
        ensures test { result ≡ (length self.now.items == N) }
        ensures most { length self.now.items ≤ N }
    {
        self.count == N
    }

    // The elements.
    pub fn as_slice(&self) -> &[T]
        ensures { result.now ≡ self.now.items }
    {
        &self.places[..self.count]
    }
}

impl<T: Copy, const N: usize> FixedList<T, N> {
    // No element, and this one in each free place.
    pub fn blank(x: T) -> Self
        ensures items { result.items ≡ [] }
        ensures free { result.free ≡ replicate N x }
    {
        FixedList {
            places: [x; N],
            count: 0,
        }
    }

    // Appends x.
    pub fn push(&mut self, x: T)
        requires { length self.old.items < N }
        ensures items { self.new.items ≡ self.old.items ++ x ∷ [] }
        ensures free { self.new.free ≡ drop 1 self.old.free }
    {
        self.places[self.count] = x;
        self.count += 1;
    }
}

impl<T, const N: usize> DerefSlice for FixedList<T, N> {
    type Elem = T;

    ghost deref_gives = { λ l xs. xs ≡ l.items };

    fn deref(&self) -> &[T] {
        self.as_slice()
    }
}

impl<T: Copy, const N: usize> FixedList<T, N> {
    // Takes the first element out, and moves each of the others one place to the front.
    pub fn drop_first(&mut self)
        requires { 0 < length self.old.items }
        ensures { self.new.items ≡ drop 1 self.old.items }
    {
        self.places.rotate_left(1);
        self.count -= 1;
    }
}
