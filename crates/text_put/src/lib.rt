// Items, bytes and numbers put into a lent slice.
// An item past the end is counted and not written, so that what counts is what writes.
#![tactic(auto)]

ghost use Rattle.std.specs.Prelude.{◌≡◌, List, [], ◌∷◌, ◌++◌, ◌+◌, ◌<◌, length};
ghost use Rattle.text_field.specs.Split.{line_feed};
ghost use Rattle.text_field.specs.Number.{most_printed, number_text};
ghost use Rattle.text_put.specs.Put.{Put, PutsText, PutWhole, far_byte, far_field, far_tagged, far_line, long_word};

// One item.
pub fn put_one<T: Copy>(out: &mut [T], at: usize, x: T) -> usize
    requires { at < far_byte }
    ensures { Put out.old at (x ∷ []) out.new result }
{
    if at < out.len() {
        out[at] = x;
    }
    at + 1
}

// What `put` puts, from the first place on, where there is room for all of it; and how long it is.
// It is put twice: first into no places, for its length.
pub fn put_whole<T, F: Fn(&mut [T]) -> usize>(out: &mut [T], put: F) -> Option<usize>
    requires { F.IsAlwaysCallable put }
    ensures { (text : List T) → PutsText (F.post put) text → PutWhole text out.old out.new result }
{
    if out.len() < put(&mut []) {
        return None;
    }
    Some(put(out))
}

// One byte.
pub fn put_byte(out: &mut [u8], at: usize, b: u8) -> usize
    requires { at < far_byte }
    ensures { Put out.old at (b ∷ []) out.new result }
{
    put_one(out, at, b)
}

// The bytes of s.
pub fn put_all(out: &mut [u8], at: usize, s: &[u8]) -> usize
    requires { (at < far_field) × (length s.now < far_field) }
    ensures { Put out.old at s.now out.new result }
{
    let mut k = at;
    for &b in s {
        k = put_byte(out, k, b);
    }
    k
}

// The digit n.
fn digit(n: usize) -> u8
    requires { n < 10 }
    ensures { result ≡ 48 + n }
{
    b'0' + n as u8
}

// A number.
pub fn put_number(out: &mut [u8], at: usize, n: usize) -> usize
    requires { (at < far_field) × (n < most_printed) }
    ensures { Put out.old at (number_text n) out.new result }
{
    if n < 10 {
        put_byte(out, at, digit(n))
    } else {
        let k = put_number(out, at, n / 10);
        put_byte(out, k, digit(n % 10))
    }
}

// A word with its tab, and a number.
pub fn put_tagged(out: &mut [u8], at: usize, w: &[u8], n: usize) -> usize
    requires { (at < far_tagged) × (length w.now < long_word) × (n < most_printed) }
    ensures { Put out.old at (w.now ++ number_text n) out.new result }
{
    let a = put_all(out, at, w);
    put_number(out, a, n)
}

// A line of two words, each with its tab and a number.
pub fn put_pair(out: &mut [u8], at: usize, v: &[u8], m: usize, w: &[u8], n: usize) -> usize
    requires { (at < far_line) × (length v.now < long_word) × (m < most_printed)
        × (length w.now < long_word) × (n < most_printed) }
    ensures { Put out.old at
        (((v.now ++ number_text m) ++ (w.now ++ number_text n)) ++ line_feed ∷ [])
        out.new result }
{
    let a = put_tagged(out, at, v, m);
    let b = put_tagged(out, a, w, n);
    put_byte(out, b, b'\n')
}
