// The pieces of a text: lines separated by line feeds, fields separated by tabs, and the numbers that stand in fields.
#![tactic(auto)]

ghost use Rattle.std.specs.Prelude.{◌≡◌, ◌<◌, ◌≤◌, [], ◌∷◌, length, drop, MatchOption};
ghost use Rattle.text_field.specs.Split.{PieceEnd, split, all_pieces, after, tab, line_feed};
ghost use Rattle.text_field.specs.Number.{takes_digit, numeral_of};

// A number that is read is below this: it has at most 4 digits.
const MOST_READ: usize = 10000;

// Where the piece of s that starts at `from` ends: at the next byte c, or at the end of s.
pub fn piece_end(s: &[u8], from: usize, c: u8) -> usize
    requires { from ≤ length s.now }
    ensures { PieceEnd c s.now from result }
{
    let rest = &s[from..];
    from + rest.iter().position(|&b| b == c).unwrap_or(rest.len())
}

// The line that starts at `at`, and where the next one starts: none where no line feed ends it.
#[tactic(auto, unfolding(crate::specs::Split::after))]
pub fn next_line(text: &[u8], at: usize) -> Option<(&[u8], usize)>
    requires { at ≤ length text.now }
    ensures { MatchOption result
        ((split line_feed (drop at text.now)).rest ≡ [])
        (λ x. (at < x.1) × (x.1 ≤ length text.now)
        × (split line_feed (drop at text.now)
        ≡ record { first = x.0.now; rest = all_pieces (split line_feed (drop x.1 text.now)) })) }
{
    let end = piece_end(text, at, b'\n');
    if end == text.len() {
        return None;
    }
    Some((&text[at..end], end + 1))
}

// The field after the one that ends at `at`, and where it ends.
#[tactic(auto, unfolding(crate::specs::Split::after))]
pub fn next_field(line: &[u8], at: usize) -> Option<(&[u8], usize)>
    ensures { MatchOption result
        (after tab line.now at ≡ [])
        (λ x. (x.1 ≤ length line.now) × (after tab line.now at ≡ x.0.now ∷ after tab line.now x.1)) }
{
    if line.len() <= at {
        return None;
    }
    let start = at + 1;
    let end = piece_end(line, start, b'\t');
    Some((&line[start..end], end))
}

// Whether the number v may go on with the byte d.
fn goes_on(v: usize, d: u8) -> bool
    ensures { result ≡ takes_digit v d }
{
    d.is_ascii_digit() && 0 < v && v < MOST_READ / 10
}

// The number that a field is.
#[tactic(auto, unfolding(crate::specs::Number::numeral_of, crate::specs::Number::number_from))]
pub fn number_of(s: &[u8]) -> Option<usize>
    ensures { result ≡ numeral_of s.now }
{
    let (&first, rest) = s.split_first()?;
    if !first.is_ascii_digit() {
        return None;
    }
    let mut v = usize::from(first - b'0');
    for &d in rest {
        if !goes_on(v, d) {
            return None;
        }
        v = 10 * v + usize::from(d - b'0');
    }
    Some(v)
}
