// The lines by which a program is asked: a letter, two numbers and a name, with tabs between.
#![tactic(auto)]

ghost use Rattle.std.specs.Prelude.{◌≡◌, ◌+◌, ◌≤◌, ◌<◌, min, length, IfSome};
ghost use Rattle.asked.specs.Lines.{LineAt};

// A line's letter and numbers, where its name starts and ends, and where the next line starts.
#[derive(Clone, Copy)]
pub struct Line {
    pub letter: u8,
    pub a: usize,
    pub b: usize,
    pub name: usize,
    pub end: usize,
    pub next: usize,
}

// A number, and where its digits end.
#[derive(Clone, Copy)]
struct Figures {
    value: usize,
    end: usize,
}

// The index after e, or the end.
fn past(e: usize, end: usize) -> usize
    requires { e ≤ end }
    ensures { result ≡ min (e + 1) end }
{
    if e < end {
        return e + 1;
    }
    e
}

// Where the line that starts at `at` ends: at its line feed, or with the text.
fn line_end(text: &[u8], at: usize) -> usize
    requires { at ≤ length text.now }
    ensures { (at ≤ result) × (result ≤ length text.now) }
{
    let rest = &text[at..];
    at + rest.iter().position(|&c| c == b'\n').unwrap_or(rest.len())
}

// The value of a digit.
fn digit(c: u8) -> Option<usize>
    ensures { IfSome result (λ d. d ≤ 9) }
{
    if c.is_ascii_digit() {
        Some(usize::from(c - b'0'))
    } else {
        None
    }
}

// The number whose digits start at `at`: 0 if there is none. The highest is 18446744073709551609.
fn number_at(text: &[u8], at: usize, end: usize) -> Figures
    requires { (at ≤ end) × (end ≤ length text.now) }
    ensures { (at ≤ result.end) × (result.end ≤ end) }
{
    let mut value: usize = 0;
    for i in at..end {
        let Some(d) = digit(text[i]) else {
            return Figures { value, end: i };
        };
        value = value % 1844674407370955161 * 10 + d;
    }
    Figures { value, end }
}

// The line that starts at `at`.
pub fn line_at(text: &[u8], at: usize) -> Line
    requires { at < length text.now }
    ensures { LineAt text.now at result }
{
    let end = line_end(text, at);
    let a = number_at(text, past(past(at, end), end), end);
    let b = number_at(text, past(a.end, end), end);
    Line {
        letter: text[at],
        a: a.value,
        b: b.value,
        name: past(b.end, end),
        end,
        next: past(end, text.len()),
    }
}
