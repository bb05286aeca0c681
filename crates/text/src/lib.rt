// Text into and out of lent buffers: lines, decimal numbers, the append-writer, and the pair in which
// a refusal is reported. Knows nothing of netlists, graphs or pages. Exports that a number that was
// written is read back.
#![tactic(auto)]

ghost use Rattle.std.specs.Prelude.{◌≡◌, leb, eqb, get_or, cond, not, ◌&&◌, ◌||◌, Some, None};
ghost use Rattle.text.specs.Lines.{line_end, line_at};
ghost use Rattle.text.specs.Numbers.{is_digit, read_number, ReadsBack};

mod writer;

pub use writer::Writer;

// How a call reports that it was refused: the number of document 01's table and the line, 0 where the
// cause has no line. Each crate has an enum of its causes, with its number and line for each case.
#[derive(Clone, Copy)]
pub struct Refusal {
    pub number: u8,
    pub line: u32,
}

// What stands at a place where a line may start.
#[derive(Clone, Copy)]
pub enum Line {
    // A line whose LF stands at the place given.
    Ended(usize),
    // A last line that has no LF.
    Unended,
    // No line: the text ends here.
    End,
}

// The place of the first LF at or after `at`; the text's end where there is none, or `at` where it is past that.
fn line_end(s: &[u8], at: usize) -> usize
    ensures { result ≡ line_end s.now at }
{
    for k in at..s.len() {
        if s[k] == b'\n' {
            return k;
        }
    }
    at.max(s.len())
}

// The line that starts at a place.
pub fn line_at(s: &[u8], at: usize) -> Line
    ensures { result ≡ line_at s.now at }
{
    if s.len() <= at {
        return Line::End;
    }
    let end = line_end(s, at);
    if end < s.len() {
        Line::Ended(end)
    } else {
        Line::Unended
    }
}

fn is_digit(b: u8) -> bool
    ensures { result ≡ is_digit b }
{
    if b < b'0' {
        return false;
    }
    b <= b'9'
}

// The byte at a place, or 0 past the text's end: readers need no test for the end.
pub fn byte_at(s: &[u8], at: usize) -> u8
    ensures { result ≡ get_or s.now at 0 }
{
    s.get(at).copied().unwrap_or(0)
}

// A numeral of `count` digits, at most five, that starts with the byte `first`; `next` is the place after it.
fn numeral(first: u8, count: usize, value: usize, next: usize) -> Option<(usize, usize)>
    ensures { result ≡ cond (leb 1 count && (eqb count 1 || not (eqb first 48))) (Some (value, next)) None }
{
    if count < 1 {
        return None;
    }
    if count == 1 {
        return Some((value, next));
    }
    if first == b'0' {
        return None;
    }
    Some((value, next))
}

// The number whose one to five digits, without leading zeros, start at a place, and the place after them.
pub fn read_number(s: &[u8], at: usize) -> Option<(usize, usize)>
    ensures value { result ≡ read_number s.now at }
    ensures written { ReadsBack }
{
    let mut value: usize = 0;
    let mut p = at;
    // No `for` over the bytes: `byte_at` gives no digit past the text's end, which so is no case of its own.
    loop {
        let b = byte_at(s, p);
        if !is_digit(b) {
            return numeral(byte_at(s, at), p - at, value, p);
        }
        if 5 <= p - at {
            return None;
        }
        value = value * 10 + (b - b'0') as usize;
        p += 1;
    }
}
