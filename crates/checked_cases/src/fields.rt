// The fields of a case.
ghost use Rattle.std.specs.Prelude.{◌≤◌, length};

// The largest number of a field.
const MOST: usize = 4294967295;

// A field at the front of a text: its bytes are those from `start` to before `end`. Where there is none both are the
// text's length.
#[derive(Clone, Copy)]
struct Span {
    start: usize,
    end: usize,
}

// The field at the front of a text.
fn first(s: &[u8]) -> Span
    ensures { (result.start ≤ result.end) × (result.end ≤ length s.now) }
{
    let none = Span {
        start: s.len(),
        end: s.len(),
    };
    let Some((length, lf)) = text::read_number(s, 0) else {
        return none;
    };
    if s.len() <= lf {
        return none;
    }
    let start = lf + 1;
    if s.len() - start < length {
        return none;
    }
    Span {
        start,
        end: start + length,
    }
}

// The bytes of the field at the front of a text.
pub(crate) fn field(s: &[u8]) -> &[u8] {
    let f = first(s);
    let start = f.start;
    let end = f.end;
    &s[start..end]
}

// What comes after that field.
pub(crate) fn after(s: &[u8]) -> &[u8] {
    let f = first(s);
    let end = f.end;
    &s[end..]
}

// What comes after three fields.
pub(crate) fn after_three(s: &[u8]) -> &[u8] {
    after(after(after(s)))
}

// The value of a digit; 0 of another byte.
fn digit(b: u8) -> usize
    ensures { result ≤ 9 }
{
    if b < b'0' {
        return 0;
    }
    if b > b'9' {
        return 0;
    }
    (b - b'0') as usize
}

// A number, or the largest where it is above that.
fn at_most(n: usize) -> usize
    ensures { result ≤ 4294967295 }
{
    if n <= MOST { n } else { MOST }
}

// The number whose digits a text is; 0 of no digits.
pub(crate) fn number(s: &[u8]) -> usize
    ensures { result ≤ 4294967295 }
{
    let mut value: usize = 0;
    let mut i = 0;
    while i < s.len() {
        value = at_most(value * 10 + digit(s[i]));
        i += 1;
    }
    value
}

// The number in the field at the front of a text.
pub(crate) fn number_in(s: &[u8]) -> usize
    ensures { result ≤ 4294967295 }
{
    number(field(s))
}
