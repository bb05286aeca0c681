// The numbers of a line, whatever they say, and the tag of a header.
ghost use Rattle.std.specs.Prelude.{◌≡◌, ◌≤◌};
ghost use Rattle.aiger_lines.specs.Fields.{number_then, fields_of, either_of};
ghost use Rattle.aiger_lines.specs.Heads.{has_tag};
ghost use Rattle.aiger_lines.specs.Private.Steps.{LineIs};

use crate::Line;
use text::{byte_at, read_number};

// A number and the place after the byte that follows it. The byte is not 0, which stands for the end of the text.
fn number_then(s: &[u8], at: usize, after: u8) -> Option<(usize, usize)>
    requires { 1 ≤ after }
    ensures { result ≡ number_then s.now at after }
{
    let (value, end) = read_number(s, at)?;
    if byte_at(s, end) == after {
        Some((value, end + 1))
    } else {
        None
    }
}

// The numbers 0 to `last` of a line: blanks part them, and an LF ends them. None is a line of another shape.
pub(crate) fn fields_at(s: &[u8], at: usize, last: usize) -> Option<Line>
    requires { last ≤ 4 }
    ensures { LineIs (fields_of s.now last at) result }
{
    let mut values: [usize; 5] = [0; 5];
    let mut p = at;
    for k in 0..last {
        let (value, next) = number_then(s, p, b' ')?;
        values[k] = value;
        p = next;
    }
    let (value, next) = number_then(s, p, b'\n')?;
    values[last] = value;
    Some(Line {
        values: values,
        next: next,
    })
}

// A line of one number.
pub fn one_number(s: &[u8], at: usize) -> Option<Line>
    ensures { LineIs (fields_of s.now 0 at) result }
{
    fields_at(s, at, 0)
}

// A line of three numbers.
pub fn three_numbers(s: &[u8], at: usize) -> Option<Line>
    ensures { LineIs (fields_of s.now 2 at) result }
{
    fields_at(s, at, 2)
}

// A line of one number or two. How many is written out here and below: by a count that is handed on, a read is slower.
pub fn one_or_two(s: &[u8], at: usize) -> Option<Line>
    ensures { LineIs (either_of s.now 0 at) result }
{
    fields_at(s, at, 0).or_else(|| fields_at(s, at, 1))
}

// A line of two numbers or three.
pub fn two_or_three(s: &[u8], at: usize) -> Option<Line>
    ensures { LineIs (either_of s.now 1 at) result }
{
    fields_at(s, at, 1).or_else(|| fields_at(s, at, 2))
}

// Whether a text starts with `a`, the byte given, `g` and a blank.
#[tactic(auto, unfolding(crate::specs::Heads::has_tag))]
pub fn has_tag(s: &[u8], second: u8) -> bool
    ensures { result ≡ has_tag second s.now }
{
    byte_at(s, 0) == b'a'
        && byte_at(s, 1) == second
        && byte_at(s, 2) == b'g'
        && byte_at(s, 3) == b' '
}
