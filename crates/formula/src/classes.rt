// The bytes of a graph text: their classes by a table, the binding strengths of operators, what an operand
// is by its first byte, and names.
ghost use Rattle.std.specs.Prelude.{◌≡◌, ◌+◌, drop};
ghost use Rattle.formula.specs.Classes.{class_of, strength_of, is_letter, start_of, in_name, run, is_name};

use crate::{Class, Start};

// The class of each byte value.
static CLASS: [Class; 256] = [
    Class::Other,
    Class::Other,
    Class::Other,
    Class::Other,
    Class::Other,
    Class::Other,
    Class::Other,
    Class::Other,
    Class::Other,
    Class::Tab,
    Class::Lf,
    Class::Other,
    Class::Other,
    Class::Other,
    Class::Other,
    Class::Other,
    Class::Other,
    Class::Other,
    Class::Other,
    Class::Other,
    Class::Other,
    Class::Other,
    Class::Other,
    Class::Other,
    Class::Other,
    Class::Other,
    Class::Other,
    Class::Other,
    Class::Other,
    Class::Other,
    Class::Other,
    Class::Other,
    Class::Other,
    Class::Operator,
    Class::Other,
    Class::Other,
    Class::Other,
    Class::Other,
    Class::Operator,
    Class::Other,
    Class::Opening,
    Class::Closing,
    Class::Other,
    Class::Other,
    Class::Other,
    Class::Other,
    Class::Other,
    Class::Other,
    Class::Digit,
    Class::Digit,
    Class::Digit,
    Class::Digit,
    Class::Digit,
    Class::Digit,
    Class::Digit,
    Class::Digit,
    Class::Digit,
    Class::Digit,
    Class::Other,
    Class::Other,
    Class::Other,
    Class::Operator,
    Class::Other,
    Class::Other,
    Class::Other,
    Class::Letter,
    Class::Letter,
    Class::Letter,
    Class::Letter,
    Class::Letter,
    Class::Letter,
    Class::Letter,
    Class::Letter,
    Class::Letter,
    Class::Letter,
    Class::Letter,
    Class::Letter,
    Class::Letter,
    Class::Letter,
    Class::Letter,
    Class::Letter,
    Class::Letter,
    Class::Letter,
    Class::Letter,
    Class::Letter,
    Class::Letter,
    Class::Letter,
    Class::Letter,
    Class::Letter,
    Class::Letter,
    Class::Letter,
    Class::OpeningSquare,
    Class::Other,
    Class::ClosingSquare,
    Class::Operator,
    Class::Underscore,
    Class::Other,
    Class::Letter,
    Class::Letter,
    Class::Letter,
    Class::Letter,
    Class::Letter,
    Class::Letter,
    Class::Letter,
    Class::Letter,
    Class::Letter,
    Class::Letter,
    Class::Letter,
    Class::Letter,
    Class::Letter,
    Class::Letter,
    Class::Letter,
    Class::Letter,
    Class::Letter,
    Class::Letter,
    Class::Letter,
    Class::Letter,
    Class::Letter,
    Class::Letter,
    Class::Letter,
    Class::Letter,
    Class::Letter,
    Class::Letter,
    Class::Other,
    Class::Operator,
    Class::Other,
    Class::Other,
    Class::Other,
    Class::Other,
    Class::Other,
    Class::Other,
    Class::Other,
    Class::Other,
    Class::Other,
    Class::Other,
    Class::Other,
    Class::Other,
    Class::Other,
    Class::Other,
    Class::Other,
    Class::Other,
    Class::Other,
    Class::Other,
    Class::Other,
    Class::Other,
    Class::Other,
    Class::Other,
    Class::Other,
    Class::Other,
    Class::Other,
    Class::Other,
    Class::Other,
    Class::Other,
    Class::Other,
    Class::Other,
    Class::Other,
    Class::Other,
    Class::Other,
    Class::Other,
    Class::Other,
    Class::Other,
    Class::Other,
    Class::Other,
    Class::Other,
    Class::Other,
    Class::Other,
    Class::Other,
    Class::Other,
    Class::Other,
    Class::Other,
    Class::Other,
    Class::Other,
    Class::Other,
    Class::Other,
    Class::Other,
    Class::Other,
    Class::Other,
    Class::Other,
    Class::Other,
    Class::Other,
    Class::Other,
    Class::Other,
    Class::Other,
    Class::Other,
    Class::Other,
    Class::Other,
    Class::Other,
    Class::Other,
    Class::Other,
    Class::Other,
    Class::Other,
    Class::Other,
    Class::Other,
    Class::Other,
    Class::Other,
    Class::Other,
    Class::Other,
    Class::Other,
    Class::Other,
    Class::Other,
    Class::Other,
    Class::Other,
    Class::Other,
    Class::Other,
    Class::Other,
    Class::Other,
    Class::Other,
    Class::Other,
    Class::Other,
    Class::Other,
    Class::Other,
    Class::Other,
    Class::Other,
    Class::Other,
    Class::Other,
    Class::Other,
    Class::Other,
    Class::Other,
    Class::Other,
    Class::Other,
    Class::Other,
    Class::Other,
    Class::Other,
    Class::Other,
    Class::Other,
    Class::Other,
    Class::Other,
    Class::Other,
    Class::Other,
    Class::Other,
    Class::Other,
    Class::Other,
    Class::Other,
    Class::Other,
    Class::Other,
    Class::Other,
    Class::Other,
    Class::Other,
    Class::Other,
    Class::Other,
    Class::Other,
    Class::Other,
    Class::Other,
    Class::Other,
    Class::Other,
    Class::Other,
    Class::Other,
    Class::Other,
    Class::Other,
    Class::Other,
    Class::Other,
    Class::Other,
    Class::Other,
    Class::Other,
    Class::Other,
    Class::Other,
];

// The class of a byte.
pub fn class_of(b: u8) -> Class
    ensures { result ≡ class_of b }
{
    CLASS[b as usize]
}

// How tightly an operator between two operands binds; 0 for any other byte.
pub fn strength(b: u8) -> u8
    ensures { result ≡ strength_of b }
{
    match b {
        b'&' => 4,
        b'^' => 3,
        b'|' => 2,
        b'=' => 1,
        _ => 0,
    }
}

pub(crate) fn is_letter(b: u8) -> bool
    ensures { result ≡ is_letter (class_of b) }
{
    matches!(class_of(b), Class::Letter)
}

// May the byte stand in a name after its first letter?
fn in_name(b: u8) -> bool
    ensures { result ≡ in_name b }
{
    matches!(
        class_of(b),
        Class::Letter | Class::Digit | Class::Underscore
    )
}

// What an operand is, by its first byte.
pub(crate) fn start_of(b: u8) -> Start
    ensures { result ≡ start_of b }
{
    match b {
        b'!' => Start::Not,
        b'(' => Start::Group,
        b'0' => Start::Bit,
        b'1' => Start::Bit,
        _ => {
            if is_letter(b) {
                Start::Name
            } else {
                Start::Nothing
            }
        }
    }
}

// The place after the name bytes that stand at a place and on.
pub fn name_end(s: &[u8], at: usize) -> usize
    ensures { result ≡ at + run (drop at s.now) }
{
    for i in at..s.len() {
        if !in_name(s[i]) {
            return i;
        }
    }
    at.max(s.len())
}

// A name has at most so many bytes.
pub(crate) const LONGEST_NAME: usize = 15;

// Whether the bytes are a name.
pub fn is_name(s: &[u8]) -> bool
    ensures { result ≡ is_name s.now }
{
    if s.len() == 0 {
        return false;
    }
    if LONGEST_NAME < s.len() {
        return false;
    }
    if !is_letter(s[0]) {
        return false;
    }
    name_end(s, 1) == s.len()
}
