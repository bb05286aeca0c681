// Names in a formula, and what belongs to them: a name, one bit of a name, or two names compared. Each is one
// word.
ghost use Rattle.std.specs.Prelude.{◌≡◌, true, not, ◌&&◌, ◌||◌, ℕ, ◌+◌, ◌*◌, ◌-◌, ◌≤◌, ◌<◌, min, leb, eqb, length, get_or, drop};
ghost use Rattle.text.specs.Numbers.{is_digit, leading_digits};
ghost use Rattle.formula.specs.declared.Start.TheVariants.{Name};
ghost use Rattle.formula.specs.Classes.{start_of, run};
ghost use Rattle.formula.specs.Grammar.{index_of, right_of, name_of};
ghost use Rattle.formula.specs.Reading.{name_word};
ghost use Rattle.formula.specs.Private.Readers.{word_read, index_at};

use crate::classes::{LONGEST_NAME, is_letter, name_end};
use text::byte_at;

// A name and what belongs to it: its word, and the place after it.
#[derive(Clone, Copy)]
pub(crate) struct Word {
    pub next: usize,
    pub word: u32,
}

// The word of a name is so many times its place, and its length.
const PLACE: usize = 16;

// The word of a bit is so many times one more than the bit, and its name's word.
const BIT: u32 = 8192;

// The word of two names compared is this, so many times the left one's word, and the right one's.
const ALIKE: u32 = 16777216;

const LEFT: u32 = 4096;

// No name has more bits, so all from here on count alike.
const WIDEST: u32 = 16;

// An index: its number, cut at 16, and the place after its digits.
#[derive(Clone, Copy)]
struct Index {
    value: u32,
    next: usize,
}

fn is_digit(b: u8) -> bool
    ensures { result ≡ is_digit b }
{
    b'0' <= b && b <= b'9'
}

// The number with one digit more, cut at 16.
fn with_digit(value: u32, b: u8) -> u32
    requires { (value ≤ 16) × (is_digit b ≡ true) }
    ensures { result ≡ min (value * 10 + (b - 48)) 16 }
{
    let v = value * 10 + (b - b'0') as u32;
    if v < WIDEST { v } else { WIDEST }
}

// Are so many digits, the first of them given, an index?
fn is_index(first: u8, count: usize) -> bool
    ensures { result ≡ (leb 1 count && (eqb count 1 || not (eqb first 48))) }
{
    if count < 1 {
        return false;
    }
    count == 1 || first != b'0'
}

// The index whose digits start at a place.
fn read_index(s: &[u8], at: usize) -> Option<Index>
    ensures { result ≡ index_at s.now at }
{
    let mut value = 0;
    let mut end = at;
    while is_digit(byte_at(s, end)) {
        value = with_digit(value, byte_at(s, end));
        end += 1;
    }
    if is_index(byte_at(s, at), end - at) {
        Some(Index { value, next: end })
    } else {
        None
    }
}

// One bit of the name of a word: the index at a place, and `]`.
fn bit_word(s: &[u8], name: u32, at: usize) -> Option<Word>
    requires { name < 4096 }
    ensures { (p n : ℕ) → name ≡ name_word p n → result ≡ word_read (index_of s.now p n at (leading_digits (drop at s.now))) }
{
    let i = read_index(s, at)?;
    if byte_at(s, i.next) == b']' {
        return Some(Word {
            next: i.next + 1,
            word: BIT * (i.value + 1) + name,
        });
    }
    None
}

// The name of a word compared with the one at a place.
fn alike_word(s: &[u8], name: u32, at: usize) -> Option<Word>
    requires { (at ≤ length s.now) × (length s.now ≤ 255) × (name < 4096) }
    ensures { (p n : ℕ) → name ≡ name_word p n → result ≡ word_read (right_of s.now p n at (run (drop at s.now))) }
{
    let end = name_end(s, at);
    let len = end - at;
    if is_letter(byte_at(s, at)) {
        if len <= LONGEST_NAME {
            return Some(Word {
                next: end,
                word: ALIKE + LEFT * name + (at * PLACE + len) as u32,
            });
        }
    }
    None
}

// The name that starts at a place, with what belongs to it.
pub(crate) fn name_word(s: &[u8], at: usize) -> Option<Word>
    requires { (length s.now ≤ 255) × (start_of (get_or s.now at 0) ≡ Name) }
    ensures { result ≡ word_read (name_of s.now at (run (drop at s.now))) }
{
    let end = name_end(s, at);
    let len = end - at;
    if LONGEST_NAME < len {
        return None;
    }
    let word = (at * PLACE + len) as u32;
    let b = byte_at(s, end);
    if b == b'[' {
        return bit_word(s, word, end + 1);
    }
    if b == b'=' {
        if byte_at(s, end + 1) == b'=' {
            return alike_word(s, word, end + 2);
        }
    }
    Some(Word { next: end, word })
}
