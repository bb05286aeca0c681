// The readers of operands and expressions, which call each other: each judges the form that starts at a
// place and stores its words into a buffer from a given place on. The bytes left over fall at each round.
ghost use Rattle.std.specs.Prelude.{◌≡◌, List, ℕ, Some, ◌+◌, ◌*◌, ◌-◌, ◌≤◌, ◌<◌, length, get_or, set, drop};
ghost use Rattle.formula.specs.declared.Start.TheVariants.{Name};
ghost use Rattle.formula.specs.Classes.{start_of, run};
ghost use Rattle.formula.specs.Grammar.{Got, and_then, name_of, operand_of, expression_of, rest_of};
ghost use Rattle.formula.specs.Reading.{byte_word};
ghost use Rattle.formula.specs.Private.Readers.{Room, Bounds, RestBounds, Reads, deeper_of, beside_of, closed_of, counted_of};

use crate::Start;
use crate::classes::{start_of, strength};
use crate::names::name_word;
use text::byte_at;

// A form that a reader finds: the place after it, the place after its words, and its depth.
#[derive(Clone, Copy)]
pub(crate) struct Read {
    pub next: usize,
    pub count: usize,
    pub depth: usize,
}

// The same form, with one more `!` or bracket around it.
fn deeper(r: Read) -> Read
    requires { r.depth ≤ 256 }
    ensures { result ≡ deeper_of r }
{
    Read {
        depth: r.depth + 1,
        ..r
    }
}

// The form that an operator joins to one of the depth `other`.
fn beside(r: Read, other: usize) -> Read
    ensures { result ≡ beside_of r other }
{
    Read {
        depth: other.max(r.depth),
        ..r
    }
}

// The form with its closing bracket.
fn closed(s: &[u8], r: Read) -> Option<Read>
    requires { r.next ≤ 255 }
    ensures { result ≡ closed_of s.now r }
{
    if byte_at(s, r.next) == b')' {
        Some(Read {
            next: r.next + 1,
            ..r
        })
    } else {
        None
    }
}

// The words of `0`, `1`, `!` and operators are this and their bytes.
const BYTES: u32 = 4096;

fn byte_word(b: u8) -> u32
    ensures { result ≡ byte_word b }
{
    BYTES + b as u32
}

// The form with the word of a byte after its words.
fn with_byte(out: &mut [u32], r: Read, b: u8) -> Read
    requires { r.count < length out.old }
    ensures { (result ≡ counted_of r) × (out.new ≡ set out.old r.count (byte_word b)) }
{
    out[r.count] = byte_word(b);
    Read {
        count: r.count + 1,
        ..r
    }
}

// Reads the name that starts at a place, and what belongs to it, and stores its word at out[n].
fn name(s: &[u8], at: usize, out: &mut [u32], n: usize) -> Option<Read>
    requires { (Room s.now at out.old n) × (start_of (get_or s.now at 0) ≡ Name) }
    ensures bounds { Bounds (length s.now) at n result }
    ensures reads { Reads out.old n out.new result (name_of s.now at (run (drop at s.now))) }
{
    let found = name_word(s, at)?;
    out[n] = found.word;
    Some(Read {
        next: found.next,
        count: n + 1,
        depth: 0,
    })
}

// Reads an operand, and stores its words from out[n] on.
#[cycle(expression_operand_rest)]
fn operand(s: &[u8], at: usize, out: &mut [u32], n: usize) -> Option<Read>
    requires { Room s.now at out.old n }
    ensures bounds { Bounds (length s.now) at n result }
    ensures by_index { (f : ℕ) → 2 * (length s.now - at) ≤ f →
        Reads out.old n out.new result (operand_of f s.now at) }
{
    let b = byte_at(s, at);
    let start = start_of(b);
    match start {
        Start::Not => {
            let inner = operand(s, at + 1, out, n)?;
            Some(with_byte(out, deeper(inner), b'!'))
        }
        Start::Group => {
            let inner = expression(s, at + 1, out, n, 0)?;
            let group = closed(s, inner)?;
            Some(deeper(group))
        }
        Start::Bit => {
            let here = Read {
                next: at + 1,
                count: n,
                depth: 0,
            };
            Some(with_byte(out, here, b))
        }
        Start::Name => name(s, at, out, n),
        Start::Nothing => None,
    }
}

// Reads an operand and what operators stronger than `above` join to it, and stores the words from out[n] on.
#[cycle(expression_operand_rest)]
pub(crate) fn expression(s: &[u8], at: usize, out: &mut [u32], n: usize, above: u8) -> Option<Read>
    requires { Room s.now at out.old n }
    ensures bounds { Bounds (length s.now) at n result }
    ensures by_index { (f : ℕ) → 2 * (length s.now - at) + 1 ≤ f →
        Reads out.old n out.new result (expression_of f s.now above at) }
{
    let left = operand(s, at, out, n)?;
    rest(s, out, left, above)
}

// Reads what operators stronger than `above` join to the form `left`, and stores the words after those of `left`.
#[cycle(expression_operand_rest)]
fn rest(s: &[u8], out: &mut [u32], left: Read, above: u8) -> Option<Read>
    requires { Room s.now left.next out.old left.count }
    ensures rest_bounds { RestBounds (length s.now) left result }
    ensures by_index { (f : ℕ) (g : Got) (before : List ℕ) (n : ℕ) → 2 * (length s.now - left.next) ≤ f →
        Reads before n out.old (Some left) g →
        Reads before n out.new result (and_then g (rest_of f s.now above)) }
{
    let b = byte_at(s, left.next);
    let k = strength(b);
    if k <= above {
        return Some(left);
    }
    let right = expression(s, left.next + 1, out, left.count, k)?;
    let both = with_byte(out, beside(right, left.depth), b);
    rest(s, out, both, above)
}
