// The gates of a formula: its words, operands before their operator, run over a stack of literals.
ghost use Rattle.std.specs.Prelude.{◌≡◌, ◌≤◌, Ok, length};
ghost use Rattle.formula.specs.Grammar.{tree_of};
ghost use Rattle.graph.specs.Reading.{judged_formula, tree_expr};
ghost use Rattle.circuit.specs.Build.{formula};
ghost use Rattle.builder.specs.Private.Adding.{Added, Room, Makes};
ghost use Rattle.builder.specs.Private.Machine.{Bounded, named, differ_bits, alike_made, compared_by, operated, byte_made, word_made, taken, program, Enough, Ended};

use crate::chains::TERMINAL;
use crate::gates::{FALSE, Gates, inverse, literal};
use crate::names::{Names, bit_literal};
use netlist::Literal;

// A word of a formula below this is a name, by its first place and its length; from here on it is a byte.
pub(crate) const BYTES: usize = 4096;

// From here on a word is one bit of a name.
pub(crate) const BITS: usize = 8192;

// From here on a word is two names compared.
pub(crate) const ALIKE: usize = 16777216;

// No name has more bits.
const WIDEST: usize = 16;

// The bytes of the other words.
const ZERO: usize = 48;

const ONE: usize = 49;

const NOT: usize = 33;

pub(crate) const AND: usize = 38;

pub(crate) const OR: usize = 124;

pub(crate) const XOR: usize = 94;

// Two literals at the bottom that no word takes, and one for each word.
const DEEPEST_STACK: usize = 257;

// How many literals a word takes from the stack.
#[tactic(auto, unfolding(crate::specs::Private::Machine::taken, crate::specs::Private::Machine::taken_by))]
fn taken_by(w: usize) -> usize
    ensures { result ≡ taken w }
{
    if w < BYTES || BITS <= w {
        return 0;
    }
    match w - BYTES {
        ZERO | ONE => 0,
        NOT => 1,
        _ => 2,
    }
}

impl<'a> Gates<'a> {
    // An operator `&`, `|`, `^` or `=` between two literals.
    #[tactic(auto, unfolding(crate::specs::Private::Machine::operated))]
    fn put_operator(&mut self, b: usize, x: Literal, y: Literal) -> Literal
        requires { Room self.old (length (operated b self.old.next.0 x.0 y.0).gates) }
        ensures same { self.new.out.ghost_name ≡ self.old.out.ghost_name }
        ensures made { Makes self.old self.new result (operated b self.old.next.0 x.0 y.0) }
    {
        match b {
            AND => self.put_and(x, y),
            OR => self.put_or(x, y),
            XOR => self.put_xor(x, y),
            _ => inverse(self.put_xor(x, y)),
        }
    }

    // A word that is no name, by its byte; x and y are the literals on top of the stack, y the topmost.
    #[tactic(auto, unfolding(crate::specs::Private::Machine::byte_made))]
    fn put_byte(&mut self, b: usize, x: Literal, y: Literal) -> Literal
        requires { Room self.old (length (byte_made b self.old.next.0 x.0 y.0).gates) }
        ensures same { self.new.out.ghost_name ≡ self.old.out.ghost_name }
        ensures made { Makes self.old self.new result (byte_made b self.old.next.0 x.0 y.0) }
    {
        match b {
            ZERO => literal(FALSE, false),
            ONE => literal(FALSE, true),
            NOT => inverse(y),
            _ => self.put_operator(b, x, y),
        }
    }

    // The bits of two names, lowest first: three gates each, and the literals that tell that they differ.
    fn put_bits(&mut self, p: usize, q: usize, differ: &mut [u16])
        requires { (p ≤ 69) × (q ≤ 69) × (length differ.old ≤ 16) × Room self.old (length (differ_bits self.old.next.0 p q 0 (length differ.old)).gates) }
        ensures same { self.new.out.ghost_name ≡ self.old.out.ghost_name }
        ensures made { Added self.old self.new (differ_bits self.old.next.0 p q 0 (length differ.old)).gates }
        ensures outs { differ.new ≡ (differ_bits self.old.next.0 p q 0 (length differ.old)).outs }
    {
        for i in 0..differ.len() {
            let bit = self.put_xor(bit_literal(p, i), bit_literal(q, i));
            differ[i] = bit.0;
        }
    }

    // Two names of a width compared, by the places of their first bits: alike where no bit differs.
    fn put_alike(&mut self, p: usize, q: usize, width: usize) -> Literal
        requires { (p ≤ 69) × (q ≤ 69) × (width ≤ 16) × Room self.old (length (alike_made self.old.next.0 p q width).gates) }
        ensures same { self.new.out.ghost_name ≡ self.old.out.ghost_name }
        ensures made { Makes self.old self.new result (alike_made self.old.next.0 p q width) }
    {
        let mut room = [0u16; WIDEST];
        let differ = &mut room[..width];
        self.put_bits(p, q, differ);
        let each = [TERMINAL; WIDEST];
        self.put_accept(&each[..width], differ)
    }

    // Two names compared, by their word.
    fn put_compared(&mut self, names: &Names<'_>, field: &[u8], w: usize) -> Literal
        requires { Bounded (named names.now) × (16777216 ≤ w) × Room self.old (length (compared_by (named names.now) field.now w self.old.next.0).gates) }
        ensures same { self.new.out.ghost_name ≡ self.old.out.ghost_name }
        ensures made { Makes self.old self.new result (compared_by (named names.now) field.now w self.old.next.0) }
    {
        let left = (w - ALIKE) / BYTES;
        let right = w % BYTES;
        self.put_alike(
            names.place_of(field, left),
            names.place_of(field, right),
            names.width_of(field, left),
        )
    }

    // One word: its gates, and the literal that it puts on the stack.
    #[tactic(auto, unfolding(crate::specs::Private::Machine::word_made))]
    fn put_word(
        &mut self,
        names: &Names<'_>,
        field: &[u8],
        w: usize,
        x: Literal,
        y: Literal,
    ) -> Literal
        requires { Bounded (named names.now) × Room self.old (length (word_made (named names.now) field.now w self.old.next.0 x.0 y.0).gates) }
        ensures same { self.new.out.ghost_name ≡ self.old.out.ghost_name }
        ensures made { Makes self.old self.new result (word_made (named names.now) field.now w self.old.next.0 x.0 y.0) }
    {
        if w < BYTES {
            names.literal_of(field, w, 0)
        } else if w < BITS {
            self.put_byte(w - BYTES, x, y)
        } else if w < ALIKE {
            names.literal_of(field, w % BYTES, w / BITS - 1)
        } else {
            self.put_compared(names, field, w)
        }
    }

    // The words of a formula, one after another.
    fn put_words(&mut self, names: &Names<'_>, field: &[u8], words: &[u32]) -> Literal
        requires { Bounded (named names.now) × (length words.now ≤ 255) × Enough 2 words.now × Room self.old (length (program (named names.now) field.now words.now self.old.next.0).gates) }
        ensures same { self.new.out.ghost_name ≡ self.old.out.ghost_name }
        ensures made { Ended self.old self.new result (program (named names.now) field.now words.now self.old.next.0) }
    {
        let mut stack = [0u16; DEEPEST_STACK];
        let mut height = 2;
        for &word in words {
            let w = word as usize;
            let x = stack[height - 2];
            let y = stack[height - 1];
            let made = self.put_word(names, field, w, Literal(x), Literal(y));
            let below = height - taken_by(w);
            stack[below] = made.0;
            height = below + 1;
        }
        let top = stack[height - 1];
        Literal(top)
    }

    // A formula's gates: `signals` of the bits are the signals', and the others the constants'.
    pub(crate) fn put_formula(&mut self, names: &Names<'_>, signals: usize, field: &[u8]) -> Literal
        requires { (judged_formula (named names.now) field.now ≡ Ok tt) × Bounded (named names.now)
            × Room self.old (length (formula signals self.old.next.0 (tree_expr signals (named names.now) field.now (tree_of field.now))).gates) }
        ensures same { self.new.out.ghost_name ≡ self.old.out.ghost_name }
        ensures made { Makes self.old self.new result (formula signals self.old.next.0 (tree_expr signals (named names.now) field.now (tree_of field.now))) }
    {
        let read = formula::read(field).unwrap();
        self.put_words(names, field, &read.words[..read.count])
    }
}
