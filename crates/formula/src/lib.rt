// The formulas of a graph text: the class of each byte, the binding strength of an operator, names, and
// the reader that judges whether a field is a formula and gives its depth and its operands and operators
// in postfix order. Knows nothing of graphs, netlists or which names are declared. Exports that a field is
// read as the one tree that it is the text of and that groups as the operators bind, or refused where
// there is none.
#![tactic(auto)]

ghost use Rattle.std.specs.Prelude.{◌≡◌};
ghost use Rattle.formula.specs.Reading.{formula_of};
ghost use Rattle.formula.specs.Claims.{GrammarMeans};

mod classes;
mod names;
mod readers;

pub use classes::{class_of, is_name, name_end, strength};

// The class of a byte.
#[derive(Clone, Copy)]
pub enum Class {
    Other,
    Letter,
    Digit,
    Underscore,
    Operator,
    Opening,
    Closing,
    OpeningSquare,
    ClosingSquare,
    Tab,
    Lf,
}

// What an operand is, by its first byte.
#[derive(Clone, Copy)]
pub enum Start {
    Not,
    Group,
    Bit,
    Name,
    Nothing,
}

// A formula has at most so many bytes, and so at most so many words.
const LONGEST_FORMULA: usize = 255;

// A formula: how deep its `(` and `!` nest, how many words it has, and the words; all others are 0.
#[derive(Drop)]
pub struct Formula {
    pub depth: usize,
    pub count: usize,
    pub words: [u32; LONGEST_FORMULA],
}

// Reads a field as a formula, at any depth.
pub fn read(s: &[u8]) -> Option<Formula>
    ensures value { result ≡ formula_of s.now }
    ensures grammar { GrammarMeans s.now }
{
    if LONGEST_FORMULA < s.len() {
        return None;
    }
    let mut words = [0; LONGEST_FORMULA];
    let r = readers::expression(s, 0, &mut words, 0, 0)?;
    if r.next < s.len() {
        return None;
    }
    Some(Formula {
        depth: r.depth,
        count: r.count,
        words,
    })
}
