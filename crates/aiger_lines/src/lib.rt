// What both forms of an AIGER file share: the numbers of a line, the header, what a latch and an output
// say, lines one after the other, whatever reads one of them, and how numbers are stored. Knows nothing of
// the lines of inputs, of gates or of what stands where in a file. Its laws, for the readers above: lines are
// read just where their texts stand, and when the numbers of lines are a netlist.
#![tactic(auto)]

ghost use Rattle.std.specs.Prelude.{◌≡◌};
ghost use Rattle.aiger_lines.specs.Private.Steps.{number_of};

use netlist::Literal;

mod blocks;
mod fields;
mod lines;
mod stores;

pub use blocks::{block_at, literal_due};
pub use fields::{has_tag, one_number, one_or_two, three_numbers, two_or_three};
pub use lines::{header_at, latch_says, output_line};
pub use stores::{store, store_given, store_head, store_pair};

// Why a line is refused.
#[derive(Clone, Copy)]
pub enum Fault {
    // Wrong shape, missing or extra.
    WrongShape,
    // Right shape, but it breaks order or limits.
    OutOfLimits,
}

impl Fault {
    // The number in which the fault of a line is reported.
    #[tactic(auto, unfolding(crate::specs::Private::Steps::number_of))]
    pub fn number(self) -> u8
        ensures { result ≡ number_of self }
    {
        match self {
            Fault::WrongShape => 13,
            Fault::OutOfLimits => 14,
        }
    }
}

// The numbers of a line, 0 where there is none, and the place after its LF.
#[derive(Drop)]
pub struct Line {
    pub values: [usize; 5],
    pub next: usize,
}

// What a line gives to the netlist: nothing, an output, or a latch's next and reset or a gate's operands.
#[derive(Clone, Copy)]
pub enum Literals {
    None,
    One(Literal),
    Two(Literal, Literal),
}

// A line's literals, the uninitialised latches so far, and the place after the line.
#[derive(Clone, Copy)]
pub struct Given {
    pub literals: Literals,
    pub free: usize,
    pub next: usize,
}

// The header's numbers, and the place after its line.
#[derive(Clone, Copy)]
pub struct Head {
    pub variables: u16,
    pub inputs: u16,
    pub latches: u16,
    pub outputs: u16,
    pub gates: u16,
    pub next: usize,
}

// How far a pass is: the uninitialised latches so far, the place in the text, and that in the netlist.
#[derive(Clone, Copy)]
pub struct Cursor {
    pub free: usize,
    pub at: usize,
    pub place: usize,
}
