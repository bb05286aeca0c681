// The reader of the AIGER ASCII format: a file's netlist, its gates in whatever order, into a lent buffer of 16-bit
// numbers. Knows nothing of graphs. Exports that it takes exactly the files, explicit resets 0 allowed, whose gates do not
// wait on each other; that the netlist it gives means what the file means; that a netlist's own file, its gate lines
// shuffled or not, reads as the netlist; and at which line it tells every fault.
#![tactic(auto)]

ghost use Rattle.std.specs.Prelude.{◌≡◌};
ghost use Rattle.aiger_read.specs.Read.{refusal_of, read_end, read_of};
ghost use Rattle.aiger_read.specs.Claims.{ReadMeans};
ghost use Rattle.aiger_read.specs.declared.Cause.TheVariants.{FaultyLine};
ghost use Rattle.aiger_read.specs.Private.Steps.{cause_of};

use aiger_lines::Fault;
use aiger_order::{Unplaced, place};
use text::Refusal;

mod files;
mod lines;

// Why a read is refused.
#[derive(Clone, Copy)]
pub enum Cause {
    // Over 65,536 bytes.
    TextTooLong,
    // The buffer is shorter than the netlist.
    ShortBuffer,
    // The first faulty line.
    FaultyLine(Fault, u32),
    // Gates wait on each other.
    WaitingGates,
}

impl Cause {
    // The number and line in which a refusal is reported.
    pub fn refusal(self) -> Refusal
        ensures { result ≡ refusal_of self }
    {
        match self {
            Cause::TextTooLong => Refusal { number: 1, line: 0 },
            Cause::ShortBuffer => Refusal {
                number: 12,
                line: 0,
            },
            Cause::FaultyLine(fault, line) => Refusal {
                number: fault.number(),
                line: line,
            },
            Cause::WaitingGates => Refusal {
                number: 23,
                line: 0,
            },
        }
    }
}

impl From<(Fault, u32)> for Cause {
    ghost from_gives = { λ e c. c ≡ FaultyLine e.0 e.1 };

    fn from(faulty: (Fault, u32)) -> Cause {
        Cause::FaultyLine(faulty.0, faulty.1)
    }
}

impl From<Unplaced> for Cause {
    ghost from_gives = { λ e c. c ≡ cause_of e };

    // Numbers that were read are loose.
    fn from(unplaced: Unplaced) -> Cause {
        match unplaced {
            Unplaced::Waiting => Cause::WaitingGates,
            Unplaced::ShortBuffer => Cause::ShortBuffer,
            Unplaced::NotLoose => Cause::WaitingGates,
        }
    }
}

// The longest text.
const MAX_TEXT: usize = 65536;

// How many numbers a file gives at most: five of the header, and two for each of the 4,095 variables and of
// the two outputs, which have a line each.
const MOST: usize = 8199;

// Reads the netlist of a file, its gates in whatever order, to the front of a lent buffer, and answers how many numbers
// it has. A refusal leaves the buffer as it was.
pub fn read(text: &[u8], net: &mut [u16]) -> Result<usize, Cause>
    ensures net_after { read_end result net.new ≡ read_of text.now net.old }
    ensures exact { ReadMeans }
{
    if text.len() > MAX_TEXT {
        return Err(Cause::TextTooLong);
    }
    let mut loose = [0u16; MOST];
    let end = files::read_file(text, &mut loose)?;
    let count = place(&loose[..end.place], net)?;
    Ok(count)
}
