// The reader of AIGER files in either form: the header's first word tells which one a file has. Knows nothing of graphs.
// Exports that it takes exactly the files in the two forms, those of the text form with their gates in any order, that
// what was written in either reads as the same numbers, and which reader answers; what each refuses, and where, is told by
// aiger_read and packed_read.
#![tactic(auto)]

ghost use Rattle.std.specs.Prelude.{◌≡◌, ℕ, ◌<◌, get_or};
ghost use Rattle.aiger_file.specs.Read.{refusal_of, text_cause, packed_cause, read_end, read_of};
ghost use Rattle.aiger_file.specs.Claims.{ReadMeans};

use aiger_lines::{Fault, has_tag};
use text::Refusal;

// Why a read is refused.
#[derive(Clone, Copy)]
pub enum Cause {
    // Over 65,536 bytes.
    TextTooLong,
    // The buffer is shorter than the netlist.
    ShortBuffer,
    // The first faulty line.
    FaultyLine(Fault, u32),
    // The first faulty byte run, or bytes after the last gate. No line has them.
    FaultyRun(Fault),
    // Gates of the text form wait on each other.
    WaitingGates,
}

impl Cause {
    // The number and line in which a refusal is reported.
    pub fn refusal(self) -> Refusal
        ensures { result ≡ refusal_of self }
    {
        match self {
            Cause::TextTooLong => Refusal { number: 1, line: 0 },
            Cause::ShortBuffer => Refusal {
                number: 12,
                line: 0,
            },
            Cause::FaultyLine(fault, line) => Refusal {
                number: fault.number(),
                line: line,
            },
            Cause::FaultyRun(fault) => match fault {
                Fault::WrongShape => Refusal {
                    number: 18,
                    line: 0,
                },
                Fault::OutOfLimits => Refusal {
                    number: 14,
                    line: 0,
                },
            },
            Cause::WaitingGates => Refusal {
                number: 23,
                line: 0,
            },
        }
    }
}

// A cause of the text form among those of either form.
impl From<aiger_read::Cause> for Cause {
    ghost from_gives = { λ e c. c ≡ text_cause e };

    fn from(cause: aiger_read::Cause) -> Cause {
        match cause {
            aiger_read::Cause::TextTooLong => Cause::TextTooLong,
            aiger_read::Cause::ShortBuffer => Cause::ShortBuffer,
            aiger_read::Cause::FaultyLine(fault, line) => Cause::FaultyLine(fault, line),
            aiger_read::Cause::WaitingGates => Cause::WaitingGates,
        }
    }
}

// And one of the packed form.
impl From<packed_read::Cause> for Cause {
    ghost from_gives = { λ e c. c ≡ packed_cause e };

    fn from(cause: packed_read::Cause) -> Cause {
        match cause {
            packed_read::Cause::TextTooLong => Cause::TextTooLong,
            packed_read::Cause::ShortBuffer => Cause::ShortBuffer,
            packed_read::Cause::FaultyLine(fault, line) => Cause::FaultyLine(fault, line),
            packed_read::Cause::FaultyRun(fault) => Cause::FaultyRun(fault),
        }
    }
}

// Reads the netlist of a file to the front of a lent buffer, and answers how many numbers it has. A refusal leaves the
// buffer as it was.
pub fn read(text: &[u8], net: &mut [u16]) -> Result<usize, Cause>
    ensures net_after { read_end result net.new ≡ read_of text.now net.old }
    ensures bytes { (k : ℕ) → get_or text.now k 0 < 256 }
    ensures exact { ReadMeans }
{
    if has_tag(text, b'i') {
        Ok(packed_read::read(text, net)?)
    } else {
        Ok(aiger_read::read(text, net)?)
    }
}
