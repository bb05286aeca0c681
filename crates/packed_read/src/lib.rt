// The reader of packed AIGER files: a file's netlist into a lent buffer of 16-bit numbers. Knows nothing of
// graphs, nor of the text form. Exports that it takes exactly the packed files of netlists, explicit resets 0
// allowed, that reading what was written gives the same numbers, and with which number and line it refuses
// every other text.
#![tactic(auto)]

ghost use Rattle.std.specs.Prelude.{◌≡◌, ℕ, ◌<◌, get_or};
ghost use Rattle.packed_read.specs.Read.{refusal_of, read_end, read_of};
ghost use Rattle.packed_read.specs.Claims.{PackedMeans};
ghost use Rattle.packed_read.specs.Private.Steps.{cause_of};

use aiger_lines::Fault;
use text::Refusal;

mod files;
mod lines;
mod runs;

// Why a read is refused.
#[derive(Clone, Copy)]
pub enum Cause {
    // Over 65,536 bytes.
    TextTooLong,
    // The buffer is shorter than the netlist.
    ShortBuffer,
    // The first faulty line.
    FaultyLine(Fault, u32),
    // The first faulty byte run, or bytes after the last gate. No line has them.
    FaultyRun(Fault),
}

impl Cause {
    // The number and line in which a refusal is reported.
    pub fn refusal(self) -> Refusal
        ensures { result ≡ refusal_of self }
    {
        match self {
            Cause::TextTooLong => Refusal { number: 1, line: 0 },
            Cause::ShortBuffer => Refusal {
                number: 12,
                line: 0,
            },
            Cause::FaultyLine(fault, line) => Refusal {
                number: fault.number(),
                line: line,
            },
            Cause::FaultyRun(fault) => match fault {
                Fault::WrongShape => Refusal {
                    number: 18,
                    line: 0,
                },
                Fault::OutOfLimits => Refusal {
                    number: 14,
                    line: 0,
                },
            },
        }
    }
}

impl From<(Fault, u32)> for Cause {
    ghost from_gives = { λ e c. c ≡ cause_of e.0 e.1 };

    // Line 0 is no line, but the byte part.
    fn from(faulty: (Fault, u32)) -> Cause {
        if faulty.1 == 0 {
            Cause::FaultyRun(faulty.0)
        } else {
            Cause::FaultyLine(faulty.0, faulty.1)
        }
    }
}

// The longest text.
const MAX_TEXT: usize = 65536;

// Reads the netlist of a packed file to the front of a lent buffer, and answers how many numbers it has. A first pass
// stores nothing, so that a refusal leaves the buffer as it was.
pub fn read(text: &[u8], net: &mut [u16]) -> Result<usize, Cause>
    ensures net_after { read_end result net.new ≡ read_of text.now net.old }
    ensures bytes { (k : ℕ) → get_or text.now k 0 < 256 }
    ensures exact { PackedMeans }
{
    if text.len() > MAX_TEXT {
        return Err(Cause::TextTooLong);
    }
    let end = files::read_file(text, &mut net[..0])?;
    if end.place > net.len() {
        return Err(Cause::ShortBuffer);
    }
    files::read_file(text, net)?;
    Ok(end.place)
}
