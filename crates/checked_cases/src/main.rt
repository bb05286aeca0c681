// Runs document 02's cases of the second output, checked, through the builder, the writer and reader of AIGER files and
// the simulator, and writes what they answer, a line each.
//
// A case is nine fields of standard input, each a line with its length in bytes and then that many bytes: the name; the
// kind; the text; how many numbers are lent for the netlist; the tally's three numbers before a run; the trace; and the
// trace of a second run, or none. The first byte of a kind is `b` for a graph built without checked, `c` for one built
// with it, `f` for an AIGER file that is read. The second is `n` where the numbers are all that is asked, `a` where the
// file is shown, `r` where the netlist is run.
//
// The line written for a case is its name, a tab and the answer. cases.py writes the cases and, from a model of the
// documents, the lines that are expected.
#![tactic(auto)]

use fields::{after, after_three, field};
use output::write;
use std::io;

mod fields;
mod netlists;
mod output;
mod runs;

// Room for all cases, and a byte more at least.
const ROOM: usize = 131072;

// Writes the line of the case at the front of a text: how many bytes come after it.
fn write_case(rt: &impl Print, name: &[u8]) -> io::Result<usize> {
    let kind = after(name);
    let given = after(kind);
    let tally = after(after(given));
    let traces = after_three(tally);
    write(rt, field(name))?;
    write(rt, b"\t")?;
    netlists::write_answer(rt, field(kind), given)?;
    write(rt, b"\n")?;
    Ok(after(after(traces)).len())
}

// All cases of standard input.
fn cases(rt: &impl Print, input: &[u8]) -> io::Result<()> {
    let mut at = 0;
    while at < input.len() {
        let left = write_case(rt, &input[at..])?;
        if input.len() - at <= left {
            return Ok(());
        }
        at = input.len() - left;
    }
    Ok(())
}

fn main(rt: HostRuntime) -> io::Result<()> {
    let mut input = [0u8; ROOM];
    let n = stream::read_full(&mut rt.stdin(), &mut input)?;
    cases(&rt, &input[..n])?;
    if n == ROOM {
        write(&rt, b"TOO LONG\n")?;
    }
    Ok(())
}
