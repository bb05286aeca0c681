// The cycles of a run that is not refused, one after another, as the trace reader hands them out.
ghost use Rattle.std.specs.Prelude.{◌≡◌, ◌≤◌, length, take, Ok};
ghost use Rattle.calls.specs.Refusals.{run_check};
ghost use Rattle.simulator.specs.Run.{verdict_byte, verdict_of, run_end, run_of};

use crate::cycle::advance;
use crate::outcome::{Ran, Verdict};
use crate::tally::tallied;
use calls::{Tally, is_rejected};
use netlist::Header;
use trace::TraceReader;

// The byte of a cycle with this first output word: 1 rejected, 0 accepted.
fn verdict_byte(word: u64) -> u8
    ensures { result ≡ verdict_byte word }
{
    u8::from(is_rejected(word))
}

// The verdict of a run whose cycles have these bytes: rejected where any of them was.
fn verdict(verdicts: &[u8]) -> Verdict
    ensures { result ≡ verdict_of verdicts.now }
{
    for &b in verdicts {
        if b != 0 {
            return Verdict::Rejected;
        }
    }
    Verdict::Accepted
}

// Runs the cycles of a trace: the netlist was tested, and no cycle is tested again.
pub(crate) fn run_cycles(
    net: &[u16],
    trace: &[u8],
    latches: &mut [u64],
    values: &mut [u64],
    verdicts: &mut [u8],
    tally: Tally,
) -> Ran
    requires { run_check net.now trace.now (length latches.old) (length values.old) (length verdicts.old) tally ≡ Ok tt }
    ensures { run_end result latches.new values.new verdicts.new ≡ run_of net.now trace.now latches.old values.old verdicts.old tally }
{
    let n = Header::of(net).inputs as usize;
    let lines = trace.len() / (n + 1);
    let mut total = tally;
    let mut reader = TraceReader::new(trace, n);
    for k in 0..lines {
        let cycle = reader.next_cycle();
        let words = advance(net, cycle, latches, values);
        verdicts[k] = verdict_byte(words.accept);
        total = tallied(total, words.accept, words.checked);
    }
    let judged = verdict(&verdicts[0..lines]);
    Ran {
        outcome: Ok(judged),
        tally: total,
    }
}
