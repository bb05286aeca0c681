// What a netlist does on the traces of a case: by run, and by step from a new start.
ghost use Rattle.std.specs.Prelude.{◌≤◌, length};

use crate::fields::{after, after_three, field, number_in};
use crate::output::{write, write_number, write_refusal, write_word};
use calls::{Cause, Tally};
use simulator::Verdict;
use std::io;
use text::Line;

// Room for the latch and value words of any netlist, and for the verdicts of a case.
const WORDS: usize = 4096;

const CYCLES: usize = 64;

// What each verdict byte is before a run: no run stores it.
const FILL: u8 = 165;

// The tally so far, and whether a step was refused.
#[derive(Clone, Copy)]
struct Going {
    tally: Tally,
    refused: bool,
}

// The tally in the three fields at the front of a text.
fn tally_in(s: &[u8]) -> Tally {
    let rejected = after(s);
    let checked = after(rejected);
    Tally {
        cycles: number_in(s) as u32,
        rejected: number_in(rejected) as u32,
        checked: number_in(checked) as u32,
    }
}

// Writes a blank and a number.
fn write_count(rt: &impl Print, n: u32) -> io::Result<()> {
    write(rt, b" ")?;
    write_number(rt, n as usize)
}

// Writes the three numbers of a tally.
fn write_tally(rt: &impl Print, tally: Tally) -> io::Result<()> {
    write_count(rt, tally.cycles)?;
    write_count(rt, tally.rejected)?;
    write_count(rt, tally.checked)
}

// Writes a blank and a refusal.
fn write_refused(rt: &impl Print, cause: Cause) -> io::Result<()> {
    write(rt, b" ")?;
    write_refusal(rt, cause.refusal())
}

// Starts a netlist and writes the answer and the tally.
fn start(rt: &impl Print, net: &[u16], latches: &mut [u64], tally: Tally) -> io::Result<()> {
    let started = simulator::start(net, latches, tally);
    let outcome = started.outcome;
    write(rt, b"; start")?;
    match outcome {
        Ok(()) => {}
        Err(cause) => write_refused(rt, cause)?,
    }
    write_tally(rt, started.tally)
}

// Writes a verdict byte as a number.
fn write_digit(rt: &impl Print, b: u8) -> io::Result<()> {
    write_number(rt, b as usize)
}

// Writes the verdict bytes that a run stored, each as a number.
fn write_verdicts(rt: &impl Print, verdicts: &[u8]) -> io::Result<()> {
    for &verdict in verdicts {
        if verdict == FILL {
            return Ok(());
        }
        write_digit(rt, verdict)?;
    }
    Ok(())
}

// Writes the verdict of a run and its bytes.
fn write_done(rt: &impl Print, verdict: Verdict, verdicts: &[u8]) -> io::Result<()> {
    write(rt, b" [")?;
    write_verdicts(rt, verdicts)?;
    match verdict {
        Verdict::Accepted => write(rt, b"] accepted"),
        Verdict::Rejected => write(rt, b"] rejected"),
    }
}

// Writes what a run answered and left in its verdict buffer.
fn write_outcome(
    rt: &impl Print,
    outcome: Result<Verdict, Cause>,
    verdicts: &[u8],
) -> io::Result<()> {
    match outcome {
        Ok(verdict) => write_done(rt, verdict, verdicts),
        Err(cause) => write_refused(rt, cause),
    }
}

// Runs a trace and writes the answer and the tally, which it answers.
fn run(
    rt: &impl Print,
    net: &[u16],
    trace: &[u8],
    latches: &mut [u64],
    values: &mut [u64],
    before: Tally,
) -> io::Result<Tally> {
    let mut verdicts = [FILL; CYCLES];
    let ran = simulator::run(net, trace, latches, values, &mut verdicts, before);
    let outcome = ran.outcome;
    let tally = ran.tally;
    write_outcome(rt, outcome, &verdicts)?;
    write_tally(rt, tally)?;
    Ok(tally)
}

// Starts a netlist, puts in a tally, and runs one trace and then another, if there is one: the two fields at the front of
// a text.
fn write_both(rt: &impl Print, net: &[u16], traces: &[u8], before: Tally) -> io::Result<()> {
    let mut latches = [0u64; WORDS];
    let mut values = [0u64; WORDS];
    start(rt, net, &mut latches, before)?;
    write(rt, b"; run")?;
    let tally = run(rt, net, field(traces), &mut latches, &mut values, before)?;
    let then = field(after(traces));
    if then.len() != 0 {
        write(rt, b"; then")?;
        run(rt, net, then, &mut latches, &mut values, tally)?;
    }
    Ok(())
}

// Steps a cycle and writes the answer.
fn step(
    rt: &impl Print,
    net: &[u16],
    cycle: &[u8],
    latches: &mut [u64],
    values: &mut [u64],
    before: Tally,
) -> io::Result<Going> {
    let stepped = simulator::step(net, cycle, latches, values, before);
    let outcome = stepped.outcome;
    let tally = stepped.tally;
    match outcome {
        Ok((accept, checked)) => {
            write_word(rt, b" ", accept)?;
            write_word(rt, b"/", checked)?;
            Ok(Going {
                tally,
                refused: false,
            })
        }
        Err(cause) => {
            write_refused(rt, cause)?;
            Ok(Going {
                tally,
                refused: true,
            })
        }
    }
}

// The place of the first LF from `at` on, or the text's end.
fn line_end(s: &[u8], at: usize) -> usize
    requires { at ≤ length s.now }
    ensures { (at ≤ result) × (result ≤ length s.now) }
{
    let Line::Ended(end) = text::line_at(s, at) else {
        return s.len();
    };
    if end < at {
        return s.len();
    }
    if s.len() < end {
        return s.len();
    }
    end
}

// Steps the lines of a trace, up to one that is refused: the tally.
fn steps(
    rt: &impl Print,
    net: &[u16],
    trace: &[u8],
    latches: &mut [u64],
    values: &mut [u64],
    before: Tally,
) -> io::Result<Tally> {
    let mut tally = before;
    let mut at = 0;
    while at < trace.len() {
        let end = line_end(trace, at);
        let g = step(rt, net, &trace[at..end], latches, values, tally)?;
        tally = g.tally;
        if g.refused {
            return Ok(tally);
        }
        at = end + 1;
    }
    Ok(tally)
}

// Starts a netlist, puts in a tally, and steps the lines of a trace.
fn write_steps(rt: &impl Print, net: &[u16], trace: &[u8], before: Tally) -> io::Result<()> {
    let mut latches = [0u64; WORDS];
    let mut values = [0u64; WORDS];
    simulator::start(net, &mut latches, before);
    write(rt, b"; steps")?;
    let tally = steps(rt, net, trace, &mut latches, &mut values, before)?;
    write_tally(rt, tally)
}

// Writes what a netlist does; `given` are the fields from the tally's on.
pub(crate) fn write_runs(rt: &impl Print, net: &[u16], given: &[u8]) -> io::Result<()> {
    let tally = tally_in(given);
    let traces = after_three(given);
    write_both(rt, net, traces, tally)?;
    write_steps(rt, net, field(traces), tally)
}
