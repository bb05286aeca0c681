// The simulator of netlists: start, step and run over lent latch words, value words and verdict
// bytes, 64 lanes at a time, with the caller's tally by value. Knows nothing of graphs. Exports that
// each step computes and answers, in every lane, what the one valuation that AIGER's equations allow
// gives, and what it adds to the three numbers of the tally; that a run is its steps one after another,
// one for each line of its trace, and that it answers rejected exactly if one of their bytes is 1.
#![tactic(auto)]

ghost use Rattle.std.specs.Prelude.{◌≡◌};
ghost use Rattle.simulator.specs.Start.{start_end, start_of};
ghost use Rattle.simulator.specs.Step.{step_end, step_of};
ghost use Rattle.simulator.specs.Run.{run_end, run_of};
ghost use Rattle.simulator.specs.Claims.{StartMeans, WordsOfStart, StepMeans, StepCounts, TraceOfRun, RunIsSteps, VerdictMeans};

mod cycle;
mod latches;
mod outcome;
mod running;
mod tally;

use crate::cycle::advance;
use crate::latches::starts;
use crate::running::run_cycles;
use crate::tally::tallied;
use calls::{Tally, run_check, start_check, step_check};
use netlist::Header;
pub use outcome::{Ran, Started, Stepped, Verdict};

// Starts a run: fills the latch words and clears the tally.
pub fn start(net: &[u16], latches: &mut [u64], tally: Tally) -> Started
    ensures latches_after { start_end result latches.new ≡ start_of net.now latches.old tally }
    ensures lanes { StartMeans net.now latches.old tally }
    ensures computed { WordsOfStart net.now latches.old tally }
{
    let tested = start_check(net, latches.len());
    match tested {
        Err(cause) => Started {
            outcome: Err(cause),
            tally,
        },
        Ok(()) => {
            starts(net, Header::of(net).latches as usize, latches);
            Started {
                outcome: Ok(()),
                tally: Tally {
                    cycles: 0,
                    rejected: 0,
                    checked: 0,
                },
            }
        }
    }
}

// Runs one cycle: fills the value words, moves the latches together and brings the tally up to date.
pub fn step(
    net: &[u16],
    cycle: &[u8],
    latches: &mut [u64],
    values: &mut [u64],
    tally: Tally,
) -> Stepped
    ensures values_after { step_end result latches.new values.new ≡ step_of net.now cycle.now latches.old values.old tally }
    ensures aiger { StepMeans net.now cycle.now latches.old values.old tally }
    ensures counts { StepCounts net.now cycle.now latches.old values.old tally (step_end result latches.new values.new) }
{
    let tested = step_check(net, cycle, latches.len(), values.len(), tally);
    match tested {
        Err(cause) => Stepped {
            outcome: Err(cause),
            tally,
        },
        Ok(()) => {
            let words = advance(net, cycle, latches, values);
            Stepped {
                outcome: Ok((words.accept, words.checked)),
                tally: tallied(tally, words.accept, words.checked),
            }
        }
    }
}

// Runs a trace: one cycle a line, each with its byte in verdicts; rejected where any cycle was.
pub fn run(
    net: &[u16],
    trace: &[u8],
    latches: &mut [u64],
    values: &mut [u64],
    verdicts: &mut [u8],
    tally: Tally,
) -> Ran
    ensures verdicts_after { run_end result latches.new values.new verdicts.new ≡ run_of net.now trace.now latches.old values.old verdicts.old tally }
    ensures trace { TraceOfRun net.now trace.now latches.old values.old verdicts.old tally }
    ensures steps { RunIsSteps net.now trace.now latches.old values.old verdicts.old tally }
    ensures verdict { VerdictMeans net.now trace.now latches.old values.old verdicts.old tally (run_end result latches.new values.new verdicts.new) }
{
    let tested = run_check(
        net,
        trace,
        latches.len(),
        values.len(),
        verdicts.len(),
        tally,
    );
    match tested {
        Err(cause) => Ran {
            outcome: Err(cause),
            tally,
        },
        Ok(()) => run_cycles(net, trace, latches, values, verdicts, tally),
    }
}
