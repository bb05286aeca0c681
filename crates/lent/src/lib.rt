// The simulator with the caller's tally lent: start clears it, and each step or run brings it up to date;
// a refusal leaves it as it was. Knows nothing of what netlists, cycles and traces mean: each function
// calls the simulator's of its name with a copy of the tally and stores the tally of the answer. Exports
// that answer, tally and buffers are those that the simulator's definitions give.
#![tactic(auto)]

ghost use Rattle.std.specs.Prelude.{◌≡◌};
ghost use Rattle.simulator.specs.Start.{start_end, start_of};
ghost use Rattle.simulator.specs.Step.{step_end, step_of};
ghost use Rattle.simulator.specs.Run.{run_end, run_of};

use calls::{Cause, Tally};
use simulator::Verdict;

// Starts a run: fills the latch words and clears the tally, which a refusal leaves as it was.
pub fn start(net: &[u16], latches: &mut [u64], tally: &mut Tally) -> Result<(), Cause>
    ensures { start_end (record { outcome = result; tally = tally.new }) latches.new ≡ start_of net.now latches.old tally.old }
{
    let t = *tally;
    let started = simulator::start(net, latches, t);
    *tally = started.tally;
    started.outcome
}

// Runs one cycle and brings the tally up to date, which a refusal leaves as it was.
pub fn step(
    net: &[u16],
    cycle: &[u8],
    latches: &mut [u64],
    values: &mut [u64],
    tally: &mut Tally,
) -> Result<(u64, u64), Cause>
    ensures { step_end (record { outcome = result; tally = tally.new }) latches.new values.new ≡ step_of net.now cycle.now latches.old values.old tally.old }
{
    let t = *tally;
    let stepped = simulator::step(net, cycle, latches, values, t);
    *tally = stepped.tally;
    stepped.outcome
}

// Runs a trace and brings the tally up to date, which a refusal leaves as it was.
pub fn run(
    net: &[u16],
    trace: &[u8],
    latches: &mut [u64],
    values: &mut [u64],
    verdicts: &mut [u8],
    tally: &mut Tally,
) -> Result<Verdict, Cause>
    ensures { run_end (record { outcome = result; tally = tally.new }) latches.new values.new verdicts.new ≡ run_of net.now trace.now latches.old values.old verdicts.old tally.old }
{
    let t = *tally;
    let ran = simulator::run(net, trace, latches, values, verdicts, t);
    *tally = ran.tally;
    ran.outcome
}
