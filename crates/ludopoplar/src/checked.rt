// The calls of document 02, No. 7: build with the second output checked; start, step and run with the tally's third
// number.
ghost use Rattle.std.specs.Prelude.{◌≡◌, true};
ghost use Rattle.ludopoplar.specs.Circuits.{filled, build_checked_call};
ghost use Rattle.ludopoplar.specs.CallClaims.{CallBuilds, CallAnswers, CallStarts, StartByThree, CallSteps, StepByThree, CallRuns, RunByThree};
ghost use Rattle.ludopoplar.specs.CheckedRuns.{start_checked_end, start_checked_call, step_checked_end, step_checked_call, run_checked_end, run_checked_call};

use crate::{ACCEPTED, code, counted, verdict_number};
use calls::Tally;

// Builds the monitor of a graph text, with checked.
#[unsafe(no_mangle)]
pub extern "C" fn ludo_build_checked(graph: &[u8], net: &mut [u16], gates: &mut u64) -> u64
    ensures gates_after { filled result net.new gates.new ≡ build_checked_call graph.now net.old gates.old }
    ensures demand { result ≡ 0 → CallBuilds true graph.now net.old net.new gates.new }
    ensures answers { CallAnswers true graph.now net.old gates.old (record { code = result; buffer = net.new; result = gates.new }) }
{
    let built = builder::build(graph, true, net).map_err(builder::Cause::refusal);
    counted(built, gates)
}

// Fills the latch words and clears the tally.
#[unsafe(no_mangle)]
pub extern "C" fn ludo_start_checked(
    net: &[u16],
    latches: &mut [u64],
    cycles: &mut u32,
    rejected: &mut u32,
    checked: &mut u32,
) -> u64
    ensures checked_after { start_checked_end result latches.new cycles.new rejected.new checked.new
        ≡ start_checked_call net.now latches.old cycles.old rejected.old checked.old }
    ensures starts { CallStarts net.now latches.old (record { cycles = cycles.entry.now; rejected = rejected.old; checked = checked.old })
        (StartByThree (record { code = result; latches = latches.new; tally = record { cycles = cycles.exit.now; rejected = rejected.new; checked = checked.new } })) }
{
    let tally = Tally {
        cycles: *cycles,
        rejected: *rejected,
        checked: *checked,
    };
    let started = simulator::start(net, latches, tally);
    *cycles = started.tally.cycles;
    *rejected = started.tally.rejected;
    *checked = started.tally.checked;
    let outcome = started.outcome;
    match outcome {
        Ok(()) => ACCEPTED,
        Err(cause) => code(cause.refusal()),
    }
}

// Runs one cycle.
#[unsafe(no_mangle)]
pub extern "C" fn ludo_step_checked(
    net: &[u16],
    cycle: &[u8],
    latches: &mut [u64],
    values: &mut [u64],
    cycles: &mut u32,
    rejected: &mut u32,
    checked: &mut u32,
    word: &mut u64,
    checked_word: &mut u64,
) -> u64
    ensures checked_word_after { step_checked_end result latches.new values.new cycles.new rejected.new checked.new word.new checked_word.new
        ≡ step_checked_call net.now cycle.now latches.old values.old cycles.old rejected.old checked.old word.old checked_word.old }
    ensures steps { CallSteps net.now cycle.now latches.old values.old (record { cycles = cycles.entry.now; rejected = rejected.old; checked = checked.old }) word.old checked_word.old
        (StepByThree (record { code = result; latches = latches.new; values = values.new; tally = record { cycles = cycles.exit.now; rejected = rejected.new; checked = checked.new }; word = word.new; second = checked_word.new })) }
{
    let tally = Tally {
        cycles: *cycles,
        rejected: *rejected,
        checked: *checked,
    };
    let stepped = simulator::step(net, cycle, latches, values, tally);
    *cycles = stepped.tally.cycles;
    *rejected = stepped.tally.rejected;
    *checked = stepped.tally.checked;
    let outcome = stepped.outcome;
    match outcome {
        Ok((first, second)) => {
            *word = first;
            *checked_word = second;
            ACCEPTED
        }
        Err(cause) => code(cause.refusal()),
    }
}

// Runs a trace.
#[unsafe(no_mangle)]
pub extern "C" fn ludo_run_checked(
    net: &[u16],
    trace: &[u8],
    latches: &mut [u64],
    values: &mut [u64],
    verdicts: &mut [u8],
    cycles: &mut u32,
    rejected: &mut u32,
    checked: &mut u32,
    verdict: &mut u64,
) -> u64
    ensures verdict_after { run_checked_end result latches.new values.new verdicts.new cycles.new rejected.new checked.new verdict.new
        ≡ run_checked_call net.now trace.now latches.old values.old verdicts.old cycles.old rejected.old checked.old verdict.old }
    ensures runs { CallRuns net.now trace.now latches.old values.old verdicts.old (record { cycles = cycles.entry.now; rejected = rejected.old; checked = checked.old }) verdict.old
        (RunByThree (record { code = result; latches = latches.new; values = values.new; verdicts = verdicts.new; tally = record { cycles = cycles.exit.now; rejected = rejected.new; checked = checked.new }; verdict = verdict.new })) }
{
    let tally = Tally {
        cycles: *cycles,
        rejected: *rejected,
        checked: *checked,
    };
    let ran = simulator::run(net, trace, latches, values, verdicts, tally);
    *cycles = ran.tally.cycles;
    *rejected = ran.tally.rejected;
    *checked = ran.tally.checked;
    let outcome = ran.outcome;
    match outcome {
        Ok(end) => {
            *verdict = verdict_number(end);
            ACCEPTED
        }
        Err(cause) => code(cause.refusal()),
    }
}
