// The C interface: build, write, write packed, read, start, step, run, per million, broken check, broken line and session
// page as a static library has them; in the module checked, build with the second output, start, step and run with the
// tally's third number; in the module graphs, dearest graph and buffer graph; in the module turns, a new cycle and a turn
// of a bench. Each function calls the one that it is named after and puts what that answers where C looks for it. It
// returns 0 where the call is accepted, else number × 2^32 + line; results go through pointers, which a refusal leaves as
// they were. Computes nothing itself. Exports that code, results, tally and buffers are those that their definitions give;
// of a rate that its results are those of a division, the clause `divides` of `ludo_per_million`; of a session that was
// measured twice what a code means and which line it is, the clauses `checks` of `ludo_broken_check` and `first` of
// `ludo_broken_line`; of a session page what stands in its columns and that it tells graph name and verdict bytes, the
// clauses `lays` and `tells` of `ludo_session_page`; of a build what it answers and, where that is 0, that its numbers do
// what demand 3 asks, the clauses `answers` and `demand` of `ludo_build` and `ludo_build_checked`; of write and read what
// they return and leave, by the files of both forms, the clauses `writes` of `ludo_write` and `ludo_write_packed` and
// `reads` of `ludo_read`; of start, step and run what an accepted call leaves and what a refused one does, the clauses
// `starts` of `ludo_start` and `ludo_start_checked`, `steps` of `ludo_step` and `ludo_step_checked`, `runs` of `ludo_run`
// and `ludo_run_checked`; of the dearest graph what it costs, and that no graph of as many edges without operators costs
// more, the clause `dearest` of `ludo_dearest_graph`; of the stroke buffer's graph which cycles it rejects and what build
// makes of it, the clause `buffer` of `ludo_buffer_graph`; of a bench what its calls answer and leave, and what holds
// after any list of them, the clauses `adds` of `ludo_bench_add`, `turns` of `ludo_bench_turn` and `bench` of both.
// `include/ludopoplar.h` declares these functions to C.
#![tactic(auto)]

mod checked;
mod graphs;
mod turns;

ghost use Rattle.std.specs.Prelude.{◌≡◌, false};
ghost use Rattle.aiger.specs.Format.{file_of};
ghost use Rattle.packed.specs.Format.{packed_of};
ghost use Rattle.ludopoplar.specs.Codes.{code_of};
ghost use Rattle.ludopoplar.specs.Private.Counts.{counted_code, counted_after};
ghost use Rattle.ludopoplar.specs.Circuits.{filled, build_call, write_call, write_packed_call, read_call};
ghost use Rattle.ludopoplar.specs.FileClaims.{CallWrites, CallReads};
ghost use Rattle.ludopoplar.specs.CallClaims.{CallBuilds, CallAnswers, CallStarts, StartByTwo, CallSteps, StepByTwo, CallRuns, RunByTwo};
ghost use Rattle.ludopoplar.specs.Claims.{Numbered, CallDivides, CallChecks, CallFinds, CallLays, CallTells};
ghost use Rattle.ludopoplar.specs.Runs.{verdict_number, start_call_end, start_call, step_call_end, step_call, run_call_end, run_call};
ghost use Rattle.ludopoplar.specs.Rates.{rate_call_end, rate_call};
ghost use Rattle.ludopoplar.specs.Sessions.{broken_check_call, trace_number, broken_line_end, broken_line_call};
ghost use Rattle.ludopoplar.specs.Pages.{session_page_call};

use calls::Tally;
use first_broken::Side;
use simulator::Verdict;
use text::Refusal;

// A call that is accepted returns this.
const ACCEPTED: u64 = 0;

// The number of a refusal stands above 32 bits of its line.
const NUMBER: u64 = 4294967296;

// The return code of a refusal.
fn code(refusal: Refusal) -> u64
    ensures { result ≡ code_of refusal }
{
    refusal.number as u64 * NUMBER + refusal.line as u64
}

// Stores what an accepted call has counted, and gives the return code.
fn counted(answer: Result<usize, Refusal>, count: &mut u64) -> u64
    ensures code { result ≡ counted_code answer }
    ensures count { count.new ≡ counted_after answer count.old }
{
    match answer {
        Ok(n) => {
            *count = n as u64;
            ACCEPTED
        }
        Err(refusal) => code(refusal),
    }
}

// The number of a verdict.
fn verdict_number(verdict: Verdict) -> u64
    ensures { result ≡ verdict_number verdict }
{
    match verdict {
        Verdict::Accepted => 0,
        Verdict::Rejected => 1,
    }
}

// Builds the monitor of a graph text.
#[unsafe(no_mangle)]
pub extern "C" fn ludo_build(graph: &[u8], net: &mut [u16], gates: &mut u64) -> u64
    ensures gates_after { filled result net.new gates.new ≡ build_call graph.now net.old gates.old }
    ensures demand { result ≡ 0 → CallBuilds false graph.now net.old net.new gates.new }
    ensures answers { CallAnswers false graph.now net.old gates.old (record { code = result; buffer = net.new; result = gates.new }) }
    ensures numbered { Numbered }
{
    let built = builder::build(graph, false, net).map_err(builder::Cause::refusal);
    counted(built, gates)
}

// Writes the AIGER file of a netlist in the text form.
#[unsafe(no_mangle)]
pub extern "C" fn ludo_write(net: &[u16], text: &mut [u8], length: &mut u64) -> u64
    ensures length_after { filled result text.new length.new ≡ write_call net.now text.old length.old }
    ensures writes { CallWrites (file_of net.now) net.now text.old length.old (filled result text.new length.new) }
{
    let written = aiger::write(net, text).map_err(aiger::Cause::refusal);
    counted(written, length)
}

// Writes the AIGER file of a netlist in the packed form.
#[unsafe(no_mangle)]
pub extern "C" fn ludo_write_packed(net: &[u16], bytes: &mut [u8], length: &mut u64) -> u64
    ensures length_after { filled result bytes.new length.new ≡ write_packed_call net.now bytes.old length.old }
    ensures writes { CallWrites (packed_of net.now) net.now bytes.old length.old (filled result bytes.new length.new) }
{
    let written = packed::write(net, bytes).map_err(aiger::Cause::refusal);
    counted(written, length)
}

// Reads the netlist of an AIGER file in either form.
#[unsafe(no_mangle)]
pub extern "C" fn ludo_read(text: &[u8], net: &mut [u16], length: &mut u64) -> u64
    ensures length_after { filled result net.new length.new ≡ read_call text.now net.old length.old }
    ensures reads { CallReads text.now net.old length.old (filled result net.new length.new) }
{
    let read = aiger_file::read(text, net).map_err(aiger_file::Cause::refusal);
    counted(read, length)
}

// Fills the latch words and clears the tally.
#[unsafe(no_mangle)]
pub extern "C" fn ludo_start(
    net: &[u16],
    latches: &mut [u64],
    cycles: &mut u32,
    rejected: &mut u32,
) -> u64
    ensures rejected_after { start_call_end result latches.new cycles.new rejected.new ≡ start_call net.now latches.old cycles.old rejected.old }
    ensures starts { CallStarts net.now latches.old (record { cycles = cycles.entry.now; rejected = rejected.old; checked = 0 })
        (StartByTwo (record { code = result; latches = latches.new; cycles = cycles.exit.now; rejected = rejected.new })) }
{
    let tally = Tally {
        cycles: *cycles,
        rejected: *rejected,
        checked: 0,
    };
    let started = simulator::start(net, latches, tally);
    *cycles = started.tally.cycles;
    *rejected = started.tally.rejected;
    let outcome = started.outcome;
    match outcome {
        Ok(()) => ACCEPTED,
        Err(cause) => code(cause.refusal()),
    }
}

// Runs one cycle.
#[unsafe(no_mangle)]
pub extern "C" fn ludo_step(
    net: &[u16],
    cycle: &[u8],
    latches: &mut [u64],
    values: &mut [u64],
    cycles: &mut u32,
    rejected: &mut u32,
    word: &mut u64,
) -> u64
    ensures word_after { step_call_end result latches.new values.new cycles.new rejected.new word.new
        ≡ step_call net.now cycle.now latches.old values.old cycles.old rejected.old word.old }
    ensures steps { CallSteps net.now cycle.now latches.old values.old (record { cycles = cycles.entry.now; rejected = rejected.old; checked = 0 }) word.old 0
        (StepByTwo (record { code = result; latches = latches.new; values = values.new; cycles = cycles.exit.now; rejected = rejected.new; word = word.new })) }
{
    let tally = Tally {
        cycles: *cycles,
        rejected: *rejected,
        checked: 0,
    };
    let stepped = simulator::step(net, cycle, latches, values, tally);
    *cycles = stepped.tally.cycles;
    *rejected = stepped.tally.rejected;
    let outcome = stepped.outcome;
    match outcome {
        Ok((output, _)) => {
            *word = output;
            ACCEPTED
        }
        Err(cause) => code(cause.refusal()),
    }
}

// Runs a trace.
#[unsafe(no_mangle)]
pub extern "C" fn ludo_run(
    net: &[u16],
    trace: &[u8],
    latches: &mut [u64],
    values: &mut [u64],
    verdicts: &mut [u8],
    cycles: &mut u32,
    rejected: &mut u32,
    verdict: &mut u64,
) -> u64
    ensures verdict_after { run_call_end result latches.new values.new verdicts.new cycles.new rejected.new verdict.new
        ≡ run_call net.now trace.now latches.old values.old verdicts.old cycles.old rejected.old verdict.old }
    ensures runs { CallRuns net.now trace.now latches.old values.old verdicts.old (record { cycles = cycles.entry.now; rejected = rejected.old; checked = 0 }) verdict.old
        (RunByTwo (record { code = result; latches = latches.new; values = values.new; verdicts = verdicts.new; cycles = cycles.exit.now; rejected = rejected.new; verdict = verdict.new })) }
{
    let tally = Tally {
        cycles: *cycles,
        rejected: *rejected,
        checked: 0,
    };
    let ran = simulator::run(net, trace, latches, values, verdicts, tally);
    *cycles = ran.tally.cycles;
    *rejected = ran.tally.rejected;
    let outcome = ran.outcome;
    match outcome {
        Ok(end) => {
            *verdict = verdict_number(end);
            ACCEPTED
        }
        Err(cause) => code(cause.refusal()),
    }
}

// Takes the rate of a tally.
#[unsafe(no_mangle)]
pub extern "C" fn ludo_per_million(
    cycles: u32,
    rejected: u32,
    whole: &mut u64,
    remainder: &mut u64,
) -> u64
    ensures remainder_after { rate_call_end result whole.new remainder.new ≡ rate_call cycles rejected whole.old remainder.old }
    ensures divides { CallDivides cycles rejected whole.old remainder.old (rate_call_end result whole.new remainder.new) }
{
    let rated = rate::per_million(Tally {
        cycles,
        rejected,
        checked: 0,
    });
    match rated {
        Ok(rate) => {
            *whole = rate.whole as u64;
            *remainder = rate.remainder as u64;
            ACCEPTED
        }
        Err(cause) => code(cause.refusal()),
    }
}

// Tests a session that was measured twice.
#[unsafe(no_mangle)]
pub extern "C" fn ludo_broken_check(
    width: u64,
    flywheel: &[u8],
    handle: &[u8],
    flywheel_verdicts: &[u8],
    handle_verdicts: &[u8],
) -> u64
    ensures value { result ≡ broken_check_call width
        (record { trace = flywheel.now; verdicts = flywheel_verdicts.now })
        (record { trace = handle.now; verdicts = handle_verdicts.now }) }
    ensures checks { CallChecks width
        (record { trace = flywheel.now; verdicts = flywheel_verdicts.now })
        (record { trace = handle.now; verdicts = handle_verdicts.now })
        result }
{
    let checked = first_broken::check(
        width as usize,
        flywheel,
        handle,
        flywheel_verdicts,
        handle_verdicts,
    );
    match checked {
        Ok(()) => ACCEPTED,
        Err(cause) => code(cause.refusal()),
    }
}

// The number of a trace.
fn trace_number(side: Side) -> u64
    ensures { result ≡ trace_number side }
{
    match side {
        Side::Flywheel => 0,
        Side::Handle => 1,
    }
}

// Finds the line that was rejected first.
#[unsafe(no_mangle)]
pub extern "C" fn ludo_broken_line(
    width: u64,
    flywheel: &[u8],
    handle: &[u8],
    flywheel_verdicts: &[u8],
    handle_verdicts: &[u8],
    trace: &mut u64,
    offset: &mut u64,
    length: &mut u64,
) -> u64
    ensures length_after { broken_line_end result trace.exit.now offset.new length.new
        ≡ broken_line_call width
        (record { trace = flywheel.now; verdicts = flywheel_verdicts.now })
        (record { trace = handle.now; verdicts = handle_verdicts.now }) }
    ensures first { CallFinds width
        (record { trace = flywheel.now; verdicts = flywheel_verdicts.now })
        (record { trace = handle.now; verdicts = handle_verdicts.now })
        result trace.exit.now offset.new length.new }
{
    let found = first_broken::find(
        width as usize,
        flywheel,
        handle,
        flywheel_verdicts,
        handle_verdicts,
    );
    *trace = trace_number(found.side);
    *offset = found.at as u64;
    *length = found.length as u64;
    ACCEPTED
}

// Lays out a session page.
#[unsafe(no_mangle)]
pub extern "C" fn ludo_session_page(
    name: &[u8],
    verdicts: &[u8],
    page: &mut [u8],
    length: &mut u64,
) -> u64
    ensures length_after { filled result page.new length.new ≡ session_page_call name.now verdicts.now page.old length.old }
    ensures lays { CallLays name.now verdicts.now page.old page.new result length.old length.new }
    ensures tells { CallTells name.now verdicts.now page.new result length.new }
{
    let laid = session_page::lay_out(name, verdicts, page).map_err(session_page::Cause::refusal);
    counted(laid, length)
}
