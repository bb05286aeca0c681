// Why a call is refused, and the tests before each call, in order. They write nothing.
ghost use Rattle.std.specs.Prelude.{◌≡◌, true, ◌&&◌, ◌≤◌, length};
ghost use Rattle.netlist.specs.Valid.{is_netlist};
ghost use Rattle.calls.specs.Refusals.{refusal_of, has_latches, has_values, start_check, step_check, run_check};

use crate::tally::{Tally, has_room};
use netlist::{Header, is_netlist};
use text::Refusal;
use trace::{fault, is_cycle};

// The most bytes of a trace.
const MAX_TRACE: usize = 1048576;

#[derive(Clone, Copy)]
pub enum Cause {
    // The trace is over 1,048,576 bytes.
    TraceTooLong,
    // A lent buffer that would be filled, or holds latch words, is shorter than the call needs.
    ShortBuffer,
    // A cycle that is not one byte `0` or `1` for each input, in this line; a step's cycle is line 1.
    WrongLine(u32),
    // The numbers lent are no netlist.
    NotNetlist,
    // The new cycles would take a number of the tally past 4,294,967,295.
    FullTally,
}

impl Cause {
    // The number and line in which a refusal is reported.
    pub fn refusal(self) -> Refusal
        ensures { result ≡ refusal_of self }
    {
        match self {
            Cause::TraceTooLong => Refusal { number: 1, line: 0 },
            Cause::ShortBuffer => Refusal {
                number: 12,
                line: 0,
            },
            Cause::WrongLine(line) => Refusal { number: 15, line },
            Cause::NotNetlist => Refusal {
                number: 16,
                line: 0,
            },
            Cause::FullTally => Refusal {
                number: 17,
                line: 0,
            },
        }
    }
}

// The tests of a start, with this many latch words lent.
pub fn start_check(net: &[u16], latches: usize) -> Result<(), Cause>
    ensures { result ≡ start_check net.now latches }
{
    if !is_netlist(net) {
        return Err(Cause::NotNetlist);
    }
    if latches < Header::of(net).latches as usize {
        return Err(Cause::ShortBuffer);
    }
    Ok(())
}

// Whether there is a latch word for each latch and a value word for each variable.
fn has_words(net: &[u16], latches: usize, values: usize) -> bool
    requires { is_netlist net.now ≡ true }
    ensures { result ≡ (has_latches net.now latches && has_values net.now values) }
{
    let header = Header::of(net);
    if latches < header.latches as usize {
        return false;
    }
    values > header.maximum as usize
}

// The tests of a step, with this many latch words and value words lent.
pub fn step_check(
    net: &[u16],
    cycle: &[u8],
    latches: usize,
    values: usize,
    tally: Tally,
) -> Result<(), Cause>
    ensures { result ≡ step_check net.now cycle.now latches values tally }
{
    if !is_netlist(net) {
        return Err(Cause::NotNetlist);
    }
    let header = Header::of(net);
    if !is_cycle(header.inputs as usize, cycle) {
        return Err(Cause::WrongLine(1));
    }
    if !has_words(net, latches, values) {
        return Err(Cause::ShortBuffer);
    }
    if !has_room(tally, 1) {
        return Err(Cause::FullTally);
    }
    Ok(())
}

// The tests of a run whose trace is short enough, over a netlist.
fn lines_check(
    net: &[u16],
    trace: &[u8],
    latches: usize,
    values: usize,
    verdicts: usize,
    tally: Tally,
) -> Result<(), Cause>
    requires net_value { is_netlist net.now ≡ true }
    requires trace_len_bound { length trace.now ≤ 1048576 }
    ensures { result ≡ run_check net.now trace.now latches values verdicts tally }
{
    let n = Header::of(net).inputs as usize;
    let line = fault(trace, n);
    if line != 0 {
        let wrong = line as u32;
        return Err(Cause::WrongLine(wrong));
    }
    let lines = trace.len() / (n + 1);
    if !has_words(net, latches, values) {
        return Err(Cause::ShortBuffer);
    }
    if verdicts < lines {
        return Err(Cause::ShortBuffer);
    }
    if !has_room(tally, lines) {
        return Err(Cause::FullTally);
    }
    Ok(())
}

// The tests of a run, with this many latch words, value words and verdict bytes lent.
pub fn run_check(
    net: &[u16],
    trace: &[u8],
    latches: usize,
    values: usize,
    verdicts: usize,
    tally: Tally,
) -> Result<(), Cause>
    ensures { result ≡ run_check net.now trace.now latches values verdicts tally }
{
    if trace.len() > MAX_TRACE {
        return Err(Cause::TraceTooLong);
    }
    if !is_netlist(net) {
        return Err(Cause::NotNetlist);
    }
    lines_check(net, trace, latches, values, verdicts, tally)
}
