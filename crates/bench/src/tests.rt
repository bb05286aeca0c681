// The tests before a new cycle, in order. They write nothing.
ghost use Rattle.std.specs.Prelude.{◌≡◌, true, ◌<◌};
ghost use Rattle.bench_turns.specs.Numbers.{is_bench};
ghost use Rattle.bench_turns.specs.Refusals.{add_check};

use crate::numbers::{tally, waiting};
use crate::places::{MAX_WAITING, is_bench, part_of};
use crate::queues::SLOT;
use bench_turns::Cause;
use calls::has_room;
use netlist::Header;
use trace::is_cycle;

// The tests of a new cycle for machine k of a bench.
fn machine_check(
    nets: &[u16],
    latches: &[u64],
    queues: &[u8],
    bench: &[u32],
    k: usize,
    cycle: &[u8],
) -> Result<(), Cause>
    requires k_bound { k < 8 }
    requires bench_value { is_bench nets.now queues.now bench.now ≡ true }
    ensures { result ≡ add_check nets.now latches.now queues.now bench.now k cycle.now }
{
    let net = part_of(nets, k);
    let n = waiting(bench, k) as usize;
    if n >= MAX_WAITING {
        return Err(Cause::FullQueue);
    }
    let header = Header::of(net);
    if !is_cycle(header.inputs as usize, cycle) {
        return Err(Cause::WrongCycle);
    }
    if latches.len() / 8 < header.latches as usize {
        return Err(Cause::ShortBuffer);
    }
    if queues.len() / 8 < SLOT * (n + 1) {
        return Err(Cause::ShortBuffer);
    }
    if !has_room(tally(bench, k), n + 1) {
        return Err(Cause::FullTally);
    }
    Ok(())
}

// The tests of a new cycle.
pub(crate) fn add_check(
    nets: &[u16],
    latches: &[u64],
    queues: &[u8],
    bench: &[u32],
    machine: u32,
    cycle: &[u8],
) -> Result<(), Cause>
    ensures { result ≡ add_check nets.now latches.now queues.now bench.now machine cycle.now }
{
    if machine > 7 {
        return Err(Cause::NoMachine);
    }
    if !is_bench(nets, queues, bench) {
        return Err(Cause::NotBench);
    }
    machine_check(nets, latches, queues, bench, machine as usize, cycle)
}
