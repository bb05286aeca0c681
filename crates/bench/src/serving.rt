// A turn that is not idle: the machine is stepped with its oldest cycle, which frees its place.
ghost use Rattle.std.specs.Prelude.{◌≡◌, true, false, ◌-◌, ◌*◌, ◌<◌, ◌≤◌, length};
ghost use Rattle.simulator.specs.Step.{step_of};
ghost use Rattle.bench_turns.specs.Parts.{part_of, with_part, shifted};
ghost use Rattle.bench_turns.specs.Numbers.{waiting_of, with_waiting, with_tally, with_last, is_bench};
ghost use Rattle.bench_turns.specs.Refusals.{next_machine, is_idle};
ghost use Rattle.bench_turns.specs.Turn.{step_for, turn_end, turn_of};

use crate::numbers::{served, tally, waiting};
use crate::places::{bounds, part_of};
use crate::queues::move_up;
use bench_turns::Cause;
use calls::Tally;
use netlist::Header;
use simulator::{Stepped, step};

// A step with the latch words of machine k.
fn step_part(
    net: &[u16],
    cycle: &[u8],
    latches: &mut [u64],
    values: &mut [u64],
    k: usize,
    tally: Tally,
) -> Stepped
    requires { k < 8 }
    ensures { (result ≡ (step_of net.now cycle.now (part_of k latches.old) values.old tally).answer) × (latches.new ≡ with_part k (step_of net.now cycle.now (part_of k latches.old) values.old tally).latches latches.old) × (values.new ≡ (step_of net.now cycle.now (part_of k latches.old) values.old tally).values) }
{
    let (at, end) = bounds(latches.len(), k);
    step(net, cycle, &mut latches[at..end], values, tally)
}

// The step of machine k with its oldest cycle.
fn step_machine(
    nets: &[u16],
    latches: &mut [u64],
    values: &mut [u64],
    queues: &[u8],
    bench: &[u32],
    k: usize,
) -> Stepped
    requires k_bound { (k < 8) × (0 < waiting_of k bench.now) }
    requires bench_value { is_bench nets.now queues.now bench.now ≡ true }
    ensures { (result ≡ (step_for k nets.now latches.old values.old queues.now bench.now).answer) × (latches.new ≡ with_part k (step_for k nets.now latches.old values.old queues.now bench.now).latches latches.old) × (values.new ≡ (step_for k nets.now latches.old values.old queues.now bench.now).values) }
{
    let net = part_of(nets, k);
    let queue = part_of(queues, k);
    let inputs = Header::of(net).inputs as usize;
    step_part(net, &queue[..inputs], latches, values, k, tally(bench, k))
}

// Frees the place of the oldest cycle of machine k, and brings its numbers up to date.
fn leave(queues: &mut [u8], bench: &mut [u32], k: usize, after: Tally)
    requires { (k < 8) × (33 ≤ length bench.old) × (0 < waiting_of k bench.old) × (64 * waiting_of k bench.old ≤ length (part_of k queues.old)) }
    ensures { (queues.new ≡ with_part k (shifted (waiting_of k bench.old - 1) (part_of k queues.old)) queues.old) × (bench.new ≡ with_last k (with_tally k after (with_waiting k (waiting_of k bench.old - 1) bench.old))) }
{
    let left = waiting(bench, k) - 1;
    move_up(queues, k, left as usize);
    served(bench, k, left, after);
}

// Serves machine k, which is the next.
pub(crate) fn serve(
    nets: &[u16],
    latches: &mut [u64],
    values: &mut [u64],
    queues: &mut [u8],
    bench: &mut [u32],
    k: usize,
) -> Result<Option<(u32, u64, u64)>, Cause>
    requires k_next { (k ≡ next_machine bench.old) × (is_idle bench.old ≡ false) }
    requires bench_value { is_bench nets.now queues.old bench.old ≡ true }
    ensures { turn_end result latches.new values.new queues.new bench.new ≡ turn_of nets.now latches.old values.old queues.old bench.old }
{
    let stepped = step_machine(nets, latches, values, queues, bench, k);
    let (word, checked) = stepped.outcome?;
    leave(queues, bench, k, stepped.tally);
    Ok(Some((k as u32, word, checked)))
}
