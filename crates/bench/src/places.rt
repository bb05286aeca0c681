// Which lent numbers and bytes are a bench: eight netlists, eight queues of cycles, and a machine served last.
ghost use Rattle.std.specs.Prelude.{◌≡◌, ◌+◌, ◌/◌, ◌*◌, ◌<◌, ◌≤◌, length};
ghost use Rattle.netlist.specs.Lanes.{each};
ghost use Rattle.bench_turns.specs.Parts.{part_of, cycles_in, are_cycles};
ghost use Rattle.bench_turns.specs.Numbers.{waiting_of, is_place, is_bench};

use crate::numbers::{LAST, waiting};
use crate::queues::SLOT;
use netlist::{Header, is_netlist};
use trace::is_cycle;

// The most cycles that wait for a machine.
pub(crate) const MAX_WAITING: usize = 16;

// Where the part of machine k begins and ends in a buffer of this length, of which each machine has an eighth.
pub(crate) fn bounds(length: usize, k: usize) -> (usize, usize)
    requires { k < 8 }
    ensures { (result.0 ≡ k * (length / 8)) × (result.1 ≡ k * (length / 8) + length / 8) }
{
    let width = length / 8;
    let at = k * width;
    (at, at + width)
}

// The part of machine k: its netlist or its queue.
pub(crate) fn part_of<T>(parts: &[T], k: usize) -> &[T]
    requires { k < 8 }
    ensures { result.now ≡ part_of k parts.now }
{
    let (at, end) = bounds(parts.len(), k);
    &parts[at..end]
}

// Whether the first n slots of a queue hold cycles of so many inputs.
fn are_cycles(inputs: usize, n: usize, queue: &[u8]) -> bool
    requires { (inputs ≤ 64) × (64 * n ≤ length queue.now) }
    ensures { result ≡ are_cycles inputs (cycles_in inputs n queue.now) }
{
    for j in 0..n {
        let at = SLOT * j;
        let end = at + inputs;
        if !is_cycle(inputs, &queue[at..end]) {
            return false;
        }
    }
    true
}

// Whether this is a place: a netlist, and so many waiting cycles of it.
fn is_place(net: &[u16], count: u32, queue: &[u8]) -> bool
    ensures { result ≡ is_place net.now count queue.now }
{
    let n = count as usize;
    if !is_netlist(net) {
        return false;
    }
    if n > MAX_WAITING {
        return false;
    }
    if queue.len() < SLOT * n {
        return false;
    }
    are_cycles(Header::of(net).inputs as usize, n, queue)
}

// Whether all eight are places.
fn are_places(nets: &[u16], queues: &[u8], bench: &[u32]) -> bool
    requires { 33 ≤ length bench.now }
    ensures { result ≡ each 8 (λ k. is_place (part_of k nets.now) (waiting_of k bench.now) (part_of k queues.now)) }
{
    for k in 0..8 {
        if !is_place(part_of(nets, k), waiting(bench, k), part_of(queues, k)) {
            return false;
        }
    }
    true
}

// Whether the lent numbers and bytes are a bench.
pub(crate) fn is_bench(nets: &[u16], queues: &[u8], bench: &[u32]) -> bool
    ensures { result ≡ is_bench nets.now queues.now bench.now }
{
    if bench.len() <= LAST {
        return false;
    }
    if bench[LAST] > 7 {
        return false;
    }
    are_places(nets, queues, bench)
}
