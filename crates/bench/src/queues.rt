// The queues: slots of 64 bytes, the oldest cycle in the first.
ghost use Rattle.std.specs.Prelude.{◌≡◌, ◌+◌, ◌*◌, ◌<◌, ◌≤◌, length};
ghost use Rattle.bench_turns.specs.Parts.{part_of, with_part, placed, shifted};

use crate::places::bounds;

// How many bytes a slot has: a cycle has at most 64.
pub(crate) const SLOT: usize = 64;

// A new cycle behind the n that wait.
fn place(queue: &mut [u8], n: usize, cycle: &[u8])
    requires { 64 * n + length cycle.now ≤ length queue.old }
    ensures { queue.new ≡ placed n cycle.now queue.old }
{
    let at = SLOT * n;
    queue[at..at + cycle.len()].copy_from_slice(cycle);
}

// The n cycles that wait behind the oldest move one slot forward.
fn shift(queue: &mut [u8], n: usize)
    requires { 64 * n + 64 ≤ length queue.old }
    ensures { queue.new ≡ shifted n queue.old }
{
    let end = SLOT * n;
    queue.copy_within(SLOT..SLOT + end, 0);
}

// A new cycle for machine k, behind the n that wait for it.
pub(crate) fn queue_up(queues: &mut [u8], k: usize, n: usize, cycle: &[u8])
    requires k_bound { k < 8 }
    requires cycle_in_bounds { 64 * n + length cycle.now ≤ length (part_of k queues.old) }
    ensures { queues.new ≡ with_part k (placed n cycle.now (part_of k queues.old)) queues.old }
{
    let (at, end) = bounds(queues.len(), k);
    place(&mut queues[at..end], n, cycle);
}

// The oldest cycle of machine k is gone, and n wait behind it.
pub(crate) fn move_up(queues: &mut [u8], k: usize, n: usize)
    requires k_bound { k < 8 }
    requires n_in_bounds { 64 * n + 64 ≤ length (part_of k queues.old) }
    ensures { queues.new ≡ with_part k (shifted n (part_of k queues.old)) queues.old }
{
    let (at, end) = bounds(queues.len(), k);
    shift(&mut queues[at..end], n);
}
