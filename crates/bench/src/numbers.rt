// The bench's 33 numbers.
ghost use Rattle.std.specs.Prelude.{◌≡◌, Some, None, cond, ◌*◌, ◌<◌, ◌≤◌, length};
ghost use Rattle.bench_turns.specs.Numbers.{waiting_of, tally_of, last_of, with_waiting, with_tally, with_last};
ghost use Rattle.bench_turns.specs.Refusals.{next_machine, is_idle};

use calls::Tally;

// Where the machine served last stands, behind four numbers for each of the eight.
pub(crate) const LAST: usize = 32;

// How many cycles wait for machine k.
pub(crate) fn waiting(bench: &[u32], k: usize) -> u32
    requires { (k < 8) × (33 ≤ length bench.now) }
    ensures { result ≡ waiting_of k bench.now }
{
    bench[4 * k]
}

// Its tally.
pub(crate) fn tally(bench: &[u32], k: usize) -> Tally
    requires { (k < 8) × (33 ≤ length bench.now) }
    ensures { result ≡ tally_of k bench.now }
{
    let at = 4 * k;
    Tally {
        cycles: bench[at + 1],
        rejected: bench[at + 2],
        checked: bench[at + 3],
    }
}

// The numbers after machine k was served: one fewer waits for it.
pub(crate) fn served(bench: &mut [u32], k: usize, left: u32, tally: Tally)
    requires { (k < 8) × (33 ≤ length bench.old) }
    ensures { bench.new ≡ with_last k (with_tally k tally (with_waiting k left bench.old)) }
{
    let at = 4 * k;
    bench[at] = left;
    bench[at + 1] = tally.cycles;
    bench[at + 2] = tally.rejected;
    bench[at + 3] = tally.checked;
    bench[LAST] = k as u32;
}

// The next machine, in round order after the last one served, for which a cycle waits.
pub(crate) fn next_machine(bench: &[u32]) -> Option<usize>
    requires { (33 ≤ length bench.now) × (last_of bench.now ≤ 7) }
    ensures { result ≡ cond (is_idle bench.now) None (Some (next_machine bench.now)) }
{
    let first = bench[LAST] as usize + 1;
    for from in first..first + 8 {
        let k = from % 8;
        if bench[4 * k] > 0 {
            return Some(k);
        }
    }
    None
}
