// The words with which the latches start.
ghost use Rattle.std.specs.Prelude.{◌≡◌, cond, not, ◌++◌, ◌+◌, ◌*◌, ◌≤◌, leb, eqb, length, drop};
ghost use Rattle.netlist.specs.Lanes.{lane, word_of};
ghost use Rattle.simulator.specs.Start.{start_words};

use calls::ALL_LANES;
use netlist::HEADER;

// The first word of the j-th uninitialised latch, j from 0: the inverse of (2^64 - 1) / (2^(2^j) + 1).
// Past the sixth no lane has the bit.
fn pattern(j: usize) -> u64
    ensures { result ≡ word_of (λ n. lane j n) }
{
    if j >= 6 {
        return 0;
    }
    // bit j is the same in so many lanes in a row
    let row: u64 = 1 << j;
    let divisor: u64 = (1 << row) + 1;
    (ALL_LANES / divisor) ^ ALL_LANES
}

// The first word of a latch with this reset, where j uninitialised latches stand before it.
fn start_word(reset: u16, j: usize) -> u64
    ensures { result ≡ word_of (λ n. cond (not (leb reset 1)) (lane j n) (eqb reset 1)) }
{
    if reset == 0 {
        return 0;
    }
    if reset == 1 {
        return ALL_LANES;
    }
    pattern(j)
}

// The first words of count latches.
pub(crate) fn starts(net: &[u16], count: usize, latches: &mut [u64])
    requires count_in_bounds { 5 + 2 * count ≤ length net.now }
    requires count_in_bounds_2 { count ≤ length latches.old }
    ensures { latches.new ≡ start_words net.now count ++ drop count latches.old }
{
    let mut j: usize = 0;
    for k in 0..count {
        let reset = net[HEADER + 2 * k + 1];
        latches[k] = start_word(reset, j);
        if reset > 1 {
            j += 1;
        }
    }
}
