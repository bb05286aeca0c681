// The caller's tally: how many cycles there were, how many of them were rejected, and in how many a rule was at stake.
ghost use Rattle.std.specs.Prelude.{◌≡◌, ◌+◌, leb};
ghost use Rattle.calls.specs.Tallies.{is_rejected, is_checked, has_room};

#[derive(Clone, Copy)]
pub struct Tally {
    pub cycles: u32,
    pub rejected: u32,
    // Cycles with the second output, checked, high in some lane.
    pub checked: u32,
}

// The most that a number of the tally holds.
const MAX_COUNT: usize = 4294967295;

// A word with a 1 in every lane.
pub const ALL_LANES: u64 = 18446744073709551615;

// Whether a cycle with this first output word is rejected: some lane is 0.
pub fn is_rejected(word: u64) -> bool
    ensures { result ≡ is_rejected word }
{
    word != ALL_LANES
}

// Whether a cycle with this second output word counts as checked: some lane is 1.
pub fn is_checked(word: u64) -> bool
    ensures { result ≡ is_checked word }
{
    word != 0
}

// Whether a number of the tally can grow by some cycles and stay within its 32 bits.
fn fits(count: u32, cycles: usize) -> bool
    ensures { result ≡ leb (count + cycles) 4294967295 }
{
    cycles <= MAX_COUNT - count as usize
}

// Whether no number of the tally passes its 32 bits with some new cycles.
pub fn has_room(tally: Tally, cycles: usize) -> bool
    ensures { result ≡ has_room tally cycles }
{
    fits(tally.cycles, cycles) && fits(tally.rejected, cycles) && fits(tally.checked, cycles)
}
