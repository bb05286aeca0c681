// The caller's tally, brought up to date.
ghost use Rattle.std.specs.Prelude.{◌≡◌, true};
ghost use Rattle.calls.specs.Tallies.{counted, has_room};

use calls::{Tally, is_checked, is_rejected};

// The tally after a cycle with these output words.
pub(crate) fn tallied(tally: Tally, word: u64, second: u64) -> Tally
    requires { has_room tally 1 ≡ true }
    ensures { result ≡ counted tally word second }
{
    let rejected = u32::from(is_rejected(word));
    let checked = u32::from(is_checked(second));
    Tally {
        cycles: tally.cycles + 1,
        rejected: tally.rejected + rejected,
        checked: tally.checked + checked,
    }
}
