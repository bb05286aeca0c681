// The measurement that broke first: of a session's flywheel trace and handle trace, with the verdict bytes of each, the
// line of the earliest rejected cycle, without its LF, as a part of the caller's own trace. Knows nothing of netlists
// and graphs, nor of where the verdict bytes come from. Exports what each refusal means, the clause `checks` of `check`,
// and which line it is, the clause `first` of `find` and of `first_broken`.
#![tactic(auto)]

ghost use Rattle.std.specs.Prelude.{◌≡◌};
ghost use Rattle.first_broken.specs.Places.{part, found_of, broken_part};
ghost use Rattle.first_broken.specs.Claims.{BrokenFirst, StandsIn};

mod places;
mod refusal;

pub use places::{Found, Side, find};
pub use refusal::{Cause, check};

// The line that was rejected first, of the flywheel trace or the handle trace; the empty beginning of the flywheel trace
// where nothing was rejected or the check refuses.
pub fn first_broken<'a>(
    width: usize,
    flywheel: &'a [u8],
    handle: &'a [u8],
    flywheel_verdicts: &[u8],
    handle_verdicts: &[u8],
) -> &'a [u8]
    ensures result_value { part result.ref_ptr result.now
        ≡ broken_part (found_of width
        (record { trace = flywheel.now; verdicts = flywheel_verdicts.now })
        (record { trace = handle.now; verdicts = handle_verdicts.now }))
        (part flywheel.entry.ref_ptr flywheel.now) (part handle.entry.ref_ptr handle.now) }
    ensures first { BrokenFirst width
        (record { trace = flywheel.now; verdicts = flywheel_verdicts.now })
        (record { trace = handle.now; verdicts = handle_verdicts.now })
        (StandsIn result.ref_ptr result.now flywheel.entry.ref_ptr) (StandsIn result.ref_ptr result.now handle.entry.ref_ptr) }
{
    let found = find(width, flywheel, handle, flywheel_verdicts, handle_verdicts);
    let at = found.at;
    let end = at + found.length;
    match found.side {
        Side::Flywheel => &flywheel[at..end],
        Side::Handle => &handle[at..end],
    }
}
