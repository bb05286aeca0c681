// Which trace was rejected first, and where the line of that cycle stands in it.
ghost use Rattle.std.specs.Prelude.{◌≡◌, ◌≤◌, length};
ghost use Rattle.first_broken.specs.Places.{is_rejected, broken_of, beginning, cycle_line, line_of, found_of};
ghost use Rattle.first_broken.specs.Claims.{BrokenFirst, FoundIn};

use crate::refusal::check;
use text::byte_at;

// Where a session is measured.
#[derive(Clone, Copy)]
pub enum Side {
    Flywheel,
    Handle,
}

// A part of the trace that was measured at this side.
#[derive(Clone, Copy)]
pub struct Found {
    pub side: Side,
    pub at: usize,
    pub length: usize,
}

// Whether the byte of cycle n is 1; there is no cycle past the end.
fn is_rejected(verdicts: &[u8], n: usize) -> bool
    ensures { result ≡ is_rejected verdicts.now n }
{
    byte_at(verdicts, n) == 1
}

// The earliest rejected cycle of two lists of verdict bytes, from 0, and whose it is; at a tie, the flywheel's.
fn earliest(flywheel: &[u8], handle: &[u8]) -> Option<(Side, usize)>
    ensures { result ≡ broken_of flywheel.now handle.now }
{
    for n in 0..flywheel.len().max(handle.len()) {
        if is_rejected(flywheel, n) {
            return Some((Side::Flywheel, n));
        }
        if is_rejected(handle, n) {
            return Some((Side::Handle, n));
        }
    }
    None
}

// The empty beginning of the flywheel trace.
fn empty_beginning() -> Found
    ensures { result ≡ beginning }
{
    Found {
        side: Side::Flywheel,
        at: 0,
        length: 0,
    }
}

// The line of cycle n, without its LF.
fn cycle_line(side: Side, n: usize, width: usize) -> Found
    requires { (n ≤ 1048576) × (width ≤ 64) }
    ensures { result ≡ cycle_line side n width }
{
    let stride = width + 1;
    Found {
        side,
        at: n * stride,
        length: width,
    }
}

// The line of the earliest rejected cycle.
fn line_of(width: usize, flywheel: &[u8], handle: &[u8]) -> Found
    requires { (width ≤ 64) × (length flywheel.now ≤ 1048576) × (length handle.now ≤ 1048576) }
    ensures { result ≡ line_of width (broken_of flywheel.now handle.now) }
{
    match earliest(flywheel, handle) {
        None => empty_beginning(),
        Some((side, n)) => cycle_line(side, n, width),
    }
}

// Where the line that was rejected first stands; the empty beginning of the flywheel trace where nothing was rejected
// or the check refuses.
pub fn find(
    width: usize,
    flywheel: &[u8],
    handle: &[u8],
    flywheel_verdicts: &[u8],
    handle_verdicts: &[u8],
) -> Found
    ensures value { result ≡ found_of width
        (record { trace = flywheel.now; verdicts = flywheel_verdicts.now })
        (record { trace = handle.now; verdicts = handle_verdicts.now }) }
    ensures first { BrokenFirst width
        (record { trace = flywheel.now; verdicts = flywheel_verdicts.now })
        (record { trace = handle.now; verdicts = handle_verdicts.now })
        (FoundIn result Side.Flywheel) (FoundIn result Side.Handle) }
{
    let checked = check(width, flywheel, handle, flywheel_verdicts, handle_verdicts);
    match checked {
        Ok(()) => line_of(width, flywheel_verdicts, handle_verdicts),
        Err(_) => empty_beginning(),
    }
}
