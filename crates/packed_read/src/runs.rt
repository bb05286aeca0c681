// The byte runs of a packed file. The end of the text is tested: past it there is no byte, not even a 0.
ghost use Rattle.std.specs.Prelude.{◌≡◌, ◌<◌, ◌≤◌};
ghost use Rattle.packed_read.specs.Runs.{last, more, bytes_at, run_at};
ghost use Rattle.packed_read.specs.Private.Steps.{run_in, top, Below};

use text::byte_at;

// The byte from which on more follow.
const MORE: u8 = 128;

// How many bytes may follow the first one.
const FOLLOWING: usize = 2;

// A last byte and the place after it: 0 only where it is the only one.
fn last_byte(first: bool, b: u8, next: usize) -> Option<(usize, usize)>
    ensures result_value { run_in result ≡ last first b next }
    ensures below { b < 128 → Below 128 result }
{
    if first {
        return Some((b as usize, next));
    }
    if b == 0 {
        return None;
    }
    Some((b as usize, next))
}

// A byte with the top bit set, before the rest of its run.
fn with_more(b: u8, rest: Option<(usize, usize)>) -> Option<(usize, usize)>
    requires { (128 ≤ b) × Below 16384 rest }
    ensures { run_in result ≡ more b (run_in rest) }
{
    let (value, next) = rest?;
    Some(((b - MORE) as usize + 128 * value, next))
}

// A run of at most `left` bytes after this one; `first` tells that none came before.
fn bytes_at(s: &[u8], at: usize, left: usize, first: bool) -> Option<(usize, usize)>
    requires { left ≤ 2 }
    ensures { (run_in result ≡ bytes_at left first s.now at) × Below (top left) result }
{
    if at >= s.len() {
        return None;
    }
    let b = byte_at(s, at);
    if b < MORE {
        return last_byte(first, b, at + 1);
    }
    if left == 0 {
        return None;
    }
    let rest = bytes_at(s, at + 1, left - 1, false);
    with_more(b, rest)
}

// The run at a place.
pub(crate) fn run_at(s: &[u8], at: usize) -> Option<(usize, usize)>
    ensures { (run_in result ≡ run_at s.now at) × Below 2097152 result }
{
    bytes_at(s, at, FOLLOWING, true)
}
