// The cases of the largest inputs: a trace of 1,048,576 bytes, 524,288 lines `1` of which only the last is rejected, and
// that trace with one byte more.
use crate::write_answers;
use std::io;

const LONGER: usize = 1048577;

const LINES: usize = 524288;

const LAST: usize = 524287;

// Stores an LF at every second place.
fn put_ends(trace: &mut [u8; LONGER]) {
    for line in 0..LINES {
        trace[2 * line + 1] = b'\n';
    }
}

// Writes the case of a trace at the flywheel and that of the same trace at the handle, the other trace empty.
fn write_each(rt: &impl Print, width: usize, trace: &[u8], verdicts: &[u8]) -> io::Result<()> {
    let none = &trace[..0];
    print!(rt; "at the flywheel, bytes {}", trace.len())?;
    write_answers(rt, width, trace, none, verdicts, none)?;
    print!(rt; "at the handle, bytes {}", trace.len())?;
    write_answers(rt, width, none, trace, none, verdicts)
}

// Writes the cases of a trace without its last byte at width 1, and those of the whole at width 0, so that of two
// refusals the first shows.
fn write_both(rt: &impl Print, trace: &[u8], verdicts: &[u8]) -> io::Result<()> {
    let n = trace.len();
    if 0 < n {
        write_each(rt, 1, &trace[0..n - 1], verdicts)?;
    }
    write_each(rt, 0, trace, verdicts)
}

// Makes lines of a trace and rejects the last.
fn write_filled(
    rt: &impl Print,
    trace: &mut [u8; LONGER],
    verdicts: &mut [u8; LINES],
) -> io::Result<()> {
    put_ends(trace);
    verdicts[LAST] = 1;
    write_both(rt, trace, verdicts)
}

// Writes all of them.
pub(crate) fn write_largest(rt: &impl Print) -> io::Result<()> {
    let mut trace = [b'1'; LONGER];
    let mut verdicts = [0u8; LINES];
    write_filled(rt, &mut trace, &mut verdicts)
}
