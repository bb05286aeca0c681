// Cycles and traces, by the number of inputs alone: which bytes are a cycle, the first wrong line of a
// trace, the cycle that stands at a place of it, and the place after that.
ghost use Rattle.std.specs.Prelude.{◌≡◌, ◌+◌, min, length, take, drop};
ghost use Rattle.trace.specs.Traces.{is_bit, is_cycle, fits_line, fault_of};
ghost use Rattle.trace.specs.Claims.{TraceMeans};

fn is_bit(b: u8) -> bool
    ensures { result ≡ is_bit b }
{
    b == b'0' || b == b'1'
}

// Whether there is one byte `0` or `1` for each of n inputs.
pub fn is_cycle(n: usize, cycle: &[u8]) -> bool
    ensures { result ≡ is_cycle n cycle.now }
{
    cycle.len() == n && cycle.iter().all(|&b| is_bit(b))
}

// Whether the byte b may stand at place col of a line of n inputs.
fn fits_line(n: usize, col: usize, b: u8) -> bool
    ensures { result ≡ fits_line n col b }
{
    if col == n { b == b'\n' } else { is_bit(b) }
}

// The first wrong line of a trace for n inputs, from 1, or 0 where there is none.
pub fn fault(trace: &[u8], n: usize) -> usize
    ensures value { result ≡ fault_of n trace.now }
    ensures trace { TraceMeans n trace.now }
{
    let mut line: usize = 1;
    let mut col: usize = 0;
    for &b in trace {
        if !fits_line(n, col, b) {
            return line;
        }
        if col == n {
            line += 1;
            col = 0;
        } else {
            col += 1;
        }
    }
    if col == 0 { 0 } else { line }
}

// The n bytes of a trace from at on, or as many as there are.
pub(crate) fn cycle_at(trace: &[u8], at: usize, n: usize) -> &[u8]
    ensures { result.now ≡ take n (drop at trace.now) }
{
    if at >= trace.len() {
        return &trace[..0];
    }
    if n >= trace.len() - at {
        return &trace[at..];
    }
    let end = at + n;
    &trace[at..end]
}

// The place after a cycle of n inputs at a place and its LF, or the end of the trace.
pub(crate) fn place_after(trace: &[u8], at: usize, n: usize) -> usize
    ensures { result ≡ min (at + n + 1) (length trace.now) }
{
    if at >= trace.len() {
        return trace.len();
    }
    if n >= trace.len() - at {
        return trace.len();
    }
    at + n + 1
}
