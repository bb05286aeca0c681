// The trace reader: over the caller's bytes, it hands out one cycle after another.
ghost use Rattle.std.specs.Prelude.{◌≡◌, ◌+◌, min, length, take, drop};

use crate::cycles::{cycle_at, place_after};

// The caller's trace, how many inputs its cycles are for, and the place of the next of them.
#[derive(Drop)]
pub struct TraceReader<'a> {
    pub trace: &'a [u8],
    pub inputs: usize,
    pub at: usize,
}

impl<'a> TraceReader<'a> {
    // The reader that has handed out no cycle.
    pub fn new(trace: &'a [u8], inputs: usize) -> TraceReader<'a>
        ensures { (result.trace ≡ trace.entry) × (result.inputs ≡ inputs) × (result.at ≡ 0) }
    {
        TraceReader {
            trace,
            inputs,
            at: 0,
        }
    }

    // The next cycle: its bytes without the LF. The reader moves on past both; at the end of the trace it stays there.
    pub fn next_cycle(&mut self) -> &'a [u8]
        ensures cycle { result.now ≡ take self.old.inputs (drop self.old.at self.old.trace.now) }
        ensures moved { (self.new.trace ≡ self.old.trace) × (self.new.inputs ≡ self.old.inputs) × (self.new.at ≡ min (self.old.at + self.old.inputs + 1) (length self.old.trace.now)) }
    {
        let trace = self.trace;
        let at = self.at;
        let n = self.inputs;
        self.at = place_after(trace, at, n);
        cycle_at(trace, at, n)
    }
}
