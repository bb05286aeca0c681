// Cycles and traces, by the number of inputs alone: which bytes are a cycle, the first wrong line of a
// trace, and the trace reader, which hands out one cycle after another. Exports that a trace without a
// wrong line is its cycles, each ended by LF, and that the line told is otherwise the first wrong one.
#![tactic(auto)]

mod cycles;
mod reader;

pub use cycles::{fault, is_cycle};
pub use reader::TraceReader;
