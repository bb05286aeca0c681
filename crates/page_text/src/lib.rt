// The text of the programs' input and pages: where the graph ends and the trace begins, and the lines that are
// printed, appended to a writer. Knows nothing of graphs or circuits. Exports writers for
// the line of a refusal and for the page of a run, the length of the input's graph part, which is what stands before the
// first line `T`: the clause `parts` of `graph_length`, and both parts.
#![tactic(auto)]

mod lines;
mod parts;

pub use lines::{put_refusal, put_report, write_refusal, write_report};
pub use parts::{graph_and_trace, graph_length};
