// Assertion graphs, what a rejecting path is and on which paths a rule is at stake: definitions and laws, and of
// code only the name of a graph's mode. Knows nothing of graph text, netlists, tokens or a tally. Exports that the
// computed tests for a terminal edge, for a rejected cycle and for a cycle in which a rule was at stake find what
// they should exactly where it is; that a rule is at stake exactly where the graph would reject with every
// consequent false; and that `==` holds exactly where two names are alike in each bit.
#![tactic(auto)]

// What a graph says of its terminal edges: nothing; that they are those with the mark; that each edge is one.
#[derive(Clone, Copy)]
pub enum Mode {
    Unsaid,
    Terminal,
    Strong,
}
