// The stroke buffer's graph: for each number of strokes its text, and which cycles it rejects, by the count of strokes that
// the buffer holds. Definitions and laws, no code. Knows nothing of lent buffers of text. Exports that the text is accepted
// as a graph, that this graph rejects just those cycles on any trace, and what build makes of it.
#![tactic(auto)]
