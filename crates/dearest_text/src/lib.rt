// The dearest graph: of all graphs with E edges and no operators none costs more gates. Definitions and laws, no code.
// Knows nothing of lent buffers of text. Exports the bound of 10E − 2 gates, the graph's text, that the text is accepted
// as that graph, and that build makes 10E − 2 gates of it.
#![tactic(auto)]
