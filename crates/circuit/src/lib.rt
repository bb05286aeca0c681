// The monitor circuit of an assertion graph, with the second output checked or without, as definitions and laws, no
// code: the netlist of a graph and the gate formula. Knows nothing of graph text or of the simulator. Exports that the
// numbers are a netlist, that the gates are as many as the formula says, where each gate of `==` and of checked
// stands, that a lane of the circuit rejects exactly where some path of the graph does under that lane's setting, and
// that its second output is high exactly where a rule is at stake under it.
#![tactic(auto)]
