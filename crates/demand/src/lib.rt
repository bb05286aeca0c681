// Demand 3 as one statement over the simulator's own definitions of start, step and run, and its proof for
// the circuit of every graph that fits: definitions and laws, no code.
#![tactic(auto)]
