// The order of gates that come in none, as definitions and laws, no code: which netlist a file with such gates gives, and
// where its gates wait on each other. Knows nothing of texts or of buffers. Exports that there is one such netlist exactly
// where no gates wait on each other, and that its outputs and next states are those of AIGER's meaning of the file itself.
#![tactic(auto)]
