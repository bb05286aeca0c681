// The text of a session page, as definitions and laws, no code: fields of a width, the page of a graph name and verdict
// bytes, and what stands in its columns. Knows nothing of buffers and refusals. Exports that every width comes from one
// statement over width and digits, and that equal pages come only from equal graph names and verdict bytes.
#![tactic(auto)]
