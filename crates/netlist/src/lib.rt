// Netlists of and-inverter circuits, as AIGER has them, in a lent buffer of 16-bit numbers: literals
// and variables, the layout of the numbers, which numbers are a netlist, and what a netlist computes
// in a cycle, in one lane and in 64. Knows nothing of graphs, texts or tallies. Exports that in each
// lane the values of a cycle are the one valuation that satisfies AIGER's equations.
#![tactic(auto)]

ghost use Rattle.std.specs.Prelude.{◌≡◌};
ghost use Rattle.netlist.specs.Valid.{is_outline, is_netlist};
ghost use Rattle.netlist.specs.Aiger.{OutlineMeans, Means};

mod header;
pub mod literals;
mod valid;

pub use header::{HEADER, Header};
pub use literals::{Literal, Variable};

// Whether the numbers lent are a netlist but for their gates, which may be anything.
pub fn is_outline(net: &[u16]) -> bool
    ensures value { result ≡ is_outline net.now }
    ensures meaning { OutlineMeans net.now }
{
    valid::outline(net)
}

// Whether the numbers lent are a netlist.
pub fn is_netlist(net: &[u16]) -> bool
    ensures value { result ≡ is_netlist net.now }
    ensures meaning { Means net.now }
{
    valid::netlist(net)
}
