// The builder of monitor circuits: graph text to the numbers of a netlist, with the output checked or without. What a
// graph text is stands in graph, and what its monitor is in circuit: here is how its numbers come into a lent buffer.
// Knows of start, step and run only their definitions. Exports that a build answers and leaves just what those
// definitions say, and with it demand 3, from graph text to tally.
#![tactic(auto)]

ghost use Rattle.std.specs.Prelude.{◌≡◌};
ghost use Rattle.assertion.specs.Graph.{Graph};
ghost use Rattle.graph.specs.Reading.{accepted, graph_of};
ghost use Rattle.builder.specs.Build.{refusal_of, build_end, build_as, build_of};
ghost use Rattle.builder.specs.declared.Cause.TheVariants.{GraphText};
ghost use Rattle.builder.specs.Claims.{BuildMeans};
ghost use Rattle.builder.specs.Private.Edges.{Accepted};

use count::gate_count;
use graph::CheckedGraph;
use layout::{output_count, put_numbers};
use netlist::{HEADER, Literal};
use text::Refusal;

mod chains;
mod checked;
mod columns;
mod count;
mod edges;
mod formulas;
mod gates;
mod latches;
mod layout;
mod monitor;
mod names;
mod tokens;
mod vertices;

// A netlist has at most so many variables.
const MOST_VARIABLES: usize = 4095;

// Why a build is refused.
#[derive(Clone, Copy)]
pub enum Cause {
    // The graph text is refused.
    GraphText(graph::Cause),
    // M would pass 4,095.
    TooManyVariables,
    // The buffer is shorter than the netlist.
    ShortBuffer,
}

// The happy and condemned literals of a vertex or of an edge.
#[derive(Clone, Copy)]
struct Both {
    happy: Literal,
    condemned: Literal,
}

// The output literals: accept, and checked where it is asked for.
#[derive(Clone, Copy)]
struct Outputs {
    accept: Literal,
    second: Option<Literal>,
}

impl Cause {
    // The number and line in which a refusal is reported.
    pub fn refusal(self) -> Refusal
        ensures { result ≡ refusal_of self }
    {
        match self {
            Cause::GraphText(cause) => cause.refusal(),
            Cause::TooManyVariables => Refusal {
                number: 11,
                line: 0,
            },
            Cause::ShortBuffer => Refusal {
                number: 12,
                line: 0,
            },
        }
    }
}

impl From<graph::Cause> for Cause {
    ghost from_gives = { λ cause r. r ≡ GraphText cause };

    fn from(cause: graph::Cause) -> Cause {
        Cause::GraphText(cause)
    }
}

// The monitor of an accepted text.
fn build_monitor(
    net: &mut [u16],
    text: &[u8],
    g: CheckedGraph,
    checked: bool,
) -> Result<usize, Cause>
    requires { Accepted text.now g }
    ensures { (graph : Graph) → graph_of text.now ≡ accepted graph → build_end result net.new ≡ build_as checked (accepted graph) net.old }
{
    let gates = gate_count(text, g, checked);
    let latches = g.constants + 2 * g.edges;
    let inputs = 1 + g.signals;
    if MOST_VARIABLES - (inputs + latches) < gates {
        return Err(Cause::TooManyVariables);
    }
    if net.len() < HEADER + output_count(checked) + 2 * latches + 2 * gates {
        return Err(Cause::ShortBuffer);
    }
    Ok(put_numbers(net, text, g, checked))
}

// Builds the monitor of a graph text, with the second output checked or without: its numbers stand first in the buffer.
// Answers how many gates were made.
pub fn build(graph: &[u8], checked: bool, net: &mut [u16]) -> Result<usize, Cause>
    ensures net_after { build_end result net.new ≡ build_of checked graph.now net.old }
    ensures demand { BuildMeans checked graph.now net.old }
{
    let g = graph::read_graph(graph)?;
    build_monitor(net, graph, g, checked)
}
