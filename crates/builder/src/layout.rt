// The numbers of the netlist in their order: header, latches, outputs, gates.
ghost use Rattle.std.specs.Prelude.{◌≡◌, ◌++◌, ◌+◌, ◌*◌, ◌≤◌, length, drop, is_some};
ghost use Rattle.std.proofs.lemmas.List.Edits.{sets};
ghost use Rattle.builder.specs.Private.Edges.{edges_in, GraphGood};
ghost use Rattle.builder.specs.Private.Monitor.{told, outputs_asked, header_of, front_of, monitor_gates, GatesStored, gates_in, numbers_in};

use crate::Outputs;
use crate::gates::{Gates, SIGNAL, after, distance};
use crate::latches::{put_constants, put_latches};
use graph::CheckedGraph;
use netlist::{HEADER, Variable};

// How many gates were stored, and the outputs.
#[derive(Clone, Copy)]
struct Stored {
    count: usize,
    made: Outputs,
}

// How many outputs there are: accept, and checked where it is asked for.
pub(crate) fn output_count(checked: bool) -> usize
    ensures { (result ≡ outputs_asked checked) × (result ≤ 2) }
{
    if checked { 2 } else { 1 }
}

// M I L O A of so many inputs, latches, outputs and gates.
fn put_header(net: &mut [u16], inputs: usize, latches: usize, outputs: usize, gates: usize)
    requires { (5 ≤ length net.old) × (inputs + latches + gates ≤ 4095) × (outputs ≤ 2) }
    ensures { net.new ≡ sets net.old 0 (header_of inputs latches outputs gates) }
{
    net[0] = (inputs + latches + gates) as u16;
    net[1] = inputs as u16;
    net[2] = latches as u16;
    net[3] = outputs as u16;
    net[4] = gates as u16;
}

// What stands in front of the gates; happy and condemned are the edges' literals.
fn put_front(
    net: &mut [u16],
    signals: usize,
    constants: usize,
    gates: usize,
    happy: &[u16],
    condemned: &[u16],
    made: Outputs,
)
    requires { (5 + outputs_asked (is_some made.second) + 2 * constants + 4 * length happy.now ≤ length net.old) × ((1 + signals) + (constants + 2 * length happy.now) + gates ≤ 4095)
        × (length condemned.now ≡ length happy.now) }
    ensures { net.new ≡ sets net.old 0 (front_of signals constants (length happy.now) gates happy.now condemned.now made.accept.0 (told made.second)) }
{
    put_header(
        net,
        1 + signals,
        constants + 2 * happy.len(),
        output_count(made.second.is_some()),
        gates,
    );
    let p = put_constants(net, HEADER, after(SIGNAL, signals), constants);
    let q = put_latches(net, p, happy, condemned);
    net[q] = made.accept.0;
    if let Some(second) = made.second {
        net[q + 1] = second.0;
    }
}

// All gates of the monitor, stored into a buffer from its front on; `first` is the variable of the first gate, and `latch`
// that of the first edge's happy latch. Tried within `put_numbers`: of a part cut right there no proof of its contents closed.
fn store_gates(
    out: &mut [u16],
    first: Variable,
    latch: Variable,
    text: &[u8],
    g: CheckedGraph,
    happy: &mut [u16],
    condemned: &mut [u16],
    checked: bool,
) -> Stored
    requires { (GraphGood text.now g) × (length happy.old ≡ g.edges) × (length condemned.old ≡ g.edges) × (latch.0 + 2 * g.edges ≤ 4096)
        × (first.0 + length (monitor_gates checked g.signals g.vertices (edges_in text.now g) latch.0 first.0) ≤ 4096) }
    ensures { GatesStored checked out.old out.new result happy.new condemned.new g.signals g.vertices (edges_in text.now g) latch.0 first.0 }
{
    let mut gates = Gates {
        out,
        first,
        next: first,
    };
    let made = gates.put_gates(latch, text, g, happy, condemned, checked);
    let count = distance(first, gates.next);
    Stored { count, made }
}

// All numbers of the monitor, first in the buffer; how many gates were made.
pub(crate) fn put_numbers(net: &mut [u16], text: &[u8], g: CheckedGraph, checked: bool) -> usize
    requires { (GraphGood text.now g) × (length (numbers_in checked text.now g) ≤ length net.old)
        × ((1 + g.signals) + (g.constants + 2 * g.edges) + length (gates_in checked text.now g) ≤ 4095) }
    ensures { (net.new ≡ numbers_in checked text.now g ++ drop (length (numbers_in checked text.now g)) net.old)
        × (result ≡ length (gates_in checked text.now g)) }
{
    let constant = after(SIGNAL, g.signals);
    let latch = after(constant, g.constants);
    let first = after(latch, 2 * g.edges);
    let base = HEADER + output_count(checked) + 2 * g.constants + 4 * g.edges;
    let mut happy_room = [0u16; 128];
    let mut condemned_room = [0u16; 128];
    let happy = &mut happy_room[..g.edges];
    let condemned = &mut condemned_room[..g.edges];
    let stored = store_gates(
        &mut net[base..],
        first,
        latch,
        text,
        g,
        happy,
        condemned,
        checked,
    );
    let gates = stored.count;
    put_front(
        net,
        g.signals,
        g.constants,
        gates,
        happy,
        condemned,
        stored.made,
    );
    gates
}
