// The netlist of loose numbers by the new variables, into a lent buffer.
ghost use Rattle.std.specs.Prelude.{◌≡◌, true, ◌++◌, ◌+◌, ◌<◌, ◌≤◌, length, get_or, take};
ghost use Rattle.std.proofs.lemmas.List.Edits.{sets};
ghost use Rattle.text.specs.Writer.{joined};
ghost use Rattle.netlist.specs.Layout.{latch_count, output_count, gate_count, output_at};
ghost use Rattle.netlist.specs.Literals.{variable_of};
ghost use Rattle.gate_order.specs.Loose.{is_loose};
ghost use Rattle.gate_order.specs.Placing.{ordered};
ghost use Rattle.gate_order.specs.Renumbered.{larger_first};
ghost use Rattle.aiger_order.specs.Place.{place_end, place_as};
ghost use Rattle.aiger_order.specs.Private.Steps.{GatesOf, Ordered, Numbered, literal_in, header_in, latch_in, output_in, gate_in, gate_at};

use crate::limits::gates_of;
use crate::{Gates, Unplaced};
use aiger_lines::{store, store_pair};
use netlist::{HEADER, Header, Literal, Variable};

// The new literal of an old one.
fn new_literal(news: &[u16], lit: Literal) -> Literal
    requires { (variable_of lit.0 < length news.now) × (get_or news.now (variable_of lit.0) 0 < 32768) }
    ensures { result.0 ≡ literal_in news.now lit.0 }
{
    let old = lit.variable();
    let new = Variable(news[old.0 as usize]);
    new.literal(lit.is_inverted())
}

// The header as it is.
fn store_header(loose: &[u16], net: &mut [u16])
    requires { 5 ≤ length loose.now }
    ensures { net.new ≡ sets net.old 0 (header_in loose.now) }
{
    store_pair(net, 0, loose[0], loose[1]);
    store_pair(net, 2, loose[2], loose[3]);
    store(net, 4, loose[4]);
}

// The latches: next by the new variables, reset as it is.
fn store_latches(loose: &[u16], news: &[u16], net: &mut [u16])
    requires { (is_loose loose.now ≡ true) × Numbered loose.now news.now }
    ensures { net.new ≡ sets net.old 5 (joined (latch_in loose.now news.now) (latch_count loose.now)) }
{
    let count = Header::of(loose).latches;
    for k in 0..count {
        let at = HEADER + 2 * (k as usize);
        let next = new_literal(news, Literal(loose[at]));
        store_pair(net, at, next.0, loose[at + 1]);
    }
}

// The outputs.
fn store_outputs(loose: &[u16], news: &[u16], net: &mut [u16])
    requires { (is_loose loose.now ≡ true) × Numbered loose.now news.now }
    ensures { net.new ≡ sets net.old (output_at loose.now 0) (joined (output_in loose.now news.now) (output_count loose.now)) }
{
    let header = Header::of(loose);
    let at = header.output_at();
    let count = header.outputs;
    for k in 0..count {
        let place = at + k as usize;
        let lit = new_literal(news, Literal(loose[place]));
        store(net, place, lit.0);
    }
}

// Two operands, the larger first.
fn store_operands(net: &mut [u16], at: usize, a: Literal, b: Literal)
    ensures { net.new ≡ sets net.old at (larger_first a.0 b.0) }
{
    if a.0 < b.0 {
        store_pair(net, at, b.0, a.0);
    } else {
        store_pair(net, at, a.0, b.0);
    }
}

// The operands of the gate whose old variable is `old`.
fn store_gate(loose: &[u16], news: &[u16], gates: Gates, old: Variable, net: &mut [u16], at: usize)
    requires loose_value { (is_loose loose.now ≡ true) × GatesOf loose.now gates × Numbered loose.now news.now }
    requires first_le { (gates.first.0 ≤ old.0) × (old.0 < gates.first.0 + gates.count) }
    ensures { net.new ≡ sets net.old at (gate_in loose.now news.now old.0) }
{
    let from = gates.at + 2 * ((old.0 - gates.first.0) as usize);
    let a = new_literal(news, Literal(loose[from]));
    let b = new_literal(news, Literal(loose[from + 1]));
    store_operands(net, at, a, b);
}

// The gates, each at its place.
fn store_gates(loose: &[u16], news: &[u16], order: &[u16], gates: Gates, net: &mut [u16])
    requires { (is_loose loose.now ≡ true) × GatesOf loose.now gates × Ordered loose.now news.now order.now }
    ensures { net.new ≡ sets net.old gates.at (joined (gate_at loose.now news.now order.now) (gate_count loose.now)) }
{
    for m in 0..gates.count {
        let old = Variable(order[m as usize]);
        store_gate(loose, news, gates, old, net, gates.at + 2 * (m as usize));
    }
}

// Header and latches.
fn store_front(loose: &[u16], news: &[u16], net: &mut [u16])
    requires { (is_loose loose.now ≡ true) × Numbered loose.now news.now }
    ensures { net.new ≡ sets net.old 0 (header_in loose.now ++ joined (latch_in loose.now news.now) (latch_count loose.now)) }
{
    store_header(loose, net);
    store_latches(loose, news, net);
}

// The netlist, where the buffer has room for it.
pub(crate) fn store_netlist(
    loose: &[u16],
    news: &[u16],
    order: &[u16],
    net: &mut [u16],
) -> Result<usize, Unplaced>
    requires { (is_loose loose.now ≡ true) × Ordered loose.now news.now order.now }
    ensures { place_end result net.new ≡ place_as (ordered (take (gate_count loose.now) order.now)) loose.now net.old }
{
    let gates = gates_of(loose);
    let size = gates.at + 2 * (gates.count as usize);
    if net.len() < size {
        return Err(Unplaced::ShortBuffer);
    }
    store_front(loose, news, net);
    store_outputs(loose, news, net);
    store_gates(loose, news, order, gates, net);
    Ok(size)
}
