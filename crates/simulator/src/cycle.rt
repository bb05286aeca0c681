// One cycle over the words of a netlist's variables, in all 64 lanes at once.
ghost use Rattle.std.specs.Prelude.{◌≡◌, true, cond, ◌++◌, map, ◌+◌, ◌<◌, ◌≤◌, eqb, length, take, drop};
ghost use Rattle.std.proofs.Math.Seq.{paste};
ghost use Rattle.netlist.specs.Layout.{maximum, input_count, latch_count, output_count, gate_count, operands_at, gate_variable};
ghost use Rattle.netlist.specs.Literals.{variable_of};
ghost use Rattle.netlist.specs.Meaning.{words, lit_of, bit_of, front, gates_of, nexts_of, output_of};
ghost use Rattle.netlist.specs.Valid.{is_netlist};
ghost use Rattle.simulator.specs.Step.{output_word, word_checked, latches_after, values_after};

use calls::ALL_LANES;
use netlist::{HEADER, Header, Literal};

// The word of a literal, where values has the words of the variables.
fn word_of(l: Literal, values: &[u64]) -> u64
    requires { variable_of l.0 < length values.now }
    ensures { result ≡ lit_of words values.now l.0 }
{
    let v = l.variable();
    let i = v.0 as usize;
    let w = values[i];
    if l.is_inverted() { w ^ ALL_LANES } else { w }
}

// The word of an input's byte: the same bit in all lanes.
fn spread(b: u8) -> u64
    ensures { result ≡ bit_of words b }
{
    if b == b'1' { ALL_LANES } else { 0 }
}

// The words of a cycle's inputs, from variable 1 on.
fn inputs(cycle: &[u8], values: &mut [u64])
    requires { 1 + length cycle.now ≤ length values.old }
    ensures { values.new ≡ paste values.old 1 (map (bit_of words) cycle.now) (length cycle.now) }
{
    for v in 0..cycle.len() {
        values[1 + v] = spread(cycle[v]);
    }
}

// The words of count latches into values from first on.
fn latches_in(latches: &[u64], count: usize, first: usize, values: &mut [u64])
    requires count_in_bounds { count ≤ length latches.now }
    requires count_in_bounds_2 { first + count ≤ length values.old }
    ensures { values.new ≡ paste values.old first latches.now count }
{
    values[first..first + count].copy_from_slice(&latches[..count]);
}

// Variable 0, the inputs and count latches into values.
fn load(cycle: &[u8], latches: &[u64], count: usize, values: &mut [u64])
    requires count_in_bounds { count ≤ length latches.now }
    requires count_in_bounds_2 { 1 + length cycle.now + count ≤ length values.old }
    ensures { values.new ≡ front words (map (bit_of words) cycle.now) (take count latches.now) ++ drop (1 + length cycle.now + count) values.old }
{
    values[0] = 0;
    inputs(cycle, values);
    latches_in(latches, count, 1 + cycle.len(), values);
}

// The words of the netlist's gates, whose operands stand from at on, into values from first on.
fn gates(net: &[u16], at: usize, first: usize, count: usize, values: &mut [u64])
    requires net_value { is_netlist net.now ≡ true }
    requires at_value { at ≡ operands_at net.now 0 }
    requires first_value { first ≡ gate_variable net.now 0 }
    requires count_value { count ≡ gate_count net.now }
    requires count_in_bounds { first + count ≤ length values.old }
    ensures { values.new ≡ gates_of words net.now at count (take first values.old) ++ drop (first + count) values.old }
{
    for g in 0..count {
        let i = at + 2 * g;
        let a = word_of(Literal(net[i]), values);
        let b = word_of(Literal(net[i + 1]), values);
        values[first + g] = a & b;
    }
}

// The words of all variables in a cycle.
fn evaluate(net: &[u16], cycle: &[u8], latches: &[u64], values: &mut [u64])
    requires net_value { is_netlist net.now ≡ true }
    requires cycle_len { length cycle.now ≡ input_count net.now }
    requires net_in_bounds { latch_count net.now ≤ length latches.now }
    requires net_in_bounds_2 { maximum net.now + 1 ≤ length values.old }
    ensures { values.new ≡ values_after net.now cycle.now latches.now values.old }
{
    let header = Header::of(net);
    let count = header.latches as usize;
    let first = cycle.len() + count + 1;
    load(cycle, latches, count, values);
    gates(
        net,
        header.operands_at(),
        first,
        header.gates as usize,
        values,
    );
}

// Moves the netlist's latches together: each takes the word of its next literal.
fn latches_move(net: &[u16], count: usize, values: &[u64], latches: &mut [u64])
    requires net_value { is_netlist net.now ≡ true }
    requires count_value { count ≡ latch_count net.now }
    requires count_in_bounds { count ≤ length latches.old }
    requires net_in_bounds { maximum net.now + 1 ≤ length values.now }
    ensures { latches.new ≡ nexts_of words net.now count values.now ++ drop count latches.old }
{
    for j in 0..count {
        let i = HEADER + 2 * j;
        latches[j] = word_of(Literal(net[i]), values);
    }
}

// The output words of a cycle; checked is 0 where there is no second output.
#[derive(Clone, Copy)]
pub(crate) struct Words {
    pub accept: u64,
    pub checked: u64,
}

// The output words of a netlist whose variables have these words.
fn outputs(net: &[u16], values: &[u64]) -> Words
    requires net_value { is_netlist net.now ≡ true }
    requires net_in_bounds { maximum net.now + 1 ≤ length values.now }
    ensures { (result.accept ≡ output_of words net.now 0 values.now) × (result.checked ≡ cond (eqb (output_count net.now) 2) (output_of words net.now 1 values.now) 0) }
{
    let header = Header::of(net);
    let at = header.output_at();
    let accept = word_of(Literal(net[at]), values);
    if header.outputs != 2 {
        return Words { accept, checked: 0 };
    }
    let checked = word_of(Literal(net[at + 1]), values);
    Words { accept, checked }
}

// One cycle of a netlist whose buffers are long enough: the output words.
pub(crate) fn advance(net: &[u16], cycle: &[u8], latches: &mut [u64], values: &mut [u64]) -> Words
    requires net_value { is_netlist net.now ≡ true }
    requires cycle_len { length cycle.now ≡ input_count net.now }
    requires net_in_bounds { latch_count net.now ≤ length latches.old }
    requires net_in_bounds_2 { maximum net.now + 1 ≤ length values.old }
    ensures { (result.accept ≡ output_word net.now cycle.now latches.old) × (result.checked ≡ word_checked net.now cycle.now latches.old) × (latches.new ≡ latches_after net.now cycle.now latches.old) × (values.new ≡ values_after net.now cycle.now latches.old values.old) }
{
    evaluate(net, cycle, latches, values);
    latches_move(net, Header::of(net).latches as usize, values, latches);
    outputs(net, values)
}
