// Which numbers are a netlist, test by test, in one pass over latches and gates. A private test takes
// its places, variables and bounds ready made, and its `requires` says what they are in the netlist.
ghost use Rattle.std.specs.Prelude.{◌≡◌, true, false, cond, ◌&&◌, ◌+◌, ◌*◌, ◌<◌, ◌≤◌, length, get_or, leb, ltb};
ghost use Rattle.netlist.specs.Layout.{maximum, input_count, latch_count, output_count, latch_variable};
ghost use Rattle.netlist.specs.Literals.{literal_of};
ghost use Rattle.netlist.specs.Lanes.{each};
ghost use Rattle.netlist.specs.Valid.{is_free, latch_ok, free_count, output_ok, gate_ok, is_outline, is_netlist};

use crate::header::{HEADER, Header};
use crate::literals::{Literal, Variable};

// The most uninitialised latches: each of their settings has one of the 64 lanes.
const MAX_FREE: u16 = 6;

// The outputs stand from `at` on; `last` is the netlist's largest literal.
fn outputs_ok(net: &[u16], at: usize, count: u16, last: Literal) -> bool
    requires at_value { (at ≡ 5 + 2 * latch_count net.now) × (last.0 ≡ literal_of (maximum net.now) true) }
    requires count_in_bounds { at + count ≤ length net.now }
    ensures { result ≡ each count (output_ok net.now) }
{
    for k in 0..count {
        if net[at + k as usize] > last.0 {
            return false;
        }
    }
    true
}

// Latch k, whose variable is `own`.
fn latch_ok(net: &[u16], k: u16, own: Variable, last: Literal) -> bool
    requires own_value { (own.0 ≡ latch_variable net.now k) × (last.0 ≡ literal_of (maximum net.now) true) }
    requires k_in_bounds { (5 + 2 * k + 1 < length net.now) × (own.0 < 32768) }
    ensures { result ≡ latch_ok net.now k }
{
    let at = HEADER + 2 * (k as usize);
    let reset = net[at + 1];
    if net[at] > last.0 {
        return false;
    }
    if reset <= 1 {
        return true;
    }
    let lit = own.literal(false);
    reset == lit.0
}

// 1 where latch k is uninitialised, else 0.
fn free(net: &[u16], k: u16) -> u16
    requires { 5 + 2 * k + 1 < length net.now }
    ensures { result ≡ cond (is_free net.now k) 1 0 }
{
    let at = HEADER + 2 * (k as usize) + 1;
    u16::from(net[at] > 1)
}

// The latches' variables are `first` and those that follow it.
fn latches_ok(net: &[u16], first: u16, count: u16, last: Literal) -> bool
    requires first_value { (first ≡ input_count net.now + 1) × (last.0 ≡ literal_of (maximum net.now) true) }
    requires count_in_bounds { (5 + 2 * count ≤ length net.now) × (first + count ≤ 32768) }
    ensures { result ≡ (each count (latch_ok net.now) && leb (free_count net.now count) 6) }
{
    let mut uninitialised: u16 = 0;
    for k in 0..count {
        if !latch_ok(net, k, Variable(first + k), last) {
            return false;
        }
        uninitialised += free(net, k);
    }
    uninitialised <= MAX_FREE
}

// The gate whose variable is `own` and whose operands stand at `at`: g > r0 >= r1.
fn gate_ok(net: &[u16], at: usize, own: Variable) -> bool
    requires { (at + 1 < length net.now) × (own.0 < 32768) }
    ensures { result ≡ (ltb (get_or net.now at 0) (literal_of own.0 false)
        && leb (get_or net.now (at + 1) 0) (get_or net.now at 0)) }
{
    let r0 = net[at];
    let r1 = net[at + 1];
    let g = own.literal(false);
    if r0 >= g.0 {
        return false;
    }
    r1 <= r0
}

// The gates' operands stand from `at` on, and their variables are `first` and those that follow it.
fn gates_ok(net: &[u16], at: usize, first: u16, count: u16) -> bool
    requires at_value { (at ≡ 5 + 2 * latch_count net.now + output_count net.now)
        × (first ≡ input_count net.now + latch_count net.now + 1) }
    requires count_in_bounds { (at + 2 * count ≤ length net.now) × (first + count ≤ 32768) }
    ensures { result ≡ each count (gate_ok net.now) }
{
    for k in 0..count {
        if !gate_ok(net, at + 2 * (k as usize), Variable(first + k)) {
            return false;
        }
    }
    true
}

// Whether the numbers lent are a netlist but for their gates, which may be anything.
pub(crate) fn outline(net: &[u16]) -> bool
    ensures { result ≡ is_outline net.now }
{
    let header = Header::of(net);
    if net.len() < HEADER {
        return false;
    }
    if !header.is_within_limits() {
        return false;
    }
    if net.len() < header.size() {
        return false;
    }
    let last = Variable(header.maximum).literal(true);
    if !outputs_ok(net, header.output_at(), header.outputs, last) {
        return false;
    }
    latches_ok(net, header.inputs + 1, header.latches, last)
}

// Whether the numbers lent are a netlist.
pub(crate) fn netlist(net: &[u16]) -> bool
    ensures { result ≡ is_netlist net.now }
{
    if !outline(net) {
        return false;
    }
    let header = Header::of(net);
    let first = header.inputs + header.latches + 1;
    gates_ok(net, header.operands_at(), first, header.gates)
}
