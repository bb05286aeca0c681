// Next and reset of the latches.
ghost use Rattle.std.specs.Prelude.{◌≡◌, ◌+◌, ◌*◌, ◌≤◌, length};
ghost use Rattle.std.proofs.lemmas.List.Edits.{sets};
ghost use Rattle.circuit.specs.Numbers.{constant_latches};
ghost use Rattle.builder.specs.Private.Monitor.{edge_pairs};

use crate::gates::{after, literal};
use netlist::Variable;

// The constants' latches: next and reset are their own literals.
pub(crate) fn put_constants(net: &mut [u16], at: usize, l: Variable, count: usize) -> usize
    requires { (at + 2 * count ≤ length net.old) × (l.0 + count ≤ 4096) }
    ensures { (net.new ≡ sets net.old at (constant_latches l.0 count)) × (result ≡ at + 2 * count) }
{
    let mut p = at;
    for i in 0..count {
        let own = literal(after(l, i), false);
        net[p] = own.0;
        net[p + 1] = own.0;
        p += 2;
    }
    p
}

// The edges' latches, reset 0.
pub(crate) fn put_latches(net: &mut [u16], at: usize, happy: &[u16], condemned: &[u16]) -> usize
    requires { (at + 4 * length happy.now ≤ length net.old) × (length condemned.now ≡ length happy.now) }
    ensures { (net.new ≡ sets net.old at (edge_pairs happy.now condemned.now)) × (result ≡ at + 4 * length happy.now) }
{
    let mut p = at;
    for i in 0..happy.len() {
        net[p] = happy[i];
        net[p + 1] = 0;
        net[p + 2] = condemned[i];
        net[p + 3] = 0;
        p += 4;
    }
    p
}
