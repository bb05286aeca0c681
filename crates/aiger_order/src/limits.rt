// Which numbers are loose, and which gates they have.
ghost use Rattle.std.specs.Prelude.{◌≡◌, true, ◌+◌, ◌*◌, ◌≤◌, length};
ghost use Rattle.netlist.specs.Layout.{maximum, operands_at};
ghost use Rattle.netlist.specs.Literals.{literal_of};
ghost use Rattle.netlist.specs.Lanes.{each};
ghost use Rattle.netlist.specs.Valid.{is_outline};
ghost use Rattle.gate_order.specs.Loose.{operands_ok, is_loose};
ghost use Rattle.aiger_order.specs.Private.Steps.{GatesOf};

use crate::Gates;
use netlist::{Header, Literal, Variable};

// Whether the operands, which stand from `at` on, are at most `last`, the largest literal.
fn operands_ok(loose: &[u16], at: usize, count: u16, last: Literal) -> bool
    requires at_value { (at ≡ operands_at loose.now 0) × (last.0 ≡ literal_of (maximum loose.now) true) }
    requires count_in_bounds { at + 2 * count ≤ length loose.now }
    ensures { result ≡ each count (operands_ok loose.now) }
{
    for k in 0..count {
        let place = at + 2 * (k as usize);
        if loose[place] > last.0 {
            return false;
        }
        if loose[place + 1] > last.0 {
            return false;
        }
    }
    true
}

// The gates of numbers that are a netlist's but for these.
pub(crate) fn gates_of(loose: &[u16]) -> Gates
    requires { is_outline loose.now ≡ true }
    ensures { GatesOf loose.now result }
{
    let header = Header::of(loose);
    Gates {
        first: Variable(header.inputs + header.latches + 1),
        count: header.gates,
        at: header.operands_at(),
    }
}

// Whether the numbers lent are a netlist's, whatever the order of its gates and of their operands.
pub(crate) fn is_loose(loose: &[u16]) -> bool
    ensures { result ≡ is_loose loose.now }
{
    if !netlist::is_outline(loose) {
        return false;
    }
    let gates = gates_of(loose);
    let last = Variable(Header::of(loose).maximum).literal(true);
    operands_ok(loose, gates.at, gates.count, last)
}
