// The order of the gates. `news` has the new variable of each old one, or UNPLACED.
ghost use Rattle.std.specs.Prelude.{◌≡◌, true, ◌+◌, ◌-◌, ◌<◌, ◌≤◌, length, replicate, IfSome};
ghost use Rattle.netlist.specs.Literals.{variable_of};
ghost use Rattle.gate_order.specs.Loose.{is_loose};
ghost use Rattle.gate_order.specs.Placing.{lowest};
ghost use Rattle.aiger_order.specs.Private.Steps.{GatesOf, placed_in, ready_in, Starts, Passed, or_end, Found};

use crate::limits::gates_of;
use crate::{Gates, UNPLACED};
use netlist::{Literal, Variable};

// Whether a variable is placed.
fn is_placed(news: &[u16], var: Variable) -> bool
    requires { var.0 < length news.now }
    ensures { result ≡ placed_in news.now var.0 }
{
    news[var.0 as usize] != UNPLACED
}

// Whether a literal's variable is.
fn has_place(news: &[u16], lit: Literal) -> bool
    requires { variable_of lit.0 < length news.now }
    ensures { result ≡ placed_in news.now (variable_of lit.0) }
{
    is_placed(news, lit.variable())
}

// Whether the gate of a variable can take the next place: it has none, and its operands have theirs.
fn is_ready(loose: &[u16], news: &[u16], gates: Gates, own: Variable) -> bool
    requires loose_value { (is_loose loose.now ≡ true) × GatesOf loose.now gates × (length news.now ≡ 4096) }
    requires first_le_own { (gates.first.0 ≤ own.0) × (own.0 < gates.first.0 + gates.count) }
    ensures { result ≡ ready_in loose.now news.now own.0 }
{
    if is_placed(news, own) {
        return false;
    }
    let at = gates.at + 2 * ((own.0 - gates.first.0) as usize);
    if !has_place(news, Literal(loose[at])) {
        return false;
    }
    has_place(news, Literal(loose[at + 1]))
}

// The lowest gate from `low` on that can take the next place.
fn choose(loose: &[u16], news: &[u16], gates: Gates, low: Variable) -> Option<Variable>
    requires loose_value { (is_loose loose.now ≡ true) × GatesOf loose.now gates × (length news.now ≡ 4096) }
    requires first_le_low { (gates.first.0 ≤ low.0) × (low.0 ≤ gates.first.0 + gates.count) }
    ensures value { or_end (gates.first.0 + gates.count) result ≡ lowest (ready_in loose.now news.now) low.0 (gates.first.0 + gates.count - low.0) }
    ensures below { IfSome result (λ var. var.0 < gates.first.0 + gates.count) }
{
    let end = gates.first.0 + gates.count;
    for x in low.0..end {
        if is_ready(loose, news, gates, Variable(x)) {
            return Some(Variable(x));
        }
    }
    None
}

// The lowest variable from `low` on that is not placed, or `end` where all below it are.
fn pass_placed(news: &[u16], low: Variable, end: Variable) -> Variable
    requires { (low.0 ≤ end.0) × (end.0 ≤ length news.now) }
    ensures { Passed news.now low.0 end.0 result.0 }
{
    for x in low.0..end.0 {
        if !is_placed(news, Variable(x)) {
            return Variable(x);
        }
    }
    end
}

// The variables below the first gate's are placed from the start, and keep their numbers.
fn place_first(news: &mut [u16], first: Variable)
    requires { (news.old ≡ replicate 4096 65535) × (first.0 ≤ 4096) }
    ensures { Starts first.0 news.new }
{
    for v in 0..first.0 {
        news[v as usize] = v;
    }
}

// Places gate by gate, and tells whether all found a place.
fn place_gates(loose: &[u16], gates: Gates, news: &mut [u16], order: &mut [u16]) -> bool
    requires loose_value { (is_loose loose.now ≡ true) × GatesOf loose.now gates × Starts gates.first.0 news.old }
    requires order_len { length order.old ≡ 4096 }
    ensures { Found loose.now news.new order.new result }
{
    let end = Variable(gates.first.0 + gates.count);
    let mut low = gates.first;
    for n in 0..gates.count {
        low = pass_placed(news, low, end);
        let Some(chosen) = choose(loose, news, gates, low) else {
            return false;
        };
        order[n as usize] = chosen.0;
        news[chosen.0 as usize] = gates.first.0 + n;
    }
    true
}

// The order of the gates of loose numbers, and the new variables by it. Tells whether there is one.
pub(crate) fn find_order(loose: &[u16], news: &mut [u16], order: &mut [u16]) -> bool
    requires { (is_loose loose.now ≡ true) × (news.old ≡ replicate 4096 65535) × (length order.old ≡ 4096) }
    ensures { Found loose.now news.new order.new result }
{
    let gates = gates_of(loose);
    place_first(news, gates.first);
    place_gates(loose, gates, news, order)
}
