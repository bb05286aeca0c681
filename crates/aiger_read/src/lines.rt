// What each kind of line says. A number becomes a literal once it is known to fit.
ghost use Rattle.std.specs.Prelude.{◌≡◌, [], ◌∷◌, ℕ, ◌≤◌};
ghost use Rattle.netlist.specs.Literals.{variable_of};
ghost use Rattle.aiger_lines.specs.Private.Steps.{row_in};
ghost use Rattle.aiger_read.specs.Lines.{input_at, latch_at, gate_place, gate_fits, gate_at};
ghost use Rattle.aiger_read.specs.Private.Steps.{HasPlaces, gate_in};

use aiger_lines::{
    Fault, Given, Literals, latch_says, one_number, store_pair, three_numbers, two_or_three,
};
use netlist::{Literal, Variable};

// An input has the literal due.
pub(crate) fn input_line(s: &[u8], lit: Literal, free: usize, at: usize) -> Result<Given, Fault>
    ensures { row_in result ≡ input_at s.now lit.0 free at }
{
    let line = one_number(s, at).ok_or(Fault::WrongShape)?;
    let values = line.values;
    if values[0] != lit.0 as usize {
        return Err(Fault::OutOfLimits);
    }
    Ok(Given {
        literals: Literals::None,
        free: free,
        next: line.next,
    })
}

// A latch has the literal due, next at most `last`, and a reset of 0, 1 or its own literal.
pub(crate) fn latch_line(
    s: &[u8],
    last: Literal,
    lit: Literal,
    free: usize,
    at: usize,
) -> Result<Given, Fault>
    ensures { row_in result ≡ latch_at s.now last.0 lit.0 free at }
{
    let line = two_or_three(s, at).ok_or(Fault::WrongShape)?;
    let latch = line.values;
    if latch[0] != lit.0 as usize {
        return Err(Fault::OutOfLimits);
    }
    latch_says(last, lit, latch[1], latch[2], free, line.next)
}

// What stands where no gate is defined so far: no literal of a file.
pub(crate) const UNDEFINED: u16 = 65535;

// The place of a gate's operands, where those of the first one stand at 0.
fn gate_place(first: Variable, gate: Literal) -> usize
    requires { first.0 ≤ variable_of gate.0 }
    ensures { (result ≡ gate_place first.0 gate.0) × (result ≤ 131070) }
{
    2 * (gate.variable().0 - first.0) as usize
}

// Three numbers define a gate: a literal from that of the first one to that of the last, not its inverse,
// which has no operands yet, and two operands.
fn gate_fits(ops: &[u16], first: Variable, last: Variable, lit: usize, r0: usize, r1: usize) -> bool
    requires { HasPlaces first.0 last.0 ops.now }
    ensures { result ≡ gate_fits first.0 last.0 ops.now (lit ∷ r0 ∷ r1 ∷ []) }
{
    let largest = last.literal(true);
    if lit > largest.0 as usize {
        return false;
    }
    if r0 > largest.0 as usize {
        return false;
    }
    if r1 > largest.0 as usize {
        return false;
    }
    let gate = Literal(lit as u16);
    if gate.is_inverted() {
        return false;
    }
    if gate.variable().0 < first.0 {
        return false;
    }
    let place = gate_place(first, gate);
    ops[place] == UNDEFINED
}

// A gate's operands go to the place of its own variable.
pub(crate) fn gate_line(
    s: &[u8],
    ops: &mut [u16],
    first: Variable,
    last: Variable,
    at: usize,
) -> Result<usize, Fault>
    requires { HasPlaces first.0 last.0 ops.old }
    ensures { (free : ℕ) → gate_in free result ops.new ≡ gate_at s.now first.0 last.0 ops.old free at }
{
    let line = three_numbers(s, at).ok_or(Fault::WrongShape)?;
    let gate = line.values;
    if !gate_fits(ops, first, last, gate[0], gate[1], gate[2]) {
        return Err(Fault::OutOfLimits);
    }
    let place = gate_place(first, Literal(gate[0] as u16));
    store_pair(ops, place, gate[1] as u16, gate[2] as u16);
    Ok(line.next)
}
