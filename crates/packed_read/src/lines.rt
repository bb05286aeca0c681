// What a latch's line and a gate's two byte runs say. A number becomes a literal once it is known to fit.
ghost use Rattle.std.specs.Prelude.{◌≡◌};
ghost use Rattle.aiger_lines.specs.Private.Steps.{row_in};
ghost use Rattle.packed_read.specs.Lines.{latch_at, second_at, gate_at};

use crate::runs::run_at;
use aiger_lines::{Fault, Given, Literals, latch_says, one_or_two};
use netlist::Literal;

// A latch, whose own literal is not written: next, or next and reset.
pub(crate) fn latch_line(
    s: &[u8],
    last: Literal,
    lit: Literal,
    free: usize,
    at: usize,
) -> Result<Given, Fault>
    ensures { row_in result ≡ latch_at s.now last.0 lit.0 free at }
{
    let line = one_or_two(s, at).ok_or(Fault::WrongShape)?;
    let latch = line.values;
    latch_says(last, lit, latch[0], latch[1], free, line.next)
}

// The second run of a gate: how far its second operand is below the first, which is `r0`.
fn second_run(s: &[u8], r0: Literal, free: usize, at: usize) -> Result<Given, Fault>
    ensures { row_in result ≡ second_at s.now r0.0 free at }
{
    let (below, next) = run_at(s, at).ok_or(Fault::WrongShape)?;
    if below > r0.0 as usize {
        return Err(Fault::OutOfLimits);
    }
    Ok(Given {
        literals: Literals::Two(r0, Literal(r0.0 - below as u16)),
        free: free,
        next: next,
    })
}

// A gate of the literal `lit`. Its first run tells how far the first operand is below it.
pub(crate) fn gate_at(s: &[u8], lit: Literal, free: usize, at: usize) -> Result<Given, Fault>
    ensures { row_in result ≡ gate_at s.now lit.0 free at }
{
    let (below, next) = run_at(s, at).ok_or(Fault::WrongShape)?;
    if below < 1 {
        return Err(Fault::OutOfLimits);
    }
    if below > lit.0 as usize {
        return Err(Fault::OutOfLimits);
    }
    second_run(s, Literal(lit.0 - below as u16), free, next)
}
