// What a latch, an output and the header say. A number becomes a literal once it is known to fit.
ghost use Rattle.std.specs.Prelude.{◌≡◌};
ghost use Rattle.netlist.specs.Valid.{header_ok};
ghost use Rattle.aiger_lines.specs.Lines.{latch_says, output_at};
ghost use Rattle.aiger_lines.specs.Heads.{head_at};
ghost use Rattle.aiger_lines.specs.Private.Steps.{row_in, head_in};

use crate::fields::{fields_at, has_tag, one_number};
use crate::{Fault, Given, Head, Literals};
use netlist::Literal;

// The most variables, not counting variable 0.
const MAX_VARIABLES: usize = 4095;

// The most inputs.
const MAX_INPUTS: usize = 64;

// The most outputs.
const MAX_OUTPUTS: usize = 2;

// The most uninitialised latches.
const MAX_FREE: usize = 6;

// A latch whose literal is `lit` has next at most `last`, and the number of its reset is 0, 1 or, for six
// latches at most, that of its own literal. The literals 0 and 1 are false and true.
pub fn latch_says(
    last: Literal,
    lit: Literal,
    next: usize,
    reset: usize,
    free: usize,
    after: usize,
) -> Result<Given, Fault>
    ensures { row_in result ≡ latch_says last.0 lit.0 free next reset after }
{
    if next > last.0 as usize {
        return Err(Fault::OutOfLimits);
    }
    if reset <= 1 {
        return Ok(Given {
            literals: Literals::Two(Literal(next as u16), Literal(reset as u16)),
            free: free,
            next: after,
        });
    }
    if reset != lit.0 as usize {
        return Err(Fault::OutOfLimits);
    }
    if free >= MAX_FREE {
        return Err(Fault::OutOfLimits);
    }
    Ok(Given {
        literals: Literals::Two(Literal(next as u16), lit),
        free: free + 1,
        next: after,
    })
}

// An output is at most `last`.
pub fn output_line(s: &[u8], last: Literal, free: usize, at: usize) -> Result<Given, Fault>
    ensures { row_in result ≡ output_at s.now last.0 free at }
{
    let line = one_number(s, at).ok_or(Fault::WrongShape)?;
    let values = line.values;
    if values[0] > last.0 as usize {
        return Err(Fault::OutOfLimits);
    }
    Ok(Given {
        literals: Literals::One(Literal(values[0] as u16)),
        free: free,
        next: line.next,
    })
}

// The limits of a header. Each term of the sum is limited before it, so that it does not wrap.
fn header_fits(m: usize, i: usize, l: usize, o: usize, a: usize) -> bool
    ensures { result ≡ header_ok m i l o a }
{
    if m > MAX_VARIABLES {
        return false;
    }
    if i > MAX_INPUTS {
        return false;
    }
    if i < 1 {
        return false;
    }
    if l > m {
        return false;
    }
    if a > m {
        return false;
    }
    if o < 1 {
        return false;
    }
    if o > MAX_OUTPUTS {
        return false;
    }
    m == i + l + a
}

// The header, whose tag has the second byte given.
pub fn header_at(s: &[u8], second: u8) -> Result<Head, Fault>
    ensures { head_in result ≡ head_at second s.now }
{
    if !has_tag(s, second) {
        return Err(Fault::WrongShape);
    }
    let line = fields_at(s, 4, 4).ok_or(Fault::WrongShape)?;
    let values = line.values;
    if !header_fits(values[0], values[1], values[2], values[3], values[4]) {
        return Err(Fault::OutOfLimits);
    }
    Ok(Head {
        variables: values[0] as u16,
        inputs: values[1] as u16,
        latches: values[2] as u16,
        outputs: values[3] as u16,
        gates: values[4] as u16,
        next: line.next,
    })
}
