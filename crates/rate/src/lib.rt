// Rejections in a million cycles, from a tally, for a paper to print: whole part and remainder, nothing rounded. Knows
// nothing of netlists and graphs, nor of where the tally comes from. Exports that whole part and remainder are those
// of a division: the clause `divides` of `per_million`.
#![tactic(auto)]

ghost use Rattle.std.specs.Prelude.{◌≡◌};
ghost use Rattle.rate.specs.Rates.{refusal_of, rate_of};
ghost use Rattle.rate.specs.Claims.{Divides};

use calls::Tally;
use text::Refusal;

const MILLION: u64 = 1000000;

#[derive(Clone, Copy)]
pub enum Cause {
    // The tally has no cycle, or more rejected cycles than cycles.
    NoRate,
}

#[derive(Clone, Copy)]
pub struct Rate {
    pub whole: u32,
    pub remainder: u32,
}

impl Cause {
    // The number and line in which a refusal is reported.
    pub fn refusal(self) -> Refusal
        ensures { result ≡ refusal_of self }
    {
        match self {
            Cause::NoRate => Refusal {
                number: 21,
                line: 0,
            },
        }
    }
}

// Rejections in a million cycles. The product is below 2^52.
pub fn per_million(tally: Tally) -> Result<Rate, Cause>
    ensures value { result ≡ rate_of tally }
    ensures divides { Divides tally result }
{
    if tally.cycles == 0 {
        return Err(Cause::NoRate);
    }
    if tally.rejected > tally.cycles {
        return Err(Cause::NoRate);
    }
    let cycles = tally.cycles as u64;
    let product = tally.rejected as u64 * MILLION;
    let whole = (product / cycles) as u32;
    let remainder = (product % cycles) as u32;
    Ok(Rate { whole, remainder })
}
