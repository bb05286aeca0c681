// The session page: one run's verdict bytes laid out as 80-byte lines, for a coach to pin to the wall. Knows nothing of
// graphs and circuits, nor of where the bytes come from. Exports which numbers stand in which columns of the page, the
// clause `lays` of `lay_out`; that equal pages come only from equal graph names and verdict bytes, the clause `tells`;
// and that all widths come from one statement over width and digits, the clause `widths`.
#![tactic(auto)]

mod fields;
mod lines;
mod printable;

ghost use Rattle.std.specs.Prelude.{◌≡◌, ◌≤◌, length, Ok};
ghost use Rattle.text.specs.Writer.{Wrote, Writes};
ghost use Rattle.session_text.specs.Pages.{rejected_of, session_page};
ghost use Rattle.session_text.specs.Claims.{Printable, Widths};
ghost use Rattle.session_page.specs.LayOut.{refusal_of, laid_end, lay_out_of};
ghost use Rattle.session_page.specs.Claims.{LaysOut, RefusedFor, GivenTells};

use calls::Tally;
pub use printable::is_graph_name;
use text::{Refusal, Writer};

// A run on a page has at most so many cycles.
const MAX_CYCLES: usize = 524288;

// A line of a page and its LF.
const LINE: usize = 81;

// Why a page is refused.
#[derive(Clone, Copy)]
pub enum Cause {
    // More than 524,288 verdict bytes.
    TooManyCycles,
    // The buffer is shorter than the page.
    ShortBuffer,
    // No graph name, or a verdict byte above 1.
    NotPrintable,
}

impl Cause {
    // The number and line in which a refusal is reported.
    pub fn refusal(self) -> Refusal
        ensures { result ≡ refusal_of self }
    {
        match self {
            Cause::TooManyCycles => Refusal { number: 1, line: 0 },
            Cause::ShortBuffer => Refusal {
                number: 12,
                line: 0,
            },
            Cause::NotPrintable => Refusal {
                number: 22,
                line: 0,
            },
        }
    }
}

// Appends the page of a run with so many rejected cycles.
fn put_page(page: &mut Writer, name: &[u8], verdicts: &[u8], rejected: usize)
    requires { Printable name.now verdicts.now × (length verdicts.now ≤ 524288) × (rejected ≡ length (rejected_of verdicts.now)) }
    ensures { Writes page.old page.new (session_page name.now verdicts.now) }
{
    lines::put_title(page, name, verdicts.len());
    lines::put_cells(page, verdicts);
    let tally = Tally {
        cycles: verdicts.len() as u32,
        rejected: rejected as u32,
        checked: 0,
    };
    lines::put_last(page, tally);
}

// Fills a buffer from its front with that page: its length.
fn fill(page: &mut [u8], name: &[u8], verdicts: &[u8], rejected: usize) -> usize
    requires { Printable name.now verdicts.now × (length verdicts.now ≤ 524288) × (rejected ≡ length (rejected_of verdicts.now)) }
    ensures { Wrote page.old page.new 0 result (session_page name.now verdicts.now) }
{
    let mut writer = Writer::new(page);
    put_page(&mut writer, name, verdicts, rejected);
    writer.at
}

// Lays out the verdict bytes of a run, and returns how many bytes the page has. Counts the rejected cycles first: that
// gives the page's length.
pub fn lay_out(name: &[u8], verdicts: &[u8], page: &mut [u8]) -> Result<usize, Cause>
    ensures page_after { laid_end result page.new ≡ lay_out_of name.now verdicts.now page.old }
    ensures lays { LaysOut name.now verdicts.now page.old page.new
        (RefusedFor result) (λ n. result ≡ Ok n) }
    ensures tells { GivenTells name.now verdicts.now page.new (λ n. result ≡ Ok n) }
    ensures widths { Widths }
{
    if verdicts.len() > MAX_CYCLES {
        return Err(Cause::TooManyCycles);
    }
    if !is_graph_name(name) {
        return Err(Cause::NotPrintable);
    }
    let Some(rejected) = printable::count_rejected(verdicts) else {
        return Err(Cause::NotPrintable);
    };
    if LINE * (2 + (rejected + 9) / 10) > page.len() {
        return Err(Cause::ShortBuffer);
    }
    Ok(fill(page, name, verdicts, rejected))
}
