// The page of the sheet program, as a function on slices: a graph name, and the session page of the monitor's judgement of
// a trace. A refusal of what the page needs is the page's text; the page itself is refused only where the buffer is too
// short for it. Knows nothing of where its bytes come from or go to. Exports what is printed of every input, of one that is
// not refused a sheet of exactly the cycles that some setting and some rejecting path condemn: the clause `sheet` of
// `sheet_page`; and that what the monitor's page refuses after the name's line is refused alike: the clause `monitor`.
#![tactic(auto)]

ghost use Rattle.std.specs.Prelude.{◌≡◌, true, ◌≤◌, length};
ghost use Rattle.assertion.specs.Paths.{PathsMean};
ghost use Rattle.graph.specs.Reading.{graph_of};
ghost use Rattle.page_text.specs.Parts.{graph_part, trace_part};
ghost use Rattle.page.specs.Pages.{graph_page, page_end, page_of};
ghost use Rattle.session_text.specs.Pages.{session_page};
ghost use Rattle.session_text.specs.Claims.{Printable};
ghost use Rattle.session_page.specs.LayOut.{is_graph_name};
ghost use Rattle.sheet_page.specs.Sheets.{input_refusal, trace_sheet, sheet_text};
ghost use Rattle.sheet_page.specs.Private.Names.{name_end};
ghost use Rattle.sheet_page.specs.Claims.{Printed, SheetMeans, AsMonitor};

use page::refused_page;
use page_text::graph_and_trace;
use text::{Line, Refusal};

// The longest input of a program.
const MAX_INPUT: usize = 65536;

// The most cycles of a trace in a program's input, whose lines have two bytes at least.
const MAX_CYCLES: usize = 32768;

// Why an input has no sheet: the refusal is the text of its page.
#[derive(Clone, Copy)]
enum InputFault {
    // It is over 65,536 bytes.
    TooLong,
    // Its first line has no LF, or is no graph name.
    NoGraphName,
}

impl InputFault {
    // The number and line that are printed.
    fn refusal(self) -> Refusal
        ensures { result ≡ input_refusal self }
    {
        match self {
            InputFault::TooLong => Refusal { number: 1, line: 0 },
            InputFault::NoGraphName => Refusal {
                number: 22,
                line: 0,
            },
        }
    }
}

// The session page of verdict bytes, as a page.
fn laid_page(out: &mut [u8], name: &[u8], verdicts: &[u8]) -> Result<usize, page::Cause>
    requires { Printable name.now verdicts.now × (length verdicts.now ≤ 524288) }
    ensures { page_end result out.new ≡ page_of (session_page name.now verdicts.now) out.old }
{
    session_page::lay_out(name, verdicts, out).or(Err(page::Cause::ShortBuffer))
}

// The page of a graph name and the monitor's input.
fn named_sheet(out: &mut [u8], name: &[u8], rest: &[u8]) -> Result<usize, page::Cause>
    requires { (is_graph_name name.now ≡ true) × (length rest.now ≤ 65536) }
    ensures { page_end result out.new ≡ page_of (graph_page (graph_of (graph_part rest.now)) (trace_sheet name.now (trace_part rest.now))) out.old }
{
    let (graph, trace) = graph_and_trace(rest);
    let mut verdicts = [0u8; MAX_CYCLES];
    match judge::judge(graph, trace, &mut verdicts) {
        Ok((tally, _)) => {
            let end = tally.cycles as usize;
            laid_page(out, name, &verdicts[..end])
        }
        Err(cause) => refused_page(out, cause.refusal()),
    }
}

// Where the line of an input ends that is its graph name.
fn name_end(input: &[u8]) -> Result<usize, InputFault>
    ensures { result ≡ name_end input.now }
{
    if input.len() > MAX_INPUT {
        return Err(InputFault::TooLong);
    }
    let Line::Ended(end) = text::line_at(input, 0) else {
        return Err(InputFault::NoGraphName);
    };
    if !session_page::is_graph_name(&input[..end]) {
        return Err(InputFault::NoGraphName);
    }
    Ok(end)
}

// The page of the sheet program: a line with the graph name, graph, a line `T`, trace. It prints the session page, or the
// refusal.
pub fn sheet_page(input: &[u8], out: &mut [u8]) -> Result<usize, page::Cause>
    ensures out_after { page_end result out.new ≡ page_of (sheet_text input.now) out.old }
    ensures fits { length (sheet_text input.now) ≤ 265518 }
    ensures paths { PathsMean }
    ensures sheet { SheetMeans input.now (λ text. Printed text out.old out.new result) }
    ensures monitor { AsMonitor input.now (λ text. Printed text out.old out.new result) }
{
    match name_end(input) {
        Ok(end) => named_sheet(out, &input[..end], &input[end + 1..]),
        Err(fault) => refused_page(out, fault.refusal()),
    }
}
