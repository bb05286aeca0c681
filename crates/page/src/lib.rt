// The pages of monitor, graph2aiger and graph2aig, as functions on slices: the monitor's judgement of a trace, and the
// AIGER file of a graph, as text and in the binary format. A refusal of what a page needs is the page's text; a page
// itself is refused only where the buffer is too short for it. Knows nothing of where its bytes come from or go to.
// Exports that the monitor's page names exactly the cycles that some setting and some rejecting path condemn, and says
// rejected exactly if there is one; and that the other pages are the file of the graph's monitor, or its refusal.
#![tactic(auto)]

ghost use Rattle.std.specs.Prelude.{◌≡◌, Bool, List, [], ℕ, ◌≤◌, length};
ghost use Rattle.assertion.specs.Paths.{PathsMean};
ghost use Rattle.graph.specs.Reading.{graph_of};
ghost use Rattle.aiger.specs.Format.{file_of};
ghost use Rattle.packed.specs.Format.{packed_of};
ghost use Rattle.page_text.specs.Lines.{refused_line, report};
ghost use Rattle.page.specs.Pages.{refusal_of, input_refusal, JudgementMeans, graph_page, trace_page, page_end, page_of, monitor_text, aiger_text, packed_text, FilePage};
ghost use Rattle.page.specs.Private.Files.{WritesFile, GivesFile};
ghost use Rattle.page.specs.Private.Putting.{Puts};

use calls::Tally;
use page_text::{graph_and_trace, write_refusal, write_report};
use simulator::Verdict;
use text::Refusal;

// The longest input of a program.
const MAX_INPUT: usize = 65536;

// The most numbers of a netlist with one output: five, two for each latch and gate, of which M = 4,095 leaves 4,094, and
// one for the output.
const MAX_NUMBERS: usize = 8194;

// The most cycles of a trace in a program's input, whose lines have two bytes at least.
const MAX_CYCLES: usize = 32768;

// Why a page is refused.
#[derive(Clone, Copy)]
pub enum Cause {
    // The buffer is shorter than the page.
    ShortBuffer,
}

// Why an input is refused as a whole: the refusal is the text of its page.
#[derive(Clone, Copy)]
enum InputFault {
    // It is over 65,536 bytes.
    TooLong,
}

impl Cause {
    // The number and line in which a refusal is reported.
    pub fn refusal(self) -> Refusal
        ensures { result ≡ refusal_of self }
    {
        match self {
            Cause::ShortBuffer => Refusal {
                number: 12,
                line: 0,
            },
        }
    }
}

impl InputFault {
    // The number and line that are printed.
    fn refusal(self) -> Refusal
        ensures { result ≡ input_refusal self }
    {
        match self {
            InputFault::TooLong => Refusal { number: 1, line: 0 },
        }
    }
}

// The page that a writer puts at the front of a buffer. It is measured first, so that the buffer stays as it was where it
// is too short.
fn measured_page<W: Fn(&mut [u8]) -> usize>(out: &mut [u8], put: W) -> Result<usize, Cause>
    requires { W.IsAlwaysCallable put }
    ensures { (page : List ℕ) → Puts W.Fn put [] page → Puts W.Fn put out.old page → page_end result out.new ≡ page_of page out.old }
{
    if put(&mut out[..0]) > out.len() {
        return Err(Cause::ShortBuffer);
    }
    Ok(put(out))
}

// The page of a refusal.
pub fn refused_page(out: &mut [u8], refusal: Refusal) -> Result<usize, Cause>
    ensures { page_end result out.new ≡ page_of (refused_line refusal) out.old }
{
    measured_page(out, |page: &mut [u8]| write_refusal(page, refusal))
}

// The page of a run with these verdict bytes.
fn report_page(out: &mut [u8], bytes: &[u8], tally: Tally, verdict: Verdict) -> Result<usize, Cause>
    ensures { page_end result out.new ≡ page_of (report bytes.now tally.cycles tally.rejected verdict) out.old }
{
    measured_page(
        out,
        |page: &mut [u8]| write_report(page, bytes, tally, verdict),
    )
}

// The page of a graph text and a trace.
fn judged_page(out: &mut [u8], graph: &[u8], trace: &[u8]) -> Result<usize, Cause>
    requires { length trace.now ≤ 65536 }
    ensures { page_end result out.new ≡ page_of (graph_page (graph_of graph.now) (trace_page trace.now)) out.old }
{
    let mut verdicts = [0u8; MAX_CYCLES];
    match judge::judge(graph, trace, &mut verdicts) {
        Ok((tally, verdict)) => {
            let end = tally.cycles as usize;
            report_page(out, &verdicts[..end], tally, verdict)
        }
        Err(cause) => refused_page(out, cause.refusal()),
    }
}

// The page of the monitor program: graph, a line `T`, trace. It prints the rejected cycles and the sum, or the
// refusal.
pub fn monitor_page(input: &[u8], out: &mut [u8]) -> Result<usize, Cause>
    ensures out_after { page_end result out.new ≡ page_of (monitor_text input.now) out.old }
    ensures fits { length (monitor_text input.now) ≤ 250991 }
    ensures paths { PathsMean }
    ensures verdict { JudgementMeans input.now }
{
    if input.len() > MAX_INPUT {
        return refused_page(out, InputFault::TooLong.refusal());
    }
    let (graph, trace) = graph_and_trace(input);
    judged_page(out, graph, trace)
}

// The page of a graph text: the file of its monitor's netlist, as a writer gives it, or the refusal.
fn graph_file<W>(input: &[u8], out: &mut [u8], write: W) -> Result<usize, Cause>
where
    W: Fn(&[u16], &mut [u8]) -> Result<usize, aiger::Cause>,
    requires { W.IsAlwaysCallable write }
    ensures { (packed : Bool) → WritesFile W.Fn write packed → GivesFile packed input.now out.old out.new result }
{
    let mut net = [0u16; MAX_NUMBERS];
    match builder::build(input, false, &mut net) {
        Ok(_) => {
            let end = write(&net, out).or(Err(Cause::ShortBuffer))?;
            Ok(end)
        }
        Err(cause) => refused_page(out, cause.refusal()),
    }
}

// The page of the program that prints AIGER text: its whole input is a graph text. It prints the file of the monitor's
// netlist, or the refusal.
pub fn aiger_page(input: &[u8], out: &mut [u8]) -> Result<usize, Cause>
    ensures out_after { page_end result out.new ≡ page_of (aiger_text input.now) out.old }
    ensures fits { length (aiger_text input.now) ≤ 65536 }
    ensures prints { FilePage file_of input.now (aiger_text input.now) }
{
    graph_file(input, out, aiger::write)
}

// The page of the program that prints AIGER in the binary format. A refusal is text, as in every page.
pub fn packed_page(input: &[u8], out: &mut [u8]) -> Result<usize, Cause>
    ensures out_after { page_end result out.new ≡ page_of (packed_text input.now) out.old }
    ensures fits { length (packed_text input.now) ≤ 65536 }
    ensures prints { FilePage packed_of input.now (packed_text input.now) }
{
    graph_file(input, out, packed::write)
}
