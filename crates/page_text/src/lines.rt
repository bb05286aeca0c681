// The lines of a page, appended to a writer.
ghost use Rattle.std.specs.Prelude.{length};
ghost use Rattle.text.specs.Writer.{Wrote, Writes, joined};
ghost use Rattle.page_text.specs.Lines.{field, refused_line, rejected_line, verdict_field, sum_line, cycle_line, report};

use calls::Tally;
use simulator::Verdict;
use text::{Refusal, Writer};

// Appends a tab and a number.
fn put_field(page: &mut Writer, n: usize)
    ensures { Writes page.old page.new (field n) }
{
    page.byte(b'\t');
    page.number(n);
}

// Appends the line of a refusal.
pub fn put_refusal(page: &mut Writer, refusal: Refusal)
    ensures { Writes page.old page.new (refused_line refusal) }
{
    page.bytes(b"refused");
    put_field(page, refusal.number as usize);
    put_field(page, refusal.line as usize);
    page.byte(b'\n');
}

// Appends the line of a rejected cycle.
fn put_rejected(page: &mut Writer, cycle: usize)
    ensures { Writes page.old page.new (rejected_line cycle) }
{
    page.byte(b'R');
    put_field(page, cycle);
    page.byte(b'\n');
}

// Appends the lines of all rejected cycles.
fn put_cycles(page: &mut Writer, bytes: &[u8])
    ensures { Writes page.old page.new (joined (cycle_line bytes.now) (length bytes.now)) }
{
    for (k, &b) in bytes.iter().enumerate() {
        if b == 1 {
            put_rejected(page, k + 1);
        }
    }
}

// Appends the verdict, which ends the last line.
fn put_verdict(page: &mut Writer, verdict: Verdict)
    ensures { Writes page.old page.new (verdict_field verdict) }
{
    match verdict {
        Verdict::Accepted => page.bytes(b"\taccepted\n"),
        Verdict::Rejected => page.bytes(b"\trejected\n"),
    }
}

// Appends the last line.
fn put_sum(page: &mut Writer, tally: Tally, verdict: Verdict)
    ensures { Writes page.old page.new (sum_line tally.cycles tally.rejected verdict) }
{
    page.bytes(b"sum");
    put_field(page, tally.cycles as usize);
    put_field(page, tally.rejected as usize);
    put_verdict(page, verdict);
}

// Appends the page of a run with these verdict bytes.
pub fn put_report(page: &mut Writer, bytes: &[u8], tally: Tally, verdict: Verdict)
    ensures { Writes page.old page.new (report bytes.now tally.cycles tally.rejected verdict) }
{
    put_cycles(page, bytes);
    put_sum(page, tally, verdict);
}

// Fills a buffer from its front with the line of a refusal: its length.
pub fn write_refusal(out: &mut [u8], refusal: Refusal) -> usize
    ensures { Wrote out.old out.new 0 result (refused_line refusal) }
{
    let mut page = Writer::new(out);
    put_refusal(&mut page, refusal);
    page.at
}

// Fills a buffer from its front with the page of a run with these verdict bytes: its length.
pub fn write_report(out: &mut [u8], bytes: &[u8], tally: Tally, verdict: Verdict) -> usize
    ensures { Wrote out.old out.new 0 result (report bytes.now tally.cycles tally.rejected verdict) }
{
    let mut page = Writer::new(out);
    put_report(&mut page, bytes, tally, verdict);
    page.at
}
