// The lines of a page, appended to a writer.
ghost use Rattle.std.specs.Prelude.{◌≡◌, true, ◌≤◌, length};
ghost use Rattle.text.specs.Writer.{Writes, joined};
ghost use Rattle.trace.specs.Verdicts.{all_bits};
ghost use Rattle.session_text.specs.Pages.{rejected_of, title, cell_line, cell_lines, rate_fields, last_line};
ghost use Rattle.session_page.specs.Private.Writers.{cycle_text, cells_end};

use crate::fields::{put_blanks, put_rest, put_right};
use calls::Tally;
use rate::{Cause, Rate};
use text::Writer;

// Appends the title line.
pub(crate) fn put_title(page: &mut Writer, name: &[u8], cycles: usize)
    requires { (length name.now ≤ 24) × (cycles ≤ 524288) }
    ensures { Writes page.old page.new (title name.now cycles) }
{
    page.bytes(name);
    put_blanks(page, 24 - name.len());
    put_right(page, 10, cycles);
    put_rest(page, 34);
}

// Appends a cycle if it is rejected, where so many rejected ones stand before it; the tenth of a line ends it.
fn put_cycle(page: &mut Writer, verdict: u8, cycle: usize, cells: usize)
    ensures { Writes page.old page.new (cycle_text cells verdict cycle) }
{
    if verdict != 1 {
        return;
    }
    put_right(page, 8, cycle);
    if cells % 10 == 9 {
        page.byte(b'\n');
    }
}

// Ends the line of the last rejected cycle, where that has not ended.
fn put_cells_end(page: &mut Writer, cells: usize)
    ensures { Writes page.old page.new (cells_end cells) }
{
    let filled = cells % 10;
    if filled != 0 {
        put_rest(page, 8 * filled);
    }
}

// Appends the lines of the rejected cycles.
pub(crate) fn put_cells(page: &mut Writer, verdicts: &[u8])
    requires { all_bits verdicts.now ≡ true }
    ensures { Writes page.old page.new
        (joined (cell_line (rejected_of verdicts.now)) (cell_lines (length (rejected_of verdicts.now)))) }
{
    let mut cells: usize = 0;
    for (k, &b) in verdicts.iter().enumerate() {
        put_cycle(page, b, k + 1, cells);
        cells += b as usize;
    }
    put_cells_end(page, cells);
}

// Appends whole part and remainder.
fn put_rate(page: &mut Writer, rated: Result<Rate, Cause>)
    ensures { Writes page.old page.new (rate_fields rated) }
{
    match rated {
        Ok(rate) => {
            put_right(page, 7, rate.whole as usize);
            put_right(page, 10, rate.remainder as usize);
        }
        Err(_) => put_blanks(page, 17),
    }
}

// Appends the last line.
pub(crate) fn put_last(page: &mut Writer, tally: Tally)
    requires { (tally.rejected ≤ tally.cycles) × (tally.cycles ≤ 524288) }
    ensures { Writes page.old page.new (last_line tally.cycles tally.rejected) }
{
    let rated = rate::per_million(tally);
    put_right(page, 10, tally.rejected as usize);
    put_rate(page, rated);
    put_rest(page, 27);
}
