// Lines one after the other, and what they give to the netlist.
ghost use Rattle.std.specs.Prelude.{◌≡◌, false, ℕ, ◌+◌, ◌*◌, ◌^◌, ◌<◌, ◌≤◌};
ghost use Rattle.netlist.specs.Literals.{literal_of};
ghost use Rattle.aiger_lines.specs.Lines.{Row};
ghost use Rattle.aiger_lines.specs.Blocks.{rows_of};
ghost use Rattle.aiger_lines.specs.Private.Steps.{row_in, line_rows, Reads, Took, Within};

use crate::stores::store_given;
use crate::{Cursor, Fault, Given};
use netlist::{Literal, Variable};

// The literal of the variable k places after the first one.
pub fn literal_due(first: Variable, k: u16) -> Literal
    requires { first.0 + k < 32768 }
    ensures { result.0 ≡ literal_of (first.0 + k) false }
{
    Variable(first.0 + k).literal(false)
}

// Line k of a block, whose literals are stored at `from.place`.
fn line_step<F: Fn(u16, usize, usize) -> Result<Given, Fault>>(
    net: &mut [u16],
    k: u16,
    line: u32,
    from: Cursor,
    line_at: &F,
) -> Result<Cursor, (Fault, u32)>
    requires callable { F.pre line_at.now k from.free from.at }
    requires bounds { from.place < 1000000 }
    ensures took { (x : Row) → ((r : _) → from.free < 2 ^ 64 → from.at < 2 ^ 64 → F.post line_at.now k from.free from.at r → row_in r ≡ x)
        → Took (line_rows x line) net.old net.new from.place result }
    ensures within { Within (from.place + 2) result }
{
    let given = line_at(k, from.free, from.at).map_err(|fault| (fault, line))?;
    let stored = store_given(net, from.place, given.literals);
    Ok(Cursor {
        free: given.free,
        at: given.next,
        place: from.place + stored,
    })
}

// The lines of a block, of which the first has the number `line`, and `line_at` reads the one of index k. Their literals
// are stored from `from.place` on.
pub fn block_at<F: Fn(u16, usize, usize) -> Result<Given, Fault>>(
    net: &mut [u16],
    count: u16,
    line: u32,
    from: Cursor,
    line_at: F,
) -> Result<Cursor, (Fault, u32)>
    requires callable { (k free p : ℕ) → k < count → F.pre line_at k free p }
    requires bounds { (line ≤ 100000) × (from.place ≤ 50000) }
    ensures took { (at : ℕ → ℕ → ℕ → Row) → Reads (F.post line_at) at count → Took (rows_of at count 0 line from.free from.at) net.old net.new from.place result }
    ensures within { Within (from.place + 2 * count) result }
{
    let mut cursor = from;
    for k in 0..count {
        cursor = line_step(net, k, line + k as u32, cursor, &line_at)?;
    }
    Ok(cursor)
}
