// Columns of the edges, as the OR chains want them.
ghost use Rattle.std.specs.Prelude.{◌≡◌, length};
ghost use Rattle.builder.specs.Private.Edges.{mark_of, arc_targets, arc_marks};

use crate::chains::TERMINAL;
use graph::Arc;

// The key of an edge in the chain of accept.
fn key(terminal: bool) -> usize
    ensures { result ≡ mark_of terminal }
{
    if terminal { TERMINAL } else { 0 }
}

// The to-vertices of the edges, and their keys in the chain of accept.
pub(crate) fn fill_columns(arcs: &[Arc], to: &mut [usize], marks: &mut [usize])
    requires { (length to.old ≡ length arcs.now) × (length marks.old ≡ length arcs.now) }
    ensures { (to.new ≡ arc_targets arcs.now) × (marks.new ≡ arc_marks arcs.now) }
{
    for i in 0..arcs.len() {
        let a = arcs[i];
        to[i] = a.to;
        marks[i] = key(a.terminal);
    }
}
