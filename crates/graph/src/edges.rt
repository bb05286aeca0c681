// Edges: their number, their vertices and their formulas.
ghost use Rattle.std.specs.Prelude.{◌≡◌, ◌+◌, ◌^◌, ◌≤◌, ◌<◌, length};
ghost use Rattle.graph.specs.Pieces.{piece_at, look_up};
ghost use Rattle.graph.specs.Private.Steps.{points, held, EachNarrow, Kept, judged_arc, arc_from, AddsArc, AddsEdge, with_edge};

use crate::formulas::{judge, lower_of};
use crate::names::look_up;
use crate::pieces::{end_at, part, piece};
use crate::{Arc, CheckedGraph, Fault};

const MOST_EDGES: usize = 128;

// Adds an edge to the graph.
fn push_edge(g: &mut CheckedGraph, e: Arc)
    requires { g.old.edges < 128 }
    ensures { g.new ≡ with_edge g.old e }
{
    g.arcs[g.edges] = e;
    g.edges += 1;
}

// The lower fault of an edge's two formulas.
fn judge_both(text: &[u8], symbols: &[usize], e: Arc) -> Result<(), Fault>
    ensures { EachNarrow (held text.now symbols.now) → result ≡ judged_arc text.now (held text.now symbols.now) e }
{
    let a = judge(text, symbols, part(text, e.left, e.lefts));
    let c = judge(text, symbols, part(text, e.right, e.rights));
    lower_of(a, c)
}

// Judges the formulas of an edge whose vertices are known, and adds the edge.
fn judge_edge(text: &[u8], g: &mut CheckedGraph, e: Arc) -> Result<(), Fault>
    requires { Kept g.old × (g.old.edges < 128) }
    ensures { AddsArc text.now g.old e (record { judged = result; graph = g.new }) }
{
    judge_both(text, &g.names[..g.named], e)?;
    push_edge(g, e);
    Ok(())
}

// The vertex whose name is the field at a place of the line.
fn vertex_at(text: &[u8], starts: &[usize], line: &[u8], at: usize) -> Option<usize>
    ensures { result ≡ look_up (piece_at 9 line.now at) (points text.now starts.now) }
{
    look_up(text, starts, piece(line, at, b'\t'))
}

// An edge by the places of its formulas in the text.
fn arc_of(
    line: &[u8],
    at: usize,
    from: usize,
    to: usize,
    marked: bool,
    left: usize,
    right: usize,
) -> Arc
    requires { (left ≤ length line.now) × (right ≤ length line.now) × (at + length line.now < 2 ^ 64) }
    ensures { result ≡ arc_from line.now at from to marked left right }
{
    let left_end = end_at(line, left, b'\t');
    let right_end = end_at(line, right, b'\t');
    Arc {
        from,
        to,
        terminal: marked,
        left: at + left,
        lefts: left_end - left,
        right: at + right,
        rights: right_end - right,
    }
}

// An edge's record: a line that starts at `at`, and where its fields start in it.
pub(crate) fn add_edge(
    text: &[u8],
    g: &mut CheckedGraph,
    line: &[u8],
    at: usize,
    from: usize,
    to: usize,
    marked: bool,
    left: usize,
    right: usize,
) -> Result<(), Fault>
    requires { Kept g.old × (at + length line.now ≤ length text.now) × (left ≤ length line.now) × (right ≤ length line.now) }
    ensures { AddsEdge text.now g.old line.now at from to marked left right (record { judged = result; graph = g.new }) }
{
    if MOST_EDGES <= g.edges {
        return Err(Fault::TooMany);
    }
    let starts = &g.points[..g.vertices];
    let f = vertex_at(text, starts, line, from).ok_or(Fault::UnknownVertex)?;
    let t = vertex_at(text, starts, line, to).ok_or(Fault::UnknownVertex)?;
    let e = arc_of(line, at, f, t, marked, left, right);
    judge_edge(text, g, e)
}
