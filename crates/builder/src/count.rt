// How many gates the monitor of a checked graph has, by the formula; no gate is made.
ghost use Rattle.std.specs.Prelude.{◌≡◌, cond, ◌+◌, ◌-◌, ◌*◌, ◌≤◌, length, sum_by};
ghost use Rattle.assertion.specs.Graph.{Graph};
ghost use Rattle.graph.specs.Reading.{accepted, graph_of};
ghost use Rattle.graph.specs.Held.{held_of};
ghost use Rattle.graph.specs.Private.Steps.{listed, Kept};
ghost use Rattle.circuit.specs.Count.{gate_formula_with};
ghost use Rattle.builder.specs.Private.Machine.{Bounded, named, byte_gates, word_gates, field_gates, arc_gates, is_reached, reached_from, terminals_of};

use crate::formulas::{ALIKE, AND, BITS, BYTES, OR, XOR};
use crate::names::Names;
use graph::{Arc, CheckedGraph, part};

// The byte of `=`.
const SAME: usize = 61;

// The gates of a byte.
#[tactic(auto, unfolding(crate::specs::Private::Machine::byte_gates))]
fn byte_gates(b: usize) -> usize
    ensures { (result ≡ byte_gates b) × (result ≤ 3) }
{
    match b {
        AND | OR => 1,
        XOR | SAME => 3,
        _ => 0,
    }
}

// The gates of a word.
fn word_gates(names: &Names<'_>, field: &[u8], w: usize) -> usize
    requires { Bounded (named names.now) }
    ensures { (result ≡ word_gates (named names.now) field.now w) × (result ≤ 63) }
{
    if w < BYTES {
        return 0;
    }
    if w < BITS {
        return byte_gates(w - BYTES);
    }
    if w < ALIKE {
        return 0;
    }
    let width = names.width_of(field, (w - ALIKE) / BYTES);
    (4 * width).saturating_sub(1)
}

// The gates of words.
fn words_gates(names: &Names<'_>, field: &[u8], words: &[u32]) -> usize
    requires { Bounded (named names.now) × (length words.now ≤ 255) }
    ensures { (result ≡ sum_by (word_gates (named names.now) field.now) words.now) × (result ≤ 16065) }
{
    let mut sum = 0;
    for &w in words {
        sum += word_gates(names, field, w as usize);
    }
    sum
}

// The gates of the formula that stands in the text from `at` on, n bytes long.
fn field_gates(names: &Names<'_>, at: usize, n: usize) -> usize
    requires { Bounded (named names.now) }
    ensures { (result ≡ field_gates names.now.text.now (named names.now) at n) × (result ≤ 16065) }
{
    let field = part(names.text, at, n);
    match formula::read(field) {
        Some(read) => words_gates(names, field, &read.words[..read.count]),
        None => 0,
    }
}

// The gates of an edge's formulas.
fn edge_gates(names: &Names<'_>, e: Arc) -> usize
    requires { Bounded (named names.now) }
    ensures { (result ≡ field_gates names.now.text.now (named names.now) e.left e.lefts + field_gates names.now.text.now (named names.now) e.right e.rights) × (result ≤ 32130) }
{
    let left = field_gates(names, e.left, e.lefts);
    let right = field_gates(names, e.right, e.rights);
    left + right
}

// The gates of all formulas.
#[tactic(auto, unfolding(crate::specs::Private::Machine::arc_gates))]
fn formulas_gates(names: &Names<'_>, arcs: &[Arc]) -> usize
    requires { Bounded (named names.now) × (length arcs.now ≤ 128) }
    ensures { (result ≡ sum_by (arc_gates names.now.text.now (named names.now)) arcs.now) × (result ≤ 32130 * 128) }
{
    let mut sum = 0;
    for &e in arcs {
        sum += edge_gates(names, e);
    }
    sum
}

// Whether an edge goes to the vertex v.
fn reached(arcs: &[Arc], v: usize) -> bool
    ensures { result ≡ is_reached arcs.now v }
{
    arcs.iter().any(|e| e.to == v)
}

// How many of the vertices from `first` on have an incoming edge.
fn entered(arcs: &[Arc], first: usize, vertices: usize) -> usize
    ensures { result ≡ reached_from arcs.now first vertices }
{
    (first..vertices).filter(|&v| reached(arcs, v)).count()
}

// How many edges are terminal.
fn terminals(arcs: &[Arc]) -> usize
    ensures { (result ≡ terminals_of arcs.now) × (result ≤ length arcs.now) }
{
    arcs.iter().filter(|e| e.terminal).count()
}

// How many gates checked adds for so many terminal edges, where it is asked for: 2T − 1, none for none.
fn checked_gates(checked: bool, terminal: usize) -> usize
    requires { terminal ≤ 128 }
    ensures { (result ≡ cond checked (2 * terminal - 1) 0) × (result ≤ 255) }
{
    if checked {
        (2 * terminal).saturating_sub(1)
    } else {
        0
    }
}

// How many gates the monitor of a checked graph has.
pub(crate) fn gate_count(text: &[u8], g: CheckedGraph, checked: bool) -> usize
    requires { Bounded (listed text.now g.names g.named) × Kept g }
    ensures { (graph : Graph) → graph_of text.now ≡ accepted graph → g ≡ held_of text.now graph → result ≡ gate_formula_with checked graph }
{
    let edges = g.edges;
    let arcs = &g.arcs[..edges];
    let names = Names {
        text,
        symbols: &g.names,
        total: g.named,
    };
    let later = edges.saturating_sub(entered(arcs, 1, g.vertices));
    let all = edges.saturating_sub(entered(arcs, 0, g.vertices));
    let terminal = terminals(arcs);
    let ends = terminal.saturating_sub(1);
    let formulas = formulas_gates(&names, arcs);
    7 * edges + later + all + ends + formulas + checked_gates(checked, terminal)
}
