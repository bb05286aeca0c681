// The mode, which is the first line, and the terminal edges, which it decides when all lines are read.
ghost use Rattle.std.specs.Prelude.{◌≡◌, ◌≤◌, take};
ghost use Rattle.assertion.specs.Lists.{any};
ghost use Rattle.graph.specs.Reading.{mode_lines};
ghost use Rattle.graph.specs.Private.Steps.{Kept, AddsMode, with_mode, all_terminal, with_arcs, each_terminal, chosen_in};

use crate::{Arc, CheckedGraph, Fault};
use assertion::Mode;

// How many lines say the mode.
fn mode_lines(mode: Mode) -> usize
    ensures { (result ≡ mode_lines mode) × (result ≤ 1) }
{
    match mode {
        Mode::Unsaid => 0,
        Mode::Terminal => 1,
        Mode::Strong => 1,
    }
}

// Gives the graph its mode.
fn set_mode(g: &mut CheckedGraph, mode: Mode)
    ensures { g.new ≡ with_mode g.old mode }
{
    g.mode = mode;
}

// An `M` line's record.
pub(crate) fn add_mode(g: &mut CheckedGraph, mode: Mode) -> Result<(), Fault>
    requires { Kept g.old }
    ensures { AddsMode g.old mode (record { judged = result; graph = g.new }) }
{
    let said = g.mode;
    let first = mode_lines(said);
    if 0 < first + g.named + g.vertices + g.edges {
        return Err(Fault::WrongOrder);
    }
    set_mode(g, mode);
    Ok(())
}

// Is one of the edges marked?
fn some_marked(g: CheckedGraph) -> bool
    requires { g.edges ≤ 128 }
    ensures { result ≡ any (λ a. a.terminal) (take g.edges g.arcs) }
{
    g.arcs[..g.edges].iter().any(|a| a.terminal)
}

// Is each edge terminal, whether marked or not?
fn each_terminal(g: CheckedGraph) -> bool
    requires { g.edges ≤ 128 }
    ensures { result ≡ each_terminal g.mode (take g.edges g.arcs) }
{
    let mode = g.mode;
    match mode {
        Mode::Unsaid => !some_marked(g),
        Mode::Terminal => false,
        Mode::Strong => true,
    }
}

// The graph with each edge terminal.
fn make_terminal(g: CheckedGraph) -> CheckedGraph
    requires { g.edges ≤ 128 }
    ensures { result ≡ with_arcs g (all_terminal g.edges g.arcs) }
{
    let mut arcs = g.arcs;
    for a in &mut arcs[..g.edges] {
        a.terminal = true;
    }
    CheckedGraph { arcs, ..g }
}

// The graph with its terminal edges chosen by its mode.
pub(crate) fn choose(g: CheckedGraph) -> CheckedGraph
    requires { Kept g }
    ensures { result ≡ chosen_in g }
{
    if each_terminal(g) {
        return make_terminal(g);
    }
    g
}
