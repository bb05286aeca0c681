// Signals, constants and vertices, one record after another: their order, their number and their names.
ghost use Rattle.std.specs.Prelude.{◌≡◌, ◌+◌, ◌≤◌, ◌<◌};
ghost use Rattle.graph.specs.Reading.{add_signal, add_constant, add_vertex};
ghost use Rattle.graph.specs.Meaning.{IsWidth};
ghost use Rattle.graph.specs.Held.{symbol_word};
ghost use Rattle.graph.specs.Private.Steps.{Kept, AddsSymbol, AddsName, with_signal, with_constant, with_vertex};

use crate::names::{FIRST, LENGTH, START, look_up, look_up_name};
use crate::pieces::{part, piece};
use crate::{CheckedGraph, Fault};

// The most bits of all signals, and of all constants.
const MOST_SIGNALS: usize = 63;

const MOST_CONSTANTS: usize = 6;

const MOST_VERTICES: usize = 64;

// The word of a signal or a constant.
fn symbol_word(start: usize, length: usize, place: usize, width: usize) -> usize
    requires { (start ≤ 32768) × (length ≤ 15) × (place ≤ 69) × (width ≤ 16) }
    ensures { result ≡ symbol_word start length place width }
{
    start * START + length * LENGTH + place * FIRST + width
}

// Adds a signal to the graph.
fn push_signal(g: &mut CheckedGraph, p: usize, length: usize, width: usize)
    requires { (g.old.named < 69) × (g.old.signals + width ≤ 63) × (p ≤ 32768) × (length ≤ 15) × (width ≤ 16) }
    ensures { g.new ≡ with_signal g.old p length width }
{
    g.names[g.named] = symbol_word(p, length, g.signals, width);
    g.named += 1;
    g.signals += width;
}

// Adds a constant to the graph.
fn push_constant(g: &mut CheckedGraph, p: usize, length: usize, width: usize)
    requires { (g.old.named < 69) × (g.old.signals ≤ 63) × (g.old.constants + width ≤ 6) × (p ≤ 32768) × (length ≤ 15) }
    ensures { g.new ≡ with_constant g.old p length width }
{
    g.names[g.named] = symbol_word(p, length, g.signals + g.constants, width);
    g.named += 1;
    g.constants += width;
}

// Adds a vertex to the graph.
fn push_vertex(g: &mut CheckedGraph, p: usize)
    requires { g.old.vertices < 64 }
    ensures { g.new ≡ with_vertex g.old p }
{
    g.points[g.vertices] = p;
    g.vertices += 1;
}

// A signal's record, whose name starts at p.
pub(crate) fn add_signal(
    text: &[u8],
    g: &mut CheckedGraph,
    p: usize,
    length: usize,
    width: usize,
) -> Result<(), Fault>
    requires { Kept g.old × IsWidth width × (p ≤ 32768) × (length ≤ 15) }
    ensures { AddsSymbol text.now g.old p length width add_signal (record { judged = result; graph = g.new }) }
{
    if 0 < g.constants + g.vertices + g.edges {
        return Err(Fault::WrongOrder);
    }
    if MOST_SIGNALS < g.signals + width {
        return Err(Fault::TooMany);
    }
    if look_up_name(text, &g.names, g.named, part(text, p, length)).is_some() {
        return Err(Fault::NameRepeated);
    }
    push_signal(g, p, length, width);
    Ok(())
}

// A constant's record, whose name starts at p. One function for both would ask at each step which of them it is.
pub(crate) fn add_constant(
    text: &[u8],
    g: &mut CheckedGraph,
    p: usize,
    length: usize,
    width: usize,
) -> Result<(), Fault>
    requires { Kept g.old × IsWidth width × (p ≤ 32768) × (length ≤ 15) }
    ensures { AddsSymbol text.now g.old p length width add_constant (record { judged = result; graph = g.new }) }
{
    if 0 < g.vertices + g.edges {
        return Err(Fault::WrongOrder);
    }
    if MOST_CONSTANTS < g.constants + width {
        return Err(Fault::TooMany);
    }
    if look_up_name(text, &g.names, g.named, part(text, p, length)).is_some() {
        return Err(Fault::NameRepeated);
    }
    push_constant(g, p, length, width);
    Ok(())
}

// A vertex's record, whose name starts at p.
pub(crate) fn add_vertex(text: &[u8], g: &mut CheckedGraph, p: usize) -> Result<(), Fault>
    requires { Kept g.old }
    ensures { AddsName text.now g.old p add_vertex (record { judged = result; graph = g.new }) }
{
    if 0 < g.edges {
        return Err(Fault::WrongOrder);
    }
    if MOST_VERTICES <= g.vertices {
        return Err(Fault::TooMany);
    }
    if look_up(text, &g.points[..g.vertices], piece(text, p, b'\n')).is_some() {
        return Err(Fault::NameRepeated);
    }
    push_vertex(g, p);
    Ok(())
}
