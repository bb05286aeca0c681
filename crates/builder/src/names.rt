// The names of a graph, as the words of its formulas give them.
ghost use Rattle.std.specs.Prelude.{◌≡◌, ◌+◌, ◌≤◌};
ghost use Rattle.graph.specs.Pieces.{place_in, width_in};
ghost use Rattle.graph.specs.Private.Steps.{name_found};
ghost use Rattle.builder.specs.Private.Machine.{Bounded, named, bit_at, name_literal};

use crate::gates::{SIGNAL, after, literal};
use graph::{FoundName, part};
use netlist::Literal;

const PLACE: usize = 16;

// A graph's text, and the places in it where its names are declared, signals and then constants; `total` of these.
#[derive(Clone, Copy)]
pub(crate) struct Names<'a> {
    pub(crate) text: &'a [u8],
    pub(crate) symbols: &'a [usize],
    pub(crate) total: usize,
}

// The literal of bit i of a name whose first bit has this place.
pub(crate) fn bit_literal(place: usize, i: usize) -> Literal
    requires { 2 + place + i ≤ 4096 }
    ensures { result.0 ≡ bit_at place i }
{
    literal(after(SIGNAL, place + i), false)
}

impl<'a> Names<'a> {
    // The name of a word, looked up: the word gives its first place in the formula's text, and its length.
    fn found_in(&self, field: &[u8], w: usize) -> Option<FoundName>
        ensures { result ≡ name_found (named self.now) field.now w }
    {
        let name = part(field, w / PLACE, w % PLACE);
        graph::look_up_name(self.text, self.symbols, self.total, name)
    }

    // The place of the first bit of the name that a word gives; 0 of an unknown name.
    pub(crate) fn place_of(&self, field: &[u8], w: usize) -> usize
        ensures { result ≡ place_in (name_found (named self.now) field.now w) }
    {
        self.found_in(field, w).map_or(0, |found| found.place)
    }

    // Its width; 0 of an unknown name.
    pub(crate) fn width_of(&self, field: &[u8], w: usize) -> usize
        ensures { result ≡ width_in (name_found (named self.now) field.now w) }
    {
        self.found_in(field, w).map_or(0, |found| found.width)
    }

    // The literal of bit i of the name that a word gives.
    pub(crate) fn literal_of(&self, field: &[u8], w: usize, i: usize) -> Literal
        requires { Bounded (named self.now) × (i ≤ 2047) }
        ensures { result.0 ≡ name_literal (named self.now) field.now w i }
    {
        bit_literal(self.place_of(field, w), i)
    }
}
