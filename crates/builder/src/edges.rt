// The gates of the edges: two formulas and five gates for each.
ghost use Rattle.std.specs.Prelude.{◌≡◌, ◌<◌, length, get_or};
ghost use Rattle.graph.specs.Held.{no_arc};
ghost use Rattle.builder.specs.Private.Adding.{Room};
ghost use Rattle.builder.specs.Private.Machine.{Bounded, named};
ghost use Rattle.builder.specs.Private.Edges.{names_in, edge_in, edges_in, ArcFine, GraphGood, edge_of, edges_of, EdgeMade, EdgesMade, two};
ghost use Rattle.circuit.specs.Build.{edge_piece};

use crate::Both;
use crate::gates::Gates;
use crate::names::Names;
use graph::{Arc, CheckedGraph, part};
use netlist::Literal;

impl<'a> Gates<'a> {
    // The gates of an edge whose from-vertex has these literals.
    fn put_edge(
        &mut self,
        names: &Names<'_>,
        signals: usize,
        a: Arc,
        happy: Literal,
        condemned: Literal,
    ) -> Both
        requires { (ArcFine names.now.text.now (named names.now) a) × Bounded (named names.now)
            × (Room self.old (length (edge_piece signals self.old.next.0 (two happy.0 condemned.0) (edge_in names.now.text.now (named names.now) signals a)).gates)) }
        ensures same { self.new.out.ghost_name ≡ self.old.out.ghost_name }
        ensures made { EdgeMade self.old self.new result
            (edge_piece signals self.old.next.0 (two happy.0 condemned.0) (edge_in names.now.text.now (named names.now) signals a)) }
    {
        let p = self.put_formula(names, signals, part(names.text, a.left, a.lefts));
        let q = self.put_formula(names, signals, part(names.text, a.right, a.rights));
        self.put_tokens(p, q, happy, condemned)
    }

    // The gates of the i-th edge.
    fn put_edge_at(
        &mut self,
        i: usize,
        text: &[u8],
        g: CheckedGraph,
        reached: &[u16],
        doomed: &[u16],
    ) -> Both
        requires { (i < g.edges) × (GraphGood text.now g) × (length reached.now ≡ g.vertices) × (length doomed.now ≡ g.vertices)
            × (Room self.old (length (edge_of g.signals self.old.next.0 reached.now doomed.now (edge_in text.now (names_in text.now g) g.signals (get_or g.arcs i no_arc))).gates)) }
        ensures same { self.new.out.ghost_name ≡ self.old.out.ghost_name }
        ensures made { EdgeMade self.old self.new result
            (edge_of g.signals self.old.next.0 reached.now doomed.now (edge_in text.now (names_in text.now g) g.signals (get_or g.arcs i no_arc))) }
    {
        let a = g.arcs[i];
        let v = a.from;
        let h = reached[v];
        let d = doomed[v];
        let names = Names {
            text,
            symbols: &g.names,
            total: g.named,
        };
        self.put_edge(&names, g.signals, a, Literal(h), Literal(d))
    }

    // The gates of all edges, and their happy-now and condemned-now literals.
    pub(crate) fn put_edges(
        &mut self,
        text: &[u8],
        g: CheckedGraph,
        reached: &[u16],
        doomed: &[u16],
        happy: &mut [u16],
        condemned: &mut [u16],
    )
        requires { (GraphGood text.now g) × (length reached.now ≡ g.vertices) × (length doomed.now ≡ g.vertices)
            × (length happy.old ≡ g.edges) × (length condemned.old ≡ g.edges)
            × (Room self.old (length (edges_of g.signals self.old.next.0 reached.now doomed.now (edges_in text.now g)).gates)) }
        ensures same { self.new.out.ghost_name ≡ self.old.out.ghost_name }
        ensures made { EdgesMade self.old self.new happy.new condemned.new
            (edges_of g.signals self.old.next.0 reached.now doomed.now (edges_in text.now g)) }
    {
        for i in 0..g.edges {
            let both = self.put_edge_at(i, text, g, reached, doomed);
            happy[i] = both.happy.0;
            condemned[i] = both.condemned.0;
        }
    }
}
