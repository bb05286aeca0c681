// The masks of the latches, and the OR chains of the vertices.
ghost use Rattle.std.specs.Prelude.{◌≡◌, ◌+◌, ◌*◌, ◌≤◌, List, ℕ, eqb, length};
ghost use Rattle.builder.specs.Private.Adding.{Added, Room};
ghost use Rattle.builder.specs.Private.Terms.{mask_gates, every_other, or_on, or_begun, vertex_of, vertices_of};
ghost use Rattle.builder.specs.Private.Monitor.{gather_of, gather_gates};

use crate::Both;
use crate::gates::{Gates, INIT, after, literal};
use netlist::{Literal, Variable};

// The literals of every second variable from n on.
fn fill(lits: &mut [u16], n: Variable)
    requires { n.0 + 2 * length lits.old ≤ 4097 }
    ensures { lits.new ≡ every_other n.0 (length lits.old) }
{
    for i in 0..lits.len() {
        lits[i] = literal(after(n, 2 * i), false).0;
    }
}

// What stands first in the happy chain of a vertex: init, where it is the start vertex.
fn begun(v: usize) -> Option<Literal>
    ensures { (n : ℕ) (ts : List ℕ) → or_on result n ts ≡ or_begun (eqb v 0) n ts }
{
    (v == 0).then_some(literal(INIT, false))
}

impl<'a> Gates<'a> {
    // The masks of `count` latches: the latch and not init; l is the variable of the first latch.
    fn put_masks(&mut self, l: Variable, count: usize)
        requires { Room self.old (length (mask_gates l.0 count)) × (l.0 + count ≤ 4096) }
        ensures same { self.new.out.ghost_name ≡ self.old.out.ghost_name }
        ensures made { Added self.old self.new (mask_gates l.0 count) }
    {
        let running = literal(INIT, true);
        for i in 0..count {
            self.put_and(literal(after(l, i), false), running);
        }
    }

    // The two OR chains of a vertex.
    fn put_vertex(&mut self, v: usize, to: &[usize], happy: &[u16], condemned: &[u16]) -> Both
        requires { Room self.old (length (vertex_of self.old.next.0 to.now happy.now condemned.now v).gates)
            × (length happy.now ≡ length to.now) × (length condemned.now ≡ length to.now) }
        ensures same { self.new.out.ghost_name ≡ self.old.out.ghost_name }
        ensures made { Added self.old self.new (vertex_of self.old.next.0 to.now happy.now condemned.now v).gates }
        ensures happy { result.happy.0 ≡ (vertex_of self.old.next.0 to.now happy.now condemned.now v).happy }
        ensures condemned { result.condemned.0 ≡ (vertex_of self.old.next.0 to.now happy.now condemned.now v).condemned }
    {
        let happy = self.put_chain(begun(v), v, to, happy);
        let condemned = self.put_chain(None, v, to, condemned);
        Both { happy, condemned }
    }

    // The OR chains of all vertices, and their literals.
    fn put_vertices(
        &mut self,
        to: &[usize],
        happy: &[u16],
        condemned: &[u16],
        reached: &mut [u16],
        doomed: &mut [u16],
    )
        requires { Room self.old (length (vertices_of self.old.next.0 to.now happy.now condemned.now 0 (length reached.old)).gates)
            × (length happy.now ≡ length to.now) × (length condemned.now ≡ length to.now) × (length doomed.old ≡ length reached.old) }
        ensures same { self.new.out.ghost_name ≡ self.old.out.ghost_name }
        ensures made { Added self.old self.new (vertices_of self.old.next.0 to.now happy.now condemned.now 0 (length reached.old)).gates }
        ensures happies { reached.new ≡ (vertices_of self.old.next.0 to.now happy.now condemned.now 0 (length reached.old)).happy }
        ensures condemneds { doomed.new ≡ (vertices_of self.old.next.0 to.now happy.now condemned.now 0 (length reached.old)).condemned }
    {
        for v in 0..reached.len() {
            let both = self.put_vertex(v, to, happy, condemned);
            reached[v] = both.happy.0;
            doomed[v] = both.condemned.0;
        }
    }

    // The masks and the OR chains of the vertices; l is the variable of the first edge's happy latch. The first gates of all.
    pub(crate) fn gather(
        &mut self,
        l: Variable,
        to: &[usize],
        reached: &mut [u16],
        doomed: &mut [u16],
    )
        requires { Room self.old (length (gather_gates to.now (length reached.old) (length to.now) l.0 self.old.next.0))
            × (l.0 + 2 * length to.now ≤ 4096) × (length to.now ≤ 128) × (length doomed.old ≡ length reached.old) }
        ensures same { self.new.out.ghost_name ≡ self.old.out.ghost_name }
        ensures made { Added self.old self.new (gather_gates to.now (length reached.old) (length to.now) l.0 self.old.next.0) }
        ensures happies { reached.new ≡ (gather_of to.now (length reached.old) (length to.now) l.0 self.old.next.0).happy }
        ensures condemneds { doomed.new ≡ (gather_of to.now (length reached.old) (length to.now) l.0 self.old.next.0).condemned }
    {
        let edges = to.len();
        let mut happy_room = [0u16; 128];
        let mut condemned_room = [0u16; 128];
        let happy = &mut happy_room[..edges];
        let condemned = &mut condemned_room[..edges];
        let n = self.next;
        fill(happy, n);
        fill(condemned, after(n, 1));
        self.put_masks(l, 2 * edges);
        self.put_vertices(to, happy, condemned, reached, doomed);
    }
}
