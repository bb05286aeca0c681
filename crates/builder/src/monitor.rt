// All gates of the monitor.
ghost use Rattle.std.specs.Prelude.{◌≡◌, ◌+◌, ◌*◌, ◌≤◌, length};
ghost use Rattle.builder.specs.Private.Adding.{Room};
ghost use Rattle.builder.specs.Private.Terms.{ends_of};
ghost use Rattle.builder.specs.Private.Edges.{edges_in, GraphGood};
ghost use Rattle.builder.specs.Private.Monitor.{EndsMade, judge_gates, JudgeMade, monitor_gates, MonitorMade};

use crate::Outputs;
use crate::columns::fill_columns;
use crate::gates::Gates;
use graph::CheckedGraph;
use netlist::Variable;

impl<'a> Gates<'a> {
    // Accept, and checked behind it where it is asked for.
    fn put_outputs(
        &mut self,
        marks: &[usize],
        happy: &[u16],
        condemned: &[u16],
        checked: bool,
    ) -> Outputs
        requires { (Room self.old (length (ends_of checked self.old.next.0 marks.now happy.now condemned.now).gates))
            × (length marks.now ≤ 128) × (length happy.now ≡ length marks.now) × (length condemned.now ≡ length marks.now) }
        ensures same { self.new.out.ghost_name ≡ self.old.out.ghost_name }
        ensures made { EndsMade self.old self.new result (ends_of checked self.old.next.0 marks.now happy.now condemned.now) }
    {
        let accept = self.put_accept(marks, condemned);
        let second = if checked {
            Some(self.put_checked(marks, happy, condemned))
        } else {
            None
        };
        Outputs { accept, second }
    }

    // The gates of the edges, their literals, and the outputs.
    fn judge(
        &mut self,
        text: &[u8],
        g: CheckedGraph,
        reached: &[u16],
        doomed: &[u16],
        marks: &[usize],
        happy: &mut [u16],
        condemned: &mut [u16],
        checked: bool,
    ) -> Outputs
        requires { (GraphGood text.now g) × (length reached.now ≡ g.vertices) × (length doomed.now ≡ g.vertices)
            × (length happy.old ≡ g.edges) × (length condemned.old ≡ g.edges) × (length marks.now ≡ g.edges)
            × (Room self.old (length (judge_gates checked g.signals self.old.next.0 reached.now doomed.now marks.now (edges_in text.now g)))) }
        ensures same { self.new.out.ghost_name ≡ self.old.out.ghost_name }
        ensures made { JudgeMade checked self.old self.new result happy.new condemned.new
            g.signals reached.now doomed.now marks.now (edges_in text.now g) }
    {
        self.put_edges(text, g, reached, doomed, happy, condemned);
        self.put_outputs(marks, happy, condemned, checked)
    }

    // All gates, the edges' literals, and the outputs; l is the variable of the first edge's happy latch.
    pub(crate) fn put_gates(
        &mut self,
        l: Variable,
        text: &[u8],
        g: CheckedGraph,
        happy: &mut [u16],
        condemned: &mut [u16],
        checked: bool,
    ) -> Outputs
        requires { (GraphGood text.now g) × (length happy.old ≡ g.edges) × (length condemned.old ≡ g.edges) × (l.0 + 2 * g.edges ≤ 4096)
            × (Room self.old (length (monitor_gates checked g.signals g.vertices (edges_in text.now g) l.0 self.old.next.0))) }
        ensures same { self.new.out.ghost_name ≡ self.old.out.ghost_name }
        ensures made { MonitorMade checked self.old self.new result happy.new condemned.new
            g.signals g.vertices (edges_in text.now g) l.0 }
    {
        let mut to_room = [0usize; 128];
        let mut marks_room = [0usize; 128];
        let to = &mut to_room[..g.edges];
        let marks = &mut marks_room[..g.edges];
        fill_columns(&g.arcs[..g.edges], to, marks);
        let mut reached_room = [0u16; 64];
        let mut doomed_room = [0u16; 64];
        let reached = &mut reached_room[..g.vertices];
        let doomed = &mut doomed_room[..g.vertices];
        self.gather(l, to, reached, doomed);
        self.judge(text, g, reached, doomed, marks, happy, condemned, checked)
    }
}
