// The second output, checked: alive of the terminal edges, and their OR.
ghost use Rattle.std.specs.Prelude.{◌≡◌, ◌≤◌, eqb, length};
ghost use Rattle.builder.specs.Private.Adding.{Added, Room, Makes};
ghost use Rattle.builder.specs.Private.Terms.{alive_of, alives_of, checked_of};

use crate::chains::TERMINAL;
use crate::gates::{FALSE, Gates, literal};
use netlist::Literal;

impl<'a> Gates<'a> {
    // Alive of an edge, condemned-now or happy-now, where it is terminal: its key tells. Else no gate, and 0.
    #[tactic(auto, unfolding(crate::specs::Private::Terms::alive_of))]
    fn put_alive(&mut self, key: usize, happy: Literal, condemned: Literal) -> Literal
        requires { Room self.old (length (alive_of (eqb key 1) self.old.next.0 happy.0 condemned.0).gates) }
        ensures same { self.new.out.ghost_name ≡ self.old.out.ghost_name }
        ensures made { Makes self.old self.new result (alive_of (eqb key 1) self.old.next.0 happy.0 condemned.0) }
    {
        if key == TERMINAL {
            self.put_or(condemned, happy)
        } else {
            literal(FALSE, false)
        }
    }

    // Alive of all terminal edges, in edge order.
    fn put_alives(&mut self, marks: &[usize], happy: &[u16], condemned: &[u16], alive: &mut [u16])
        requires { Room self.old (length (alives_of self.old.next.0 marks.now happy.now condemned.now).gates)
            × (length happy.now ≡ length marks.now) × (length condemned.now ≡ length marks.now) × (length alive.old ≡ length marks.now) }
        ensures same { self.new.out.ghost_name ≡ self.old.out.ghost_name }
        ensures made { Added self.old self.new (alives_of self.old.next.0 marks.now happy.now condemned.now).gates }
        ensures outs { alive.new ≡ (alives_of self.old.next.0 marks.now happy.now condemned.now).outs }
    {
        for i in 0..marks.len() {
            let lit = self.put_alive(marks[i], Literal(happy[i]), Literal(condemned[i]));
            alive[i] = lit.0;
        }
    }

    // Checked: all of these first, then the OR chain over them.
    pub(crate) fn put_checked(
        &mut self,
        marks: &[usize],
        happy: &[u16],
        condemned: &[u16],
    ) -> Literal
        requires { Room self.old (length (checked_of self.old.next.0 marks.now happy.now condemned.now).gates)
            × (length marks.now ≤ 128) × (length happy.now ≡ length marks.now) × (length condemned.now ≡ length marks.now) }
        ensures same { self.new.out.ghost_name ≡ self.old.out.ghost_name }
        ensures made { Makes self.old self.new result (checked_of self.old.next.0 marks.now happy.now condemned.now) }
    {
        let mut room = [0u16; 128];
        let alive = &mut room[..marks.len()];
        self.put_alives(marks, happy, condemned, alive);
        self.put_chain(None, TERMINAL, marks, alive)
    }
}
