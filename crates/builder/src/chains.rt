// OR chains over literals that have keys.
ghost use Rattle.std.specs.Prelude.{◌≡◌, length};
ghost use Rattle.builder.specs.Private.Adding.{Room, Makes};
ghost use Rattle.builder.specs.Private.Terms.{terms_of, or_term, or_on, accept_of};

use crate::gates::{FALSE, Gates, inverse, literal};
use netlist::Literal;

// The key of a terminal edge.
pub(crate) const TERMINAL: usize = 1;

impl<'a> Gates<'a> {
    // A term of an OR chain, behind those that make `chain`.
    fn put_term(&mut self, chain: Option<Literal>, term: Literal) -> Literal
        requires { Room self.old (length (or_term chain self.old.next.0 term.0).gates) }
        ensures same { self.new.out.ghost_name ≡ self.old.out.ghost_name }
        ensures made { Makes self.old self.new result (or_term chain self.old.next.0 term.0) }
    {
        match chain {
            Some(so) => self.put_or(so, term),
            None => term,
        }
    }

    // An OR chain of the literals whose key is v, behind `start` where there is one. Of no term it is 0. By keys one chain
    // serves vertices, accept, checked and `==`; with a test as an argument its contract would speak of every test.
    pub(crate) fn put_chain(
        &mut self,
        start: Option<Literal>,
        v: usize,
        keys: &[usize],
        lits: &[u16],
    ) -> Literal
        requires { Room self.old (length (or_on start self.old.next.0 (terms_of v keys.now lits.now)).gates)
            × (length lits.now ≡ length keys.now) }
        ensures same { self.new.out.ghost_name ≡ self.old.out.ghost_name }
        ensures made { Makes self.old self.new result (or_on start self.old.next.0 (terms_of v keys.now lits.now)) }
    {
        let mut chain = start;
        for i in 0..keys.len() {
            if keys[i] == v {
                let term = Literal(lits[i]);
                chain = Some(self.put_term(chain, term));
            }
        }
        chain.unwrap_or(literal(FALSE, false))
    }

    // Accept: NOT of the OR of condemned-now over the terminal edges, which is the AND of NOT condemned-now. So are the
    // bits of `==` joined: each bit's key is that of a terminal edge, and its literal tells that it differs.
    #[tactic(auto, unfolding(crate::specs::Private::Terms::accept_of))]
    pub(crate) fn put_accept(&mut self, marks: &[usize], condemned: &[u16]) -> Literal
        requires { Room self.old (length (accept_of self.old.next.0 marks.now condemned.now).gates)
            × (length condemned.now ≡ length marks.now) }
        ensures same { self.new.out.ghost_name ≡ self.old.out.ghost_name }
        ensures made { Makes self.old self.new result (accept_of self.old.next.0 marks.now condemned.now) }
    {
        inverse(self.put_chain(None, TERMINAL, marks, condemned))
    }
}
