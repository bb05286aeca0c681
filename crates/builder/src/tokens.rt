// The five gates by which an edge hands its tokens on.
ghost use Rattle.std.specs.Prelude.{◌≡◌, true, false, ◌+◌};
ghost use Rattle.netlist.specs.Literals.{literal_of};
ghost use Rattle.builder.specs.Private.Adding.{Added, Room};
ghost use Rattle.builder.specs.Private.Terms.{tokens_of};

use crate::Both;
use crate::gates::{Gates, inverse};
use netlist::Literal;

impl<'a> Gates<'a> {
    // The five gates of an edge: p, happy-now, q, r, and the gate whose inverse is condemned-now. The literals a and c are
    // its formulas'.
    pub(crate) fn put_tokens(
        &mut self,
        a: Literal,
        c: Literal,
        happy: Literal,
        condemned: Literal,
    ) -> Both
        requires { Room self.old 5 }
        ensures same { self.new.out.ghost_name ≡ self.old.out.ghost_name }
        ensures made { Added self.old self.new (tokens_of self.old.next.0 a.0 c.0 happy.0 condemned.0) }
        ensures happy { result.happy.0 ≡ literal_of (self.old.next.0 + 1) false }
        ensures condemned { result.condemned.0 ≡ literal_of (self.old.next.0 + 4) true }
    {
        let p = self.put_and(a, happy);
        let happy_now = self.put_and(p, c);
        let q = self.put_and(p, inverse(c));
        let r = self.put_and(a, condemned);
        Both {
            happy: happy_now,
            condemned: self.put_or(q, r),
        }
    }
}
