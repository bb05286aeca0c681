// Variables and their literals, and gates stored one after another.
ghost use Rattle.std.specs.Prelude.{◌≡◌, ◌+◌, ◌-◌, ◌≤◌, ◌<◌, set};
ghost use Rattle.netlist.specs.Literals.{literal_of};
ghost use Rattle.circuit.specs.Gates.{inv, gate, and_of, or_of, xor_of};
ghost use Rattle.builder.specs.Private.Adding.{Room, Makes, neither_of};

use netlist::{Literal, Variable};

// The variable that is false in each cycle.
pub(crate) const FALSE: Variable = Variable(0);

// The variable of the input init.
pub(crate) const INIT: Variable = Variable(1);

// The variable of the first signal; then the other signals, the constants, the edges' latches and the gates.
pub(crate) const SIGNAL: Variable = Variable(2);

// The variable k after v.
pub(crate) fn after(v: Variable, k: usize) -> Variable
    requires { v.0 + k < 65536 }
    ensures { result.0 ≡ v.0 + k }
{
    Variable(v.0 + k as u16)
}

// How many variables there are from f on before n.
pub(crate) fn distance(f: Variable, n: Variable) -> usize
    requires { f.0 ≤ n.0 }
    ensures { result ≡ n.0 - f.0 }
{
    (n.0 - f.0) as usize
}

// The literal of a variable, or of its inverse.
pub(crate) fn literal(v: Variable, inverted: bool) -> Literal
    requires { v.0 ≤ 4096 }
    ensures { result.0 ≡ literal_of v.0 inverted }
{
    v.literal(inverted)
}

// The inverse of a literal.
pub(crate) fn inverse(l: Literal) -> Literal
    ensures { result.0 ≡ inv l.0 }
{
    let v = l.variable();
    v.literal(!l.is_inverted())
}

fn larger(a: Literal, b: Literal) -> Literal
    ensures { result.0 ≡ (gate a.0 b.0).left }
{
    if b.0 <= a.0 { a } else { b }
}

fn smaller(a: Literal, b: Literal) -> Literal
    ensures { result.0 ≡ (gate a.0 b.0).right }
{
    if b.0 <= a.0 { b } else { a }
}

// A literal into the buffer, where it has that place.
fn store(out: &mut [u16], at: usize, l: Literal)
    ensures { out.new ≡ set out.old at l.0 }
{
    if at < out.len() {
        out[at] = l.0;
    }
}

// Gates stored one after another into a lent buffer, two numbers for each; what is past its end is dropped.
#[derive(Drop)]
pub(crate) struct Gates<'a> {
    pub(crate) out: &'a mut [u16],
    // The variable of the gate that stands in front.
    pub(crate) first: Variable,
    // The variable of the next gate.
    pub(crate) next: Variable,
}

impl<'a> Gates<'a> {
    // Both of two: one gate, the larger operand first.
    pub(crate) fn put_and(&mut self, a: Literal, b: Literal) -> Literal
        requires { Room self.old 1 }
        ensures same { self.new.out.ghost_name ≡ self.old.out.ghost_name }
        ensures made { Makes self.old self.new result (and_of self.old.next.0 a.0 b.0) }
    {
        let made = literal(self.next, false);
        let at = 2 * distance(self.first, self.next);
        store(self.out, at, larger(a, b));
        store(self.out, at + 1, smaller(a, b));
        self.next = after(self.next, 1);
        made
    }

    // Neither of two: one gate.
    fn put_neither(&mut self, a: Literal, b: Literal) -> Literal
        requires { Room self.old 1 }
        ensures same { self.new.out.ghost_name ≡ self.old.out.ghost_name }
        ensures made { Makes self.old self.new result (neither_of self.old.next.0 a.0 b.0) }
    {
        self.put_and(inverse(a), inverse(b))
    }

    // One of two, or both: neither, inverted.
    #[tactic(auto, using(crate::proofs::AlikeLaws::inv_flip))]
    pub(crate) fn put_or(&mut self, a: Literal, b: Literal) -> Literal
        requires { Room self.old 1 }
        ensures same { self.new.out.ghost_name ≡ self.old.out.ghost_name }
        ensures made { Makes self.old self.new result (or_of self.old.next.0 a.0 b.0) }
    {
        inverse(self.put_neither(a, b))
    }

    // Just one of two: both, neither, then neither of those.
    pub(crate) fn put_xor(&mut self, a: Literal, b: Literal) -> Literal
        requires { Room self.old 3 }
        ensures same { self.new.out.ghost_name ≡ self.old.out.ghost_name }
        ensures made { Makes self.old self.new result (xor_of self.old.next.0 a.0 b.0) }
    {
        let both = self.put_and(a, b);
        let neither = self.put_neither(a, b);
        self.put_neither(both, neither)
    }
}
