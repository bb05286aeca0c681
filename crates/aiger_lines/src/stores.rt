// Numbers into a lent buffer. What falls past its end is dropped, so that a pass over no numbers tells how
// many there are.
ghost use Rattle.std.specs.Prelude.{◌≡◌, [], ◌∷◌, ◌≤◌, length, set};
ghost use Rattle.std.proofs.lemmas.List.Edits.{sets};
ghost use Rattle.aiger_lines.specs.Private.Steps.{numbers_in};

use crate::{Head, Literals};

// A number into the buffer, where it has that place.
pub fn store(net: &mut [u16], at: usize, v: u16)
    ensures { net.new ≡ set net.old at v }
{
    if at < net.len() {
        net[at] = v;
    }
}

// Two numbers.
pub fn store_pair(net: &mut [u16], at: usize, a: u16, b: u16)
    ensures { net.new ≡ sets net.old at (a ∷ b ∷ []) }
{
    store(net, at, a);
    if at < net.len() {
        store(net, at + 1, b);
    }
}

// The literals of a line, and how many they are.
pub fn store_given(net: &mut [u16], at: usize, given: Literals) -> usize
    ensures { (net.new ≡ sets net.old at (numbers_in given)) × (result ≡ length (numbers_in given)) × (result ≤ 2) }
{
    match given {
        Literals::None => 0,
        Literals::One(lit) => {
            store(net, at, lit.0);
            1
        }
        Literals::Two(first, second) => {
            store_pair(net, at, first.0, second.0);
            2
        }
    }
}

// The numbers of the header.
pub fn store_head(net: &mut [u16], head: Head)
    ensures { net.new ≡ sets net.old 0 (head.variables ∷ head.inputs ∷ head.latches ∷ head.outputs ∷ head.gates ∷ []) }
{
    store_pair(net, 0, head.variables, head.inputs);
    store_pair(net, 2, head.latches, head.outputs);
    store(net, 4, head.gates);
}
