// Places the gates of a file that come in no order: the netlist of loose numbers, its gates in their order, into a
// lent buffer of 16-bit numbers. Knows nothing of texts. Exports that there is one such netlist exactly where no gates
// wait on each other, that it is the one stored, and that it means what AIGER says of the file itself.
#![tactic(auto)]

ghost use Rattle.std.specs.Prelude.{◌≡◌};
ghost use Rattle.aiger_order.specs.Place.{place_end, place_of};
ghost use Rattle.aiger_order.specs.Claims.{PlaceMeans};

use limits::is_loose;
use netlist::Variable;
use orders::find_order;
use stores::store_netlist;

mod limits;
mod orders;
mod stores;

// Why numbers are not placed.
#[derive(Clone, Copy)]
pub enum Unplaced {
    // Gates wait on each other.
    Waiting,
    // The buffer is shorter than the netlist.
    ShortBuffer,
    // The numbers lent are no netlist's, whatever the order of its gates.
    NotLoose,
}

// The most variables that a netlist has, variable 0 among them.
const VARIABLES: usize = 4096;

// Stands for the new variable of a gate that has no place yet. No netlist has it.
const UNPLACED: u16 = 65535;

// The gates of loose numbers: the variable of the first, how many they are, and where their operands stand.
#[derive(Clone, Copy)]
struct Gates {
    first: Variable,
    count: u16,
    at: usize,
}

// Places the gates of loose numbers in their order, at each place the lowest gate whose operands are placed, and
// stores the netlist so numbered to the front of a lent buffer. Answers how many numbers it has; a refusal leaves the
// buffer as it was.
pub fn place(loose: &[u16], net: &mut [u16]) -> Result<usize, Unplaced>
    ensures net_after { place_end result net.new ≡ place_of loose.now net.old }
    ensures exact { PlaceMeans }
{
    if !is_loose(loose) {
        return Err(Unplaced::NotLoose);
    }
    let mut news = [UNPLACED; VARIABLES];
    let mut order = [0u16; VARIABLES];
    if !find_order(loose, &mut news, &mut order) {
        return Err(Unplaced::Waiting);
    }
    store_netlist(loose, &news, &order, net)
}
