// A vertex looked up among those whose names start at places of a text, and a signal or a constant among those
// declared, each by its word.
ghost use Rattle.std.specs.Prelude.{◌≡◌, map, take};
ghost use Rattle.graph.specs.Pieces.{piece_at, same, look_up, look_up_name};
ghost use Rattle.graph.specs.Held.{declared_in};
ghost use Rattle.graph.specs.Claims.{LookUpMeans};
ghost use Rattle.graph.specs.Private.Steps.{points};

use crate::FoundName;
use crate::pieces::{part, piece};

// The word of a signal or a constant is this much for each place of the text before its name, each byte of its
// name, each bit before its first, and 1 for each bit of its width; no name has so many bytes, and no bit so many
// before it.
pub(crate) const START: usize = 65536;

pub(crate) const LENGTH: usize = 4096;

const LENGTHS: usize = 16;

pub(crate) const FIRST: usize = 32;

const FIRSTS: usize = 128;

// Is this the vertex whose name starts at a place of the text and runs to its LF?
fn is_at(text: &[u8], start: usize, name: &[u8]) -> bool
    ensures { result ≡ same name.now (piece_at 10 text.now start) }
{
    name == piece(text, start, b'\n')
}

// Looks a vertex up among those whose names start at places of the text.
pub(crate) fn look_up(text: &[u8], starts: &[usize], name: &[u8]) -> Option<usize>
    ensures { result ≡ look_up name.now (points text.now starts.now) }
{
    starts.iter().position(|&start| is_at(text, start, name))
}

// Looks a signal or a constant up among the first `count`, or among all where there are fewer.
pub fn look_up_name(text: &[u8], symbols: &[usize], count: usize, name: &[u8]) -> Option<FoundName>
    ensures value { result ≡ look_up_name name.now (map (declared_in text.now) (take count symbols.now)) }
    ensures found { LookUpMeans name.now (map (declared_in text.now) (take count symbols.now)) result }
{
    let among = &symbols[..count.min(symbols.len())];
    for &y in among {
        if name == part(text, y / START, y / LENGTH % LENGTHS) {
            return Some(FoundName {
                place: y / FIRST % FIRSTS,
                width: y % FIRST,
            });
        }
    }
    None
}
