// The formulas of an edge judged: the grammar, the depth, the names, each looked up, and their widths.
ghost use Rattle.std.specs.Prelude.{◌≡◌};
ghost use Rattle.graph.specs.Reading.{judged_formula, lower};
ghost use Rattle.graph.specs.Private.Steps.{held, EachNarrow, name_found, word_known, word_fits};

use crate::names::look_up_name;
use crate::pieces::part;
use crate::{Fault, FoundName, fault_number};

// A formula is at most so deep.
const DEEPEST: usize = 16;

// A word of a formula below this is a name: its first place and its length.
const NAMES: usize = 4096;

const PLACE: usize = 16;

// From here on a word is one bit of a name.
const BITS: usize = 8192;

// From here on a word is two names compared.
const ALIKE: usize = 16777216;

// The name of a word, looked up.
fn found_in(text: &[u8], symbols: &[usize], s: &[u8], w: usize) -> Option<FoundName>
    ensures { result ≡ name_found (held text.now symbols.now) s.now w }
{
    let name = part(s, w / PLACE, w % PLACE);
    look_up_name(text, symbols, symbols.len(), name)
}

// Are the names of a word in the list?
fn word_known(text: &[u8], symbols: &[usize], s: &[u8], w: usize) -> bool
    ensures { result ≡ word_known (held text.now symbols.now) s.now w }
{
    if NAMES <= w && w < BITS {
        return true;
    }
    if ALIKE <= w {
        if found_in(text, symbols, s, (w - ALIKE) / NAMES).is_none() {
            return false;
        }
    }
    found_in(text, symbols, s, w % NAMES).is_some()
}

// Are the names of a word in the list, with the widths that it asks for?
fn word_fits(text: &[u8], symbols: &[usize], s: &[u8], w: usize) -> bool
    ensures { result ≡ word_fits (held text.now symbols.now) s.now w }
{
    if NAMES <= w && w < BITS {
        return true;
    }
    let Some(found) = found_in(text, symbols, s, w % NAMES) else {
        return false;
    };
    if w < NAMES {
        return found.width == 1;
    }
    if w < ALIKE {
        return w / BITS - 1 < found.width;
    }
    let Some(left) = found_in(text, symbols, s, (w - ALIKE) / NAMES) else {
        return false;
    };
    left.width == found.width
}

// Judges a field as a formula over the names of the list.
pub(crate) fn judge(text: &[u8], symbols: &[usize], field: &[u8]) -> Result<(), Fault>
    ensures { EachNarrow (held text.now symbols.now) → result ≡ judged_formula (held text.now symbols.now) field.now }
{
    let f = formula::read(field).ok_or(Fault::NotFormula)?;
    if DEEPEST < f.depth {
        return Err(Fault::TooDeep);
    }
    let words = &f.words[..f.count];
    if words
        .iter()
        .all(|&w| word_fits(text, symbols, field, w as usize))
    {
        return Ok(());
    }
    if words
        .iter()
        .all(|&w| word_known(text, symbols, field, w as usize))
    {
        return Err(Fault::WrongWidth);
    }
    Err(Fault::UnknownName)
}

// Of two judgements the fault of the lower number.
pub(crate) fn lower_of(a: Result<(), Fault>, b: Result<(), Fault>) -> Result<(), Fault>
    ensures { result ≡ lower a b }
{
    let Err(f) = a else {
        return b;
    };
    let Err(k) = b else {
        return a;
    };
    if fault_number(f) <= fault_number(k) {
        Err(f)
    } else {
        Err(k)
    }
}
