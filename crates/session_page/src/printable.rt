// What may be laid out: a graph name, and verdict bytes, of which the rejected are counted.
ghost use Rattle.std.specs.Prelude.{◌≡◌};
ghost use Rattle.session_page.specs.LayOut.{is_graph_name};
ghost use Rattle.session_page.specs.Claims.{NameMeans};
ghost use Rattle.session_page.specs.Private.Writers.{count_of};

// A graph name has at most so many bytes.
const LONGEST_NAME: usize = 24;

// Whether the bytes are a graph name: letters, digits and `_`, 1 to 24.
pub fn is_graph_name(name: &[u8]) -> bool
    ensures value { result ≡ is_graph_name name.now }
    ensures named { NameMeans name.now result }
{
    if name.len() == 0 {
        return false;
    }
    if name.len() > LONGEST_NAME {
        return false;
    }
    formula::name_end(name, 0) == name.len()
}

// Counts the rejected cycles, where no byte is above 1.
pub(crate) fn count_rejected(verdicts: &[u8]) -> Option<usize>
    ensures { result ≡ count_of verdicts.now }
{
    let mut rejected: usize = 0;
    for &b in verdicts {
        if b > 1 {
            return None;
        }
        rejected += b as usize;
    }
    Some(rejected)
}
