// The stroke buffer's graph, written into a lent buffer. buffer_text says which graph it is and what it rejects; this crate
// knows nothing of how a text is read or built. Exports that what is written is accepted, that on any trace it rejects just
// the cycles that the buffer's count condemns, and what build makes of it: the clause `buffer` of `write`.
#![tactic(auto)]

ghost use Rattle.std.specs.Prelude.{◌≡◌, ◌≤◌, length, take, IfOk};
ghost use Rattle.buffer_text.specs.Text.{buffer_text};
ghost use Rattle.buffer_text.specs.Claims.{StrokeBuffer};
ghost use Rattle.buffer_graph.specs.Write.{refusal_of, write_end, write_of};

use lines::fill;
use text::Refusal;

mod lines;

// The radio board buffers at most so many strokes.
const MAX_STROKES: u64 = 40;

// Why a graph is not written.
#[derive(Clone, Copy)]
pub enum Cause {
    // No stroke, or more than 40.
    StrokesOutside,
    // The buffer is shorter than the text.
    ShortBuffer,
}

impl Cause {
    // The number and line in which a refusal is reported.
    pub fn refusal(self) -> Refusal
        ensures { result ≡ refusal_of self }
    {
        match self {
            Cause::StrokesOutside => Refusal {
                number: 20,
                line: 0,
            },
            Cause::ShortBuffer => Refusal {
                number: 12,
                line: 0,
            },
        }
    }
}

// How many bytes the text for k strokes has: a count from 10 on has two digits.
fn bytes_due(k: usize) -> usize
    requires { (1 ≤ k) × (k ≤ 40) }
    ensures { result ≡ length (buffer_text k) }
{
    if k < 10 { 100 * k + 72 } else { 107 * k + 7 }
}

// Writes the stroke buffer's graph for so many strokes to the front of a lent buffer. Answers how many bytes the text has.
pub fn write(strokes: u64, text: &mut [u8]) -> Result<usize, Cause>
    ensures text_after { write_end result text.new ≡ write_of strokes text.old }
    ensures buffer { IfOk result (λ n. StrokeBuffer strokes (take n text.new)) }
{
    if strokes < 1 || strokes > MAX_STROKES {
        return Err(Cause::StrokesOutside);
    }
    let k = strokes as usize;
    if text.len() < bytes_due(k) {
        return Err(Cause::ShortBuffer);
    }
    Ok(fill(text, k))
}
