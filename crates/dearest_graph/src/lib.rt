// The dearest graph, written into a lent buffer, for sizing a gate array from the number of edges. Which graph it is and
// what it costs stands in dearest_text; this crate knows nothing of how a text is read or built. Exports that what is
// written is accepted as that graph and costs 10E − 2 gates, and that no graph of as many edges and no operators costs
// more: the clause `dearest` of `write`.
#![tactic(auto)]

ghost use Rattle.std.specs.Prelude.{◌≡◌, IfOk, take};
ghost use Rattle.text.specs.Writer.{Wrote, Writes, joined};
ghost use Rattle.dearest_text.specs.Dearest.{loop_line, dearest_text};
ghost use Rattle.dearest_text.specs.Claims.{Dearest};
ghost use Rattle.dearest_graph.specs.Write.{refusal_of, write_end, write_of};

use text::{Refusal, Writer};

// A graph has at most so many edges.
const MAX_EDGES: u64 = 128;

// The bytes of the vertex's line, and of the line of each edge.
const VERTEX_LINE: usize = 4;

const EDGE_LINE: usize = 12;

// Why a graph is not written.
#[derive(Clone, Copy)]
pub enum Cause {
    // No edge, or more than 128.
    EdgesOutside,
    // The buffer is shorter than the text.
    ShortBuffer,
}

impl Cause {
    // The number and line in which a refusal is reported.
    pub fn refusal(self) -> Refusal
        ensures { result ≡ refusal_of self }
    {
        match self {
            Cause::EdgesOutside => Refusal {
                number: 24,
                line: 0,
            },
            Cause::ShortBuffer => Refusal {
                number: 12,
                line: 0,
            },
        }
    }
}

// Appends the lines of so many edges.
fn put_edges(text: &mut Writer, edges: u64)
    ensures { Writes text.old text.new (joined (λ _. loop_line) edges) }
{
    for _ in 0..edges {
        text.bytes(b"E\ta\ta\tt\t1\t1\n");
    }
}

// Appends the text of the graph with so many edges.
fn put_graph(text: &mut Writer, edges: u64)
    ensures { Writes text.old text.new (dearest_text edges) }
{
    text.bytes(b"V\ta\n");
    put_edges(text, edges);
}

// Fills a buffer from its front with that text: its length.
fn fill(text: &mut [u8], edges: u64) -> usize
    ensures { Wrote text.old text.new 0 result (dearest_text edges) }
{
    let mut writer = Writer::new(text);
    put_graph(&mut writer, edges);
    writer.at
}

// Writes the dearest graph with so many edges to the front of a lent buffer. Answers how many bytes the text has.
pub fn write(edges: u64, text: &mut [u8]) -> Result<usize, Cause>
    ensures text_after { write_end result text.new ≡ write_of edges text.old }
    ensures dearest { IfOk result (λ n. Dearest edges (take n text.new)) }
{
    if edges < 1 || edges > MAX_EDGES {
        return Err(Cause::EdgesOutside);
    }
    if text.len() < VERTEX_LINE + EDGE_LINE * (edges as usize) {
        return Err(Cause::ShortBuffer);
    }
    Ok(fill(text, edges))
}
