// The calls of document 02, No. 11 and No. 6, that write a graph.
ghost use Rattle.std.specs.Prelude.{◌≡◌, take};
ghost use Rattle.dearest_text.specs.Claims.{Dearest};
ghost use Rattle.buffer_text.specs.Claims.{StrokeBuffer};
ghost use Rattle.ludopoplar.specs.Circuits.{filled};
ghost use Rattle.ludopoplar.specs.Graphs.{dearest_graph_call, buffer_graph_call};

use crate::counted;

// Writes the dearest graph with so many edges and no operators.
#[unsafe(no_mangle)]
pub extern "C" fn ludo_dearest_graph(edges: u64, text: &mut [u8], length: &mut u64) -> u64
    ensures length_after { filled result text.new length.new ≡ dearest_graph_call edges text.old length.old }
    ensures dearest { result ≡ 0 → Dearest edges (take length.new text.new) }
{
    let written = dearest_graph::write(edges, text).map_err(dearest_graph::Cause::refusal);
    counted(written, length)
}

// Writes the stroke buffer's graph for so many strokes.
#[unsafe(no_mangle)]
pub extern "C" fn ludo_buffer_graph(strokes: u64, text: &mut [u8], length: &mut u64) -> u64
    ensures length_after { filled result text.new length.new ≡ buffer_graph_call strokes text.old length.old }
    ensures buffer { result ≡ 0 → StrokeBuffer strokes (take length.new text.new) }
{
    let written = buffer_graph::write(strokes, text).map_err(buffer_graph::Cause::refusal);
    counted(written, length)
}
