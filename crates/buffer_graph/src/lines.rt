// The lines of the stroke buffer's graph. The vertex of count n is `n` with that number.
ghost use Rattle.std.specs.Prelude.{◌++◌, ◌≤◌};
ghost use Rattle.text.specs.Quoted.{bytes};
ghost use Rattle.text.specs.Numbers.{digits};
ghost use Rattle.text.specs.Writer.{Wrote, Writes, joined};
ghost use Rattle.buffer_text.specs.Text.{vertex_line, edge_line, count_lines, buffer_text};

use text::Writer;

// Appends the line of a count's vertex.
fn put_vertex(text: &mut Writer, n: usize)
    ensures { Writes text.old text.new (vertex_line n) }
{
    text.bytes(b"V\tn");
    text.number(n);
    text.byte(b'\n');
}

// Appends the lines of the vertices of the first `counts` counts.
fn put_vertices(text: &mut Writer, counts: usize)
    ensures { Writes text.old text.new (joined vertex_line counts) }
{
    for n in 0..counts {
        put_vertex(text, n);
    }
}

// Appends the rest of an edge's line, from its target's number on.
fn put_target(text: &mut Writer, m: usize, labels: &[u8])
    ensures { Writes text.old text.new
        (digits m ++ (bytes "\tt\t" ++ (labels.now ++ bytes "\n"))) }
{
    text.number(m);
    text.bytes(b"\tt\t");
    text.bytes(labels);
    text.byte(b'\n');
}

// Appends the line of an edge from count n to count m.
fn put_edge(text: &mut Writer, n: usize, m: usize, labels: &[u8])
    ensures { Writes text.old text.new (edge_line n m labels.now) }
{
    text.bytes(b"E\tn");
    text.number(n);
    text.bytes(b"\tn");
    put_target(text, m, labels);
}

// Appends the edges from count n, for k strokes, as the listing has them.
fn put_count(text: &mut Writer, k: usize, n: usize)
    requires { (1 ≤ k) × (n ≤ 40) }
    ensures { Writes text.old text.new (count_lines k n) }
{
    if n == 0 {
        put_edge(text, n, 1, b"enq\tempty&!full");
        put_edge(text, n, 0, b"!enq\tempty&!full");
    } else if n == k {
        put_edge(text, n, k - 1, b"deq\t!empty&full");
        put_edge(text, n, k, b"!deq\t!empty&full");
    } else {
        put_edge(text, n, n + 1, b"enq&!deq\t!empty&!full");
        put_edge(text, n, n - 1, b"!enq&deq\t!empty&!full");
        put_edge(text, n, n, b"enq=deq\t!empty&!full");
    }
}

// Appends the edges from the first `counts` counts, for k strokes.
fn put_counts(text: &mut Writer, k: usize, counts: usize)
    requires { (1 ≤ k) × (counts ≤ 41) }
    ensures { Writes text.old text.new (joined (count_lines k) counts) }
{
    for n in 0..counts {
        put_count(text, k, n);
    }
}

// Appends the text of the graph for k strokes.
fn put_graph(text: &mut Writer, k: usize)
    requires { (1 ≤ k) × (k ≤ 40) }
    ensures { Writes text.old text.new (buffer_text k) }
{
    text.bytes(b"S\treset\nS\tenq\nS\tdeq\nS\tempty\nS\tfull\nV\ts\n");
    put_vertices(text, k + 1);
    text.bytes(b"E\ts\tn0\tt\treset\t1\n");
    put_counts(text, k, k + 1);
}

// Fills a buffer from its front with that text: its length.
pub(crate) fn fill(text: &mut [u8], k: usize) -> usize
    requires { (1 ≤ k) × (k ≤ 40) }
    ensures { Wrote text.old text.new 0 result (buffer_text k) }
{
    let mut writer = Writer::new(text);
    put_graph(&mut writer, k);
    writer.at
}
