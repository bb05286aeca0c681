// The parts of the monitor program's input.
ghost use Rattle.std.specs.Prelude.{◌≡◌, ◌+◌, ◌≤◌, length, take, drop};
ghost use Rattle.page_text.specs.Parts.{graph_length, graph_part, trace_part};
ghost use Rattle.page_text.specs.Claims.{Parts};

// How many bytes stand before the first line `T`, or all where there is none.
pub fn graph_length(input: &[u8]) -> usize
    ensures value { result ≡ graph_length input.now }
    ensures parts { Parts input.now (take result input.now) (drop (result + 2) input.now) }
    ensures within { result ≤ length input.now }
{
    let mut starts = true;
    for (i, &b) in input.iter().enumerate() {
        if starts && b == b'T' && text::byte_at(input, i + 1) == b'\n' {
            return i;
        }
        starts = b == b'\n';
    }
    input.len()
}

// The two parts of the input: what stands before the first line `T`, and what stands after it.
pub fn graph_and_trace(input: &[u8]) -> (&[u8], &[u8])
    ensures graph { result.0.now ≡ graph_part input.now }
    ensures trace { result.1.now ≡ trace_part input.now }
    ensures within { length result.1.now ≤ length input.now }
{
    let end = graph_length(input);
    let at = if end < input.len() { end + 2 } else { end };
    (&input[..end], &input[at..])
}
