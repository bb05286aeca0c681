// Runs document 01's bench examples of graphs and the published examples of AIGER files, and says of each whether the
// answer is the expected one.
//
// Standard input holds the examples; cases.py writes them. An example is five fields, each a line with its length in
// bytes and then that many bytes: the name, which starts with `g` for a graph; the text; a file's text when it is
// written again, if that differs; the trace to run it on; and the expected answer. What is written for it is a line with
// the name, the answer, and `ok` or `DIFFERS`.
#![tactic(auto)]

ghost use Rattle.std.specs.Prelude.{◌≤◌, length};

use std::io;

mod answers;

// A field: its bytes are those from `start` to before `end`. Where there is none both are the input's length.
#[derive(Clone, Copy)]
struct Field {
    start: usize,
    end: usize,
}

// The field at a place.
fn field_at(input: &[u8], at: usize) -> Field
    ensures { (result.start ≤ result.end) × (result.end ≤ length input.now) }
{
    let none = Field {
        start: input.len(),
        end: input.len(),
    };
    let Some((length, lf)) = text::read_number(input, at) else {
        return none;
    };
    if input.len() <= lf {
        return none;
    }
    let start = lf + 1;
    if input.len() - start < length {
        return none;
    }
    Field {
        start,
        end: start + length,
    }
}

// Writes the first bytes of a buffer.
fn write_front(rt: &impl Print, out: &[u8], end: usize) -> io::Result<()> {
    if end <= out.len() {
        rt.write_all(&out[0..end])?;
    }
    Ok(())
}

// Writes whether an answer, the first bytes of a buffer, is the expected one.
fn write_judgement(rt: &impl Print, out: &[u8], end: usize, expected: &[u8]) -> io::Result<()> {
    if end <= out.len() {
        if check::same(&out[0..end], expected) {
            return rt.write_all(b"\tok\n");
        }
    }
    rt.write_all(b"\tDIFFERS\n")
}

// Writes the line of an example whose answer is the first bytes of a buffer.
fn write_line(
    rt: &impl Print,
    name: &[u8],
    out: &[u8],
    end: usize,
    expected: &[u8],
) -> io::Result<()> {
    rt.write_all(name)?;
    rt.write_all(b"\t")?;
    write_front(rt, out, end)?;
    write_judgement(rt, out, end, expected)
}

// Runs an example and writes its line.
fn write_example(
    rt: &impl Print,
    name: &[u8],
    text: &[u8],
    other: &[u8],
    trace: &[u8],
    expected: &[u8],
) -> io::Result<()> {
    let mut out = [0u8; 256];
    let kind = text::byte_at(name, 0);
    let end = answers::put_answer(&mut out, kind, text, other, trace);
    write_line(rt, name, &out, end, expected)
}

// Writes an example whose expected answer stands at a place: the place after it.
fn with_expected(
    rt: &impl Print,
    input: &[u8],
    at: usize,
    name: &[u8],
    text: &[u8],
    other: &[u8],
    trace: &[u8],
) -> io::Result<usize> {
    let expected = field_at(input, at);
    let start = expected.start;
    let end = expected.end;
    write_example(rt, name, text, other, trace, &input[start..end])?;
    Ok(end)
}

// Writes an example whose last three fields stand at a place: the place after them.
fn with_text(
    rt: &impl Print,
    input: &[u8],
    at: usize,
    name: &[u8],
    text: &[u8],
) -> io::Result<usize> {
    let other = field_at(input, at);
    let o = other.start;
    let o_end = other.end;
    let trace = field_at(input, o_end);
    let t = trace.start;
    let t_end = trace.end;
    with_expected(
        rt,
        input,
        t_end,
        name,
        text,
        &input[o..o_end],
        &input[t..t_end],
    )
}

// Writes the example at a place: the place after it.
fn one_example(rt: &impl Print, input: &[u8], at: usize) -> io::Result<usize> {
    let name = field_at(input, at);
    let n = name.start;
    let n_end = name.end;
    let text = field_at(input, n_end);
    let t = text.start;
    let t_end = text.end;
    with_text(rt, input, t_end, &input[n..n_end], &input[t..t_end])
}

// All examples.
fn all_examples(rt: &impl Print, input: &[u8]) -> io::Result<()> {
    let mut at = 0;
    while at < input.len() {
        let next = one_example(rt, input, at)?;
        if next <= at {
            return Ok(());
        }
        at = next;
    }
    Ok(())
}

fn main(rt: HostRuntime) -> io::Result<()> {
    let mut input = [0u8; 32768];
    let n = stream::read_full(&mut rt.stdin(), &mut input)?;
    all_examples(&rt, &input[..n])
}
