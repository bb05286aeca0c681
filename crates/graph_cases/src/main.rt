// Runs the reader of graph text over the cases of standard input and writes what it answers, a line each.
//
// A case is a line with its length in bytes, a tab and its label, and then that many bytes of graph text.
// cases.py writes the cases and, by hand, what document 01 says of each.
#![tactic(auto)]

ghost use Rattle.std.specs.Prelude.{IfSome, ◌≤◌, ◌<◌, length};

use graph::{Cause, CheckedGraph};
use std::io;
use text::{Line, Writer};

// Appends a tab and a number.
fn put_field(line: &mut Writer, n: usize) {
    line.byte(b'\t');
    line.number(n);
}

// Appends what the reader answered.
fn put_answer(line: &mut Writer, answer: Result<CheckedGraph, Cause>) {
    match answer {
        Ok(g) => {
            line.bytes(b"\tok");
            put_field(line, g.signals);
            put_field(line, g.constants);
            put_field(line, g.vertices);
            put_field(line, g.edges);
        }
        Err(cause) => {
            let r = cause.refusal();
            line.bytes(b"\trefused");
            put_field(line, r.number as usize);
            put_field(line, r.line as usize);
        }
    }
}

// Writes the line of a case, where it has at most 256 bytes.
fn write_case(rt: &impl Print, case: Case<'_>) -> io::Result<()> {
    let mut out = [0u8; 256];
    let mut line = Writer::new(&mut out);
    line.bytes(case.label);
    put_answer(&mut line, graph::read_graph(case.graph));
    line.byte(b'\n');
    let end = line.at;
    match out.get(..end) {
        Some(whole) => rt.write_all(whole),
        None => Ok(()),
    }
}

// A case: its label, its graph text, and the place after it.
#[derive(Clone, Copy)]
struct Case<'a> {
    label: &'a [u8],
    graph: &'a [u8],
    next: usize,
}

// The case at a place.
fn case_at(input: &[u8], at: usize) -> Option<Case<'_>>
    ensures { IfSome result (λ c. (at < c.next) × (c.next ≤ length input.now)) }
{
    let (length, tab) = text::read_number(input, at)?;
    let Line::Ended(end) = text::line_at(input, tab) else {
        return None;
    };
    let label = input.get(tab + 1..end)?;
    let start = end + 1;
    let graph = input.get(start..)?.get(..length)?;
    Some(Case {
        label,
        graph,
        next: start + length,
    })
}

// All cases.
fn cases(rt: &impl Print, input: &[u8]) -> io::Result<()> {
    let mut at = 0;
    while let Some(case) = case_at(input, at) {
        write_case(rt, case)?;
        at = case.next;
    }
    Ok(())
}

fn main(rt: HostRuntime) -> io::Result<()> {
    let mut input = [0u8; 131072];
    let n = stream::read_full(&mut rt.stdin(), &mut input)?;
    cases(&rt, &input[..n])
}
