// What an example gives, appended to a writer.
use calls::Tally;
use simulator::Ran;
use text::{Refusal, Writer};

// Room for the numbers of any netlist, and for its latch and value words.
const NUMBERS: usize = 8195;

const WORDS: usize = 4096;

// Room for the files and the verdicts of the examples.
const FILE: usize = 1024;

const CYCLES: usize = 64;

// Appends `refused`, the number and the line.
fn put_refusal(out: &mut Writer, r: Refusal) {
    out.bytes(b"refused ");
    out.number(r.number as usize);
    out.byte(b' ');
    out.number(r.line as usize);
}

// Appends a number of gates.
fn put_gates(out: &mut Writer, gates: usize) {
    out.number(gates);
    out.bytes(b" gates");
}

// Appends what a build of a graph answers.
fn put_graph(out: &mut Writer, graph: &[u8]) {
    let mut net = [0u16; NUMBERS];
    match builder::build(graph, false, &mut net) {
        Ok(gates) => put_gates(out, gates),
        Err(cause) => put_refusal(out, cause.refusal()),
    }
}

// Appends whether a file that was written again is the same text, or the other one that was expected.
fn put_same(out: &mut Writer, again: &[u8], text: &[u8], other: &[u8]) {
    if again == text {
        out.bytes(b"same text, ");
    } else if again == other {
        out.bytes(b"written as expected, ");
    } else {
        out.bytes(b"another text, ");
    }
}

// Appends how a file comes back when its netlist is written.
fn put_again(out: &mut Writer, net: &[u16], text: &[u8], other: &[u8]) {
    let mut again = [0u8; FILE];
    match aiger::write(net, &mut again) {
        Ok(end) => {
            if end <= FILE {
                put_same(out, &again[..end], text, other);
            }
        }
        Err(cause) => put_refusal(out, cause.refusal()),
    }
}

// Appends verdict bytes, each as a number.
fn put_verdicts(out: &mut Writer, verdicts: &[u8]) {
    for &verdict in verdicts {
        out.number(verdict as usize);
    }
}

// Appends what a run answered and left in its verdict buffer.
fn put_ran(out: &mut Writer, ran: Ran, verdicts: &[u8]) {
    let outcome = ran.outcome;
    let tally = ran.tally;
    let cycles = tally.cycles as usize;
    match outcome {
        Ok(_) => {
            if cycles <= verdicts.len() {
                put_verdicts(out, &verdicts[..cycles]);
            }
        }
        Err(cause) => put_refusal(out, cause.refusal()),
    }
}

// Appends the verdicts of a netlist, started, on a trace.
fn put_run(out: &mut Writer, net: &[u16], trace: &[u8]) {
    let mut latches = [0u64; WORDS];
    let mut values = [0u64; WORDS];
    let mut verdicts = [0u8; CYCLES];
    let tally = Tally {
        cycles: 0,
        rejected: 0,
        checked: 0,
    };
    let started = simulator::start(net, &mut latches, tally);
    let ran = simulator::run(
        net,
        trace,
        &mut latches,
        &mut values,
        &mut verdicts,
        started.tally,
    );
    put_ran(out, ran, &verdicts);
}

// Appends how a netlist is written, and what it does on a trace.
fn put_netlist(out: &mut Writer, net: &[u16], text: &[u8], other: &[u8], trace: &[u8]) {
    put_again(out, net, text, other);
    put_run(out, net, trace);
}

// Appends what reading a file answers, and what its netlist does.
fn put_file(out: &mut Writer, text: &[u8], other: &[u8], trace: &[u8]) {
    let mut net = [0u16; NUMBERS];
    match aiger_file::read(text, &mut net) {
        Ok(_) => put_netlist(out, &net, text, other, trace),
        Err(cause) => put_refusal(out, cause.refusal()),
    }
}

// Writes what an example gives to the front of a buffer: its length.
pub(crate) fn put_answer(
    out: &mut [u8],
    kind: u8,
    text: &[u8],
    other: &[u8],
    trace: &[u8],
) -> usize {
    let mut answer = Writer::new(out);
    if kind == b'g' {
        put_graph(&mut answer, text);
    } else {
        put_file(&mut answer, text, other, trace);
    }
    answer.at
}
