// The AIGER binary format: the file of a netlist, written into a lent buffer. Its lines are those of aiger, less the
// inputs and the latches' own literals; its gates are byte runs. Knows nothing of graphs.
// Exports that a byte run has the bits of its number and no byte more than are needed, what stands in a file by the
// netlist's numbers, that a netlist is written exactly where there is room for its file, 16 and 12 else, that no file
// has more than 28,706 bytes, and that surplus numbers change nothing.
#![tactic(auto)]

ghost use Rattle.std.specs.Prelude.{◌≡◌, true, false, ◌++◌, ◌+◌, ◌*◌, ◌<◌, ◌≤◌, length, get_or};
ghost use Rattle.text.specs.Writer.{Wrote, Writes, joined};
ghost use Rattle.netlist.specs.Layout.{input_count, latch_count, output_count, gate_count, size_of};
ghost use Rattle.netlist.specs.Literals.{literal_of};
ghost use Rattle.netlist.specs.Valid.{is_netlist};
ghost use Rattle.aiger.specs.Format.{output_line};
ghost use Rattle.aiger.specs.Write.{write_end, write_as};
ghost use Rattle.packed.specs.Runs.{run};
ghost use Rattle.packed.specs.Format.{packed_latch_row, packed_latch, gate_runs, packed_gate, packed_of};
ghost use Rattle.packed.specs.Claims.{WriteMeans};

use aiger::{Cause, put_header, put_literal_row, put_literals, put_two};
use netlist::{HEADER, Header, Literal, Variable, is_netlist};
use text::Writer;

// Appends the byte run of a number: of three bytes at most, for 16 bits have no more.
fn put_run(file: &mut Writer, n: u16)
    ensures { Writes file.old file.new (run n) }
{
    if n < 128 {
        file.byte(n as u8);
    } else {
        file.byte(128 + (n % 128) as u8);
        put_run(file, n / 128);
    }
}

// Appends the line of a latch: the reset 0, which is false's literal, is not written.
fn put_latch_row(file: &mut Writer, next: Literal, reset: Literal)
    ensures { Writes file.old file.new (packed_latch_row false next.0 reset.0) }
{
    if reset.0 == 0 {
        put_literal_row(file, next);
    } else {
        put_two(file, next.0, reset.0);
    }
}

// Appends the two runs of a gate.
fn put_gate_runs(file: &mut Writer, lit: Literal, r0: Literal, r1: Literal)
    requires { (r0.0 ≤ lit.0) × (r1.0 ≤ r0.0) }
    ensures { Writes file.old file.new (gate_runs lit.0 r0.0 r1.0) }
{
    put_run(file, lit.0 - r0.0);
    put_run(file, r0.0 - r1.0);
}

// Appends the line of latch k.
fn put_latch(file: &mut Writer, net: &[u16], k: u16)
    requires { 5 + 2 * k + 1 < length net.now }
    ensures { Writes file.old file.new (packed_latch net.now (λ _. false) k) }
{
    let from = HEADER + 2 * (k as usize);
    let next = net[from];
    let reset = net[from + 1];
    put_latch_row(file, Literal(next), Literal(reset));
}

// Appends the lines of the first `count` latches.
fn put_latches(file: &mut Writer, net: &[u16], count: u16)
    requires { 5 + 2 * count ≤ length net.now }
    ensures { Writes file.old file.new
        (joined (packed_latch net.now (λ _. false)) count) }
{
    for k in 0..count {
        put_latch(file, net, k);
    }
}

// Appends the runs of the gate whose variable is `own` and whose operands stand at `from`: g > r0 >= r1.
fn put_gate(file: &mut Writer, net: &[u16], from: usize, own: Variable)
    requires from_in_bounds { (from + 1 < length net.now) × (own.0 < 32768) }
    requires from_bound { (get_or net.now from 0 < literal_of own.0 false) × (get_or net.now (from + 1) 0 ≤ get_or net.now from 0) }
    ensures { Writes file.old file.new
        (gate_runs (literal_of own.0 false) (get_or net.now from 0) (get_or net.now (from + 1) 0)) }
{
    let r0 = net[from];
    let r1 = net[from + 1];
    let lit = own.literal(false);
    put_gate_runs(file, lit, Literal(r0), Literal(r1));
}

// Appends the runs of a netlist's first `count` gates, whose operands stand from `from` on, and whose variables are
// `first` and those that follow it.
fn put_gates(file: &mut Writer, net: &[u16], from: usize, first: Variable, count: u16)
    requires from_value { (from ≡ 5 + 2 * latch_count net.now + output_count net.now)
        × (first.0 ≡ input_count net.now + latch_count net.now + 1) }
    requires net_value { (is_netlist net.now ≡ true) × (count ≤ gate_count net.now) }
    ensures { Writes file.old file.new (joined (packed_gate net.now) count) }
{
    for k in 0..count {
        put_gate(file, net, from + 2 * (k as usize), Variable(first.0 + k));
    }
}

// Appends the lines of a netlist's outputs, and its gates.
fn put_logic(file: &mut Writer, net: &[u16])
    requires net_in_bounds { (size_of net.now ≤ length net.now)
        × (input_count net.now + latch_count net.now + gate_count net.now ≤ 4095) }
    requires net_value { is_netlist net.now ≡ true }
    ensures { Writes file.old file.new
        (joined (output_line net.now) (output_count net.now)
        ++ joined (packed_gate net.now) (gate_count net.now)) }
{
    let header = Header::of(net);
    let first = Variable(header.inputs + header.latches + 1);
    let operands = header.operands_at();
    put_literals(file, &net[header.output_at()..operands]);
    put_gates(file, net, operands, first, header.gates);
}

// Appends the file of a netlist.
fn put_file(file: &mut Writer, net: &[u16])
    requires net_in_bounds { (size_of net.now ≤ length net.now)
        × (input_count net.now + latch_count net.now + gate_count net.now ≤ 4095) }
    requires net_value { is_netlist net.now ≡ true }
    ensures { Writes file.old file.new (packed_of net.now) }
{
    let header = Header::of(net);
    put_header(file, b"aig ", header);
    put_latches(file, net, header.latches);
    put_logic(file, net);
}

// Fills a buffer from its front with the file of a netlist: the file's length.
fn fill(bytes: &mut [u8], net: &[u16]) -> usize
    requires net_in_bounds { (size_of net.now ≤ length net.now)
        × (input_count net.now + latch_count net.now + gate_count net.now ≤ 4095) }
    requires net_value { is_netlist net.now ≡ true }
    ensures { Wrote bytes.old bytes.new 0 result (packed_of net.now) }
{
    let mut file = Writer::new(bytes);
    put_file(&mut file, net);
    file.at
}

// Writes the file of a netlist to the front of a lent buffer, and answers how many bytes it has. The file is measured
// first, so that a refusal leaves the buffer as it was.
// These are the steps of aiger::write; one function that is passed `put_file` states what that writes at greater length.
pub fn write(net: &[u16], bytes: &mut [u8]) -> Result<usize, Cause>
    ensures bytes_after { write_end result bytes.new
        ≡ write_as (packed_of net.now) net.now bytes.old }
    ensures exact { WriteMeans }
{
    if !is_netlist(net) {
        return Err(Cause::NotNetlist);
    }
    let need = fill(&mut bytes[..0], net);
    if need > bytes.len() {
        return Err(Cause::ShortBuffer);
    }
    Ok(fill(bytes, net))
}
