// The AIGER ASCII format: the file of a netlist, written into a lent buffer, with the writers of those of its
// lines that the binary format has too. Knows nothing of graphs.
// Exports that a netlist is written exactly where there is room for its file, that no file has more than
// 65,536 bytes, and that surplus numbers change nothing.
#![tactic(auto)]

ghost use Rattle.std.specs.Prelude.{◌≡◌, false, [], ◌∷◌, ◌++◌, ◌+◌, ◌*◌, ◌<◌, ◌≤◌, length, get_or};
ghost use Rattle.text.specs.Numbers.{digits};
ghost use Rattle.text.specs.Writer.{Wrote, Writes, joined};
ghost use Rattle.netlist.specs.Layout.{input_count, latch_count, output_count, gate_count, size_of, latch_variable};
ghost use Rattle.netlist.specs.Literals.{literal_of};
ghost use Rattle.aiger.specs.Rows.{line, literal_row, latch_row, gate_row};
ghost use Rattle.aiger.specs.Format.{input_line, latch_line, output_line, gate_line, file_of};
ghost use Rattle.aiger.specs.Write.{refusal_of, write_end, write_of};
ghost use Rattle.aiger.specs.Claims.{WriteMeans};

use netlist::{HEADER, Header, Literal, Variable, is_netlist};
use text::{Refusal, Writer};

// Why a write is refused.
#[derive(Clone, Copy)]
pub enum Cause {
    // The buffer is shorter than the file.
    ShortBuffer,
    // The numbers lent are no netlist.
    NotNetlist,
}

impl Cause {
    // The number and line in which a refusal is reported.
    pub fn refusal(self) -> Refusal
        ensures { result ≡ refusal_of self }
    {
        match self {
            Cause::ShortBuffer => Refusal {
                number: 12,
                line: 0,
            },
            Cause::NotNetlist => Refusal {
                number: 16,
                line: 0,
            },
        }
    }
}

// Appends a number and the byte after it: a blank, or the LF of its line.
fn put_field(text: &mut Writer, number: u16, after: u8)
    ensures { Writes text.old text.new (digits number ++ (after ∷ [])) }
{
    text.number(number as usize);
    text.byte(after);
}

// Appends a line of two numbers.
pub fn put_two(text: &mut Writer, a: u16, b: u16)
    ensures { Writes text.old text.new (line a (b ∷ [])) }
{
    put_field(text, a, b' ');
    put_field(text, b, b'\n');
}

// Appends a line of three numbers.
fn put_three(text: &mut Writer, a: u16, b: u16, c: u16)
    ensures { Writes text.old text.new (line a (b ∷ c ∷ [])) }
{
    put_field(text, a, b' ');
    put_two(text, b, c);
}

// Appends the header line: the form's tag with its blank, and the five numbers.
pub fn put_header(text: &mut Writer, tag: &[u8], header: Header)
    ensures { Writes text.old text.new
        (tag.now ++ line header.maximum (header.inputs ∷ header.latches ∷ header.outputs ∷ header.gates ∷ [])) }
{
    text.bytes(tag);
    put_field(text, header.maximum, b' ');
    put_field(text, header.inputs, b' ');
    put_three(text, header.latches, header.outputs, header.gates);
}

// Appends the line of an input or an output.
pub fn put_literal_row(text: &mut Writer, lit: Literal)
    ensures { Writes text.old text.new (literal_row lit.0) }
{
    put_field(text, lit.0, b'\n');
}

// Appends the lines of literals that stand one after the other.
pub fn put_literals(text: &mut Writer, literals: &[u16])
    ensures { Writes text.old text.new
        (joined (λ k. literal_row (get_or literals.now k 0)) (length literals.now)) }
{
    for &lit in literals {
        put_literal_row(text, Literal(lit));
    }
}

// Appends the line of a latch: the reset 0, which is false's literal, is not written.
fn put_latch_row(text: &mut Writer, lit: Literal, next: Literal, reset: Literal)
    ensures { Writes text.old text.new (latch_row false lit.0 next.0 reset.0) }
{
    if reset.0 == 0 {
        put_two(text, lit.0, next.0);
    } else {
        put_three(text, lit.0, next.0, reset.0);
    }
}

// Appends the line of a gate.
fn put_gate_row(text: &mut Writer, lit: Literal, r0: Literal, r1: Literal)
    ensures { Writes text.old text.new (gate_row lit.0 r0.0 r1.0) }
{
    put_three(text, lit.0, r0.0, r1.0);
}

// Appends the lines of the first `count` inputs.
fn put_inputs(text: &mut Writer, count: u16)
    requires { 1 + count ≤ 32768 }
    ensures { Writes text.old text.new (joined input_line count) }
{
    for k in 0..count {
        let lit = Variable(1 + k).literal(false);
        put_literal_row(text, lit);
    }
}

// Appends the line of latch k, whose variable is `own`.
fn put_latch(text: &mut Writer, net: &[u16], k: u16, own: Variable)
    requires { (own.0 ≡ latch_variable net.now k) × (own.0 < 32768) × (5 + 2 * k + 1 < length net.now) }
    ensures { Writes text.old text.new
        (latch_line net.now (λ _. false) k) }
{
    let from = HEADER + 2 * (k as usize);
    let next = net[from];
    let reset = net[from + 1];
    let lit = own.literal(false);
    put_latch_row(text, lit, Literal(next), Literal(reset));
}

// Appends the lines of the first `count` latches, whose variables are `first` and those that follow it.
fn put_latches(text: &mut Writer, net: &[u16], first: Variable, count: u16)
    requires first_value { first.0 ≡ input_count net.now + 1 }
    requires count_in_bounds { (5 + 2 * count ≤ length net.now) × (first.0 + count ≤ 32768) }
    ensures { Writes text.old text.new
        (joined (latch_line net.now (λ _. false)) count) }
{
    for k in 0..count {
        put_latch(text, net, k, Variable(first.0 + k));
    }
}

// Appends the line of the gate whose variable is `own` and whose operands stand at `from`.
fn put_gate(text: &mut Writer, net: &[u16], from: usize, own: Variable)
    requires { (from + 1 < length net.now) × (own.0 < 32768) }
    ensures { Writes text.old text.new
        (gate_row (literal_of own.0 false) (get_or net.now from 0) (get_or net.now (from + 1) 0)) }
{
    let r0 = net[from];
    let r1 = net[from + 1];
    let lit = own.literal(false);
    put_gate_row(text, lit, Literal(r0), Literal(r1));
}

// Appends the lines of the first `count` gates, whose operands stand from `from` on, and whose
// variables are `first` and those that follow it.
fn put_gates(text: &mut Writer, net: &[u16], from: usize, first: Variable, count: u16)
    requires from_value { (from ≡ 5 + 2 * latch_count net.now + output_count net.now)
        × (first.0 ≡ input_count net.now + latch_count net.now + 1) }
    requires count_in_bounds { (from + 2 * count ≤ length net.now) × (first.0 + count ≤ 32768) }
    ensures { Writes text.old text.new (joined (gate_line net.now) count) }
{
    for k in 0..count {
        put_gate(text, net, from + 2 * (k as usize), Variable(first.0 + k));
    }
}

// Appends the lines of the outputs and the gates.
fn put_logic(text: &mut Writer, net: &[u16])
    requires { (size_of net.now ≤ length net.now)
        × (input_count net.now + latch_count net.now + gate_count net.now ≤ 4095) }
    ensures { Writes text.old text.new
        (joined (output_line net.now) (output_count net.now)
        ++ joined (gate_line net.now) (gate_count net.now)) }
{
    let header = Header::of(net);
    let first = Variable(header.inputs + header.latches + 1);
    let operands = header.operands_at();
    put_literals(text, &net[header.output_at()..operands]);
    put_gates(text, net, operands, first, header.gates);
}

// Appends the file of a netlist.
fn put_file(text: &mut Writer, net: &[u16])
    requires { (size_of net.now ≤ length net.now)
        × (input_count net.now + latch_count net.now + gate_count net.now ≤ 4095) }
    ensures { Writes text.old text.new (file_of net.now) }
{
    let header = Header::of(net);
    put_header(text, b"aag ", header);
    put_inputs(text, header.inputs);
    put_latches(text, net, Variable(header.inputs + 1), header.latches);
    put_logic(text, net);
}

// Fills a buffer from its front with the file of a netlist: the file's length.
fn fill(text: &mut [u8], net: &[u16]) -> usize
    requires { (size_of net.now ≤ length net.now)
        × (input_count net.now + latch_count net.now + gate_count net.now ≤ 4095) }
    ensures { Wrote text.old text.new 0 result (file_of net.now) }
{
    let mut file = Writer::new(text);
    put_file(&mut file, net);
    file.at
}

// Writes the file of a netlist to the front of a lent buffer, and answers how many bytes it has. The file is measured
// first, so that a refusal leaves the buffer as it was.
pub fn write(net: &[u16], text: &mut [u8]) -> Result<usize, Cause>
    ensures text_after { write_end result text.new ≡ write_of net.now text.old }
    ensures exact { WriteMeans }
{
    if !is_netlist(net) {
        return Err(Cause::NotNetlist);
    }
    let need = fill(&mut text[..0], net);
    if need > text.len() {
        return Err(Cause::ShortBuffer);
    }
    Ok(fill(text, net))
}
