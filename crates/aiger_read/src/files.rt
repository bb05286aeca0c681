// One pass over a file.
ghost use Rattle.std.specs.Prelude.{◌≡◌, ◌+◌, ◌*◌, ◌≤◌, length, replicate};
ghost use Rattle.aiger_lines.specs.Private.Steps.{Took};
ghost use Rattle.aiger_read.specs.Lines.{undefined};
ghost use Rattle.aiger_read.specs.Files.{file_read};
ghost use Rattle.aiger_read.specs.Private.Steps.{Filled, Headed, HasRoom, most, gate_block, inputs_of, latches_of, outputs_of, gates_of};

use crate::lines::{UNDEFINED, gate_line, input_line, latch_line};
use aiger_lines::{Cursor, Fault, Head, block_at, header_at, literal_due, output_line, store_head};
use netlist::{HEADER, Variable};

// The lines of gates, whose operands stand in a buffer of their own.
fn gate_lines(s: &[u8], ops: &mut [u16], head: Head, from: Cursor) -> Result<Cursor, (Fault, u32)>
    requires { Headed head × (length ops.old ≡ 2 * head.gates) × (from.place ≤ 50000) }
    ensures { Filled (gate_block s.now head ops.old from.free from.at) ops.new from.place result }
{
    let first = Variable(head.inputs + head.latches + 1);
    let last = Variable(head.variables);
    let line = head.inputs as u32 + head.latches as u32 + head.outputs as u32 + 2;
    let mut at = from.at;
    for k in 0..head.gates {
        at = gate_line(s, ops, first, last, at).map_err(|fault| (fault, line + k as u32))?;
    }
    Ok(Cursor {
        free: from.free,
        at: at,
        place: from.place + ops.len(),
    })
}

// All gates, in whatever order their lines come. None is defined yet.
fn all_gates(s: &[u8], ops: &mut [u16], head: Head, from: Cursor) -> Result<Cursor, (Fault, u32)>
    requires { Headed head × (length ops.old ≡ 2 * head.gates) × (from.place ≤ 50000) }
    ensures { Filled (gate_block s.now head (replicate (2 * head.gates) undefined) from.free from.at) ops.new from.place result }
{
    ops.fill(UNDEFINED);
    gate_lines(s, ops, head, from)
}

// From the gates on. Nothing stands after them.
fn gates_at(s: &[u8], net: &mut [u16], head: Head, from: Cursor) -> Result<Cursor, (Fault, u32)>
    requires { Headed head × HasRoom net.old from.place head.gates }
    ensures { Took (gates_of s.now head from.free from.at) net.old net.new from.place result }
{
    let start = from.place;
    let after = start + 2 * head.gates as usize;
    let end = all_gates(s, &mut net[start..after], head, from)?;
    if end.at == s.len() {
        Ok(end)
    } else {
        Err((
            Fault::WrongShape,
            head.variables as u32 + head.outputs as u32 + 2,
        ))
    }
}

// From the outputs on.
fn outputs_at(s: &[u8], net: &mut [u16], head: Head, from: Cursor) -> Result<Cursor, (Fault, u32)>
    requires { Headed head × HasRoom net.old from.place (head.outputs + head.gates) }
    ensures { Took (outputs_of s.now head from.free from.at) net.old net.new from.place result }
{
    let last = Variable(head.variables).literal(true);
    let line = head.inputs as u32 + head.latches as u32 + 2;
    let next = block_at(net, head.outputs, line, from, |_, free, at| {
        output_line(s, last, free, at)
    })?;
    gates_at(s, net, head, next)
}

// From the latches on.
fn latches_at(s: &[u8], net: &mut [u16], head: Head, from: Cursor) -> Result<Cursor, (Fault, u32)>
    requires { Headed head × HasRoom net.old from.place (head.latches + head.outputs + head.gates) }
    ensures { Took (latches_of s.now head from.free from.at) net.old net.new from.place result }
{
    let first = Variable(head.inputs + 1);
    let last = Variable(head.variables).literal(true);
    let line = head.inputs as u32 + 2;
    let next = block_at(net, head.latches, line, from, |k, free, at| {
        latch_line(s, last, literal_due(first, k), free, at)
    })?;
    outputs_at(s, net, head, next)
}

// From the inputs on.
fn inputs_at(s: &[u8], net: &mut [u16], head: Head) -> Result<Cursor, (Fault, u32)>
    requires { Headed head × (length net.old ≡ most) }
    ensures { Took (inputs_of s.now head) net.old net.new 5 result }
{
    let from = Cursor {
        free: 0,
        at: head.next,
        place: HEADER,
    };
    let next = block_at(net, head.inputs, 2, from, |k, free, at| {
        input_line(s, literal_due(Variable(1), k), free, at)
    })?;
    latches_at(s, net, head, next)
}

// The whole file.
pub(crate) fn read_file(s: &[u8], net: &mut [u16]) -> Result<Cursor, (Fault, u32)>
    requires { length net.old ≡ most }
    ensures { Took (file_read s.now) net.old net.new 0 result }
{
    let head = header_at(s, b'a').map_err(|fault| (fault, 1))?;
    store_head(net, head);
    inputs_at(s, net, head)
}
