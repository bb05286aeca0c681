// One pass over a packed file. A number past the buffer's end is dropped, so that a pass over no numbers tells
// how many there are.
ghost use Rattle.std.specs.Prelude.{◌≤◌};
ghost use Rattle.aiger_lines.specs.Private.Steps.{Took, Counted};
ghost use Rattle.packed_read.specs.Files.{read_packed};
ghost use Rattle.packed_read.specs.Private.Steps.{latches_of, outputs_of, gates_of};

use crate::lines::{gate_at, latch_line};
use aiger_lines::{Cursor, Fault, Head, block_at, header_at, literal_due, output_line, store_head};
use netlist::{HEADER, Variable};

// The tag's second byte.
const PACKED: u8 = b'i';

// From the gates on. Nothing stands after them, and no line has their bytes.
fn gates_at(s: &[u8], net: &mut [u16], head: Head, from: Cursor) -> Result<Cursor, (Fault, u32)>
    requires { Counted head × (from.place ≤ 20000) }
    ensures { Took (gates_of s.now head from.free from.at) net.old net.new from.place result }
{
    let first = Variable(head.inputs + head.latches + 1);
    let end = block_at(net, head.gates, 0, from, |k, free, at| {
        gate_at(s, literal_due(first, k), free, at)
    })
    .map_err(|(fault, _)| (fault, 0))?;
    if end.at == s.len() {
        Ok(end)
    } else {
        Err((Fault::WrongShape, 0))
    }
}

// From the outputs on.
fn outputs_at(s: &[u8], net: &mut [u16], head: Head, from: Cursor) -> Result<Cursor, (Fault, u32)>
    requires { Counted head × (from.place ≤ 10000) }
    ensures { Took (outputs_of s.now head from.free from.at) net.old net.new from.place result }
{
    let last = Variable(head.variables).literal(true);
    let line = head.latches as u32 + 2;
    let next = block_at(net, head.outputs, line, from, |_, free, at| {
        output_line(s, last, free, at)
    })?;
    gates_at(s, net, head, next)
}

// From the latches on.
fn latches_at(s: &[u8], net: &mut [u16], head: Head) -> Result<Cursor, (Fault, u32)>
    requires { Counted head }
    ensures { Took (latches_of s.now head) net.old net.new 5 result }
{
    let first = Variable(head.inputs + 1);
    let last = Variable(head.variables).literal(true);
    let from = Cursor {
        free: 0,
        at: head.next,
        place: HEADER,
    };
    let next = block_at(net, head.latches, 2, from, |k, free, at| {
        latch_line(s, last, literal_due(first, k), free, at)
    })?;
    outputs_at(s, net, head, next)
}

// The whole file.
pub(crate) fn read_file(s: &[u8], net: &mut [u16]) -> Result<Cursor, (Fault, u32)>
    ensures { Took (read_packed s.now) net.old net.new 0 result }
{
    let head = header_at(s, PACKED).map_err(|fault| (fault, 1))?;
    store_head(net, head);
    latches_at(s, net, head)
}
