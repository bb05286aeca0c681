// Reads the AIGER files of standard input, in either form, and writes what each read answers, a line each.
//
// A case is a line with the file's length in bytes, a blank, how many numbers the buffer has, a tab and a label; and
// then the file. The line written for it is the label; `refused` with number and line, or how many numbers were read and
// the first of them; and whether the rest of the buffer stayed. Of a netlist that was read it goes on: how many bytes its
// packed file has, the first of them, and whether the byte behind them stayed; the refusals of a write into a buffer that
// is one byte short, and of a netlist without its last number; and whether its packed file and its text form read as the
// same netlist. All parted by tabs. cases.py writes the cases and, by a model of its own, what documents 01 and 02 say of
// each.
#![tactic(auto)]

ghost use Rattle.std.specs.Prelude.{◌<◌, ◌≤◌, length, IfSome};

use answers::first;
use std::io;

mod answers;
mod output;

// Room for all cases.
const ROOM: usize = 262144;

// More numbers than a netlist has; the most that a case lends.
const NUMBERS: usize = 8200;

// What stands in a buffer before a call.
const BEFORE: u16 = 60000;

// A case: its label, how many numbers its buffer has, and its file.
#[derive(Clone, Copy)]
struct Case<'a> {
    label: &'a [u8],
    room: usize,
    file: &'a [u8],
}

// The number that an input begins with, and what comes after the byte behind it.
fn split_number(input: &[u8]) -> Option<(usize, &[u8])>
    ensures { IfSome result (λ p. length p.1.now < length input.now) }
{
    let (value, next) = text::read_number(input, 0)?;
    let (_, rest) = input.get(next..)?.split_first()?;
    Some((value, rest))
}

// The case whose file has `size` bytes and whose line goes on with the input, and what comes after it.
fn split_case(input: &[u8], size: usize) -> Option<(Case, &[u8])>
    ensures { IfSome result (λ p. length p.1.now ≤ length input.now) }
{
    let (room, tab) = text::read_number(input, 0)?;
    let line = input.get(tab..)?;
    let end = line.iter().position(|&b| b == b'\n')?;
    let label = line.get(1..end)?;
    let (file, rest) = line[end + 1..].split_at_checked(size)?;
    Some((Case { label, room, file }, rest))
}

// Writes the line of one case.
fn write_case(rt: &impl Print, case: Case) -> io::Result<()> {
    let mut net = [BEFORE; NUMBERS];
    if case.room <= NUMBERS {
        rt.write_all(case.label)?;
        answers::write_read(rt, case.file, &mut net[..case.room], BEFORE)?;
        println!(rt)?;
    }
    Ok(())
}

// All cases. A number that begins none is passed over.
fn cases(rt: &impl Print, input: &[u8]) -> io::Result<()> {
    let mut rest = input;
    while let Some((size, line)) = split_number(rest) {
        rest = line;
        if let Some((case, after)) = split_case(line, size) {
            write_case(rt, case)?;
            rest = after;
        }
    }
    Ok(())
}

// The cases of standard input, which a buffer has room for. It takes an array for the same reason as write_packed.
fn read_cases(rt: &HostRuntime, input: &mut [u8; ROOM]) -> io::Result<()> {
    let n = stream::read_full(&mut rt.stdin(), input)?;
    cases(rt, first(input, n))
}

fn main(rt: HostRuntime) -> io::Result<()> {
    let mut input = [0u8; ROOM];
    read_cases(&rt, &mut input)
}
