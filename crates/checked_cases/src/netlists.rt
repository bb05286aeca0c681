// The netlist of a case, and its file.
ghost use Rattle.std.specs.Prelude.{◌<◌};

use crate::fields::{after, field, number_in};
use crate::output::{write, write_number, write_refusal};
use crate::runs;
use std::io;

// Room for the numbers of any netlist, and for any file.
const NUMBERS: usize = 8195;

const FILE: usize = 65536;

// What sums of bytes are taken modulo, a prime number, and the factor of what is before a byte.
const PRIME: usize = 4294967291;

const FACTOR: usize = 257;

// Writes a number and what follows it.
fn write_counted(rt: &impl Print, n: usize, what: &[u8]) -> io::Result<()> {
    write_number(rt, n)?;
    write(rt, what)
}

// Builds the monitor of a graph and writes the answer: whether there is a netlist.
fn build(rt: &impl Print, graph: &[u8], checked: bool, net: &mut [u16]) -> io::Result<bool> {
    let built = builder::build(graph, checked, net);
    match built {
        Ok(gates) => {
            write_counted(rt, gates, b" gates")?;
            Ok(true)
        }
        Err(cause) => {
            write_refusal(rt, cause.refusal())?;
            Ok(false)
        }
    }
}

// Reads a file and writes the answer: whether there is a netlist.
fn read(rt: &impl Print, file: &[u8], net: &mut [u16]) -> io::Result<bool> {
    let outcome = aiger_read::read(file, net);
    match outcome {
        Ok(numbers) => {
            write_counted(rt, numbers, b" numbers read")?;
            Ok(true)
        }
        Err(cause) => {
            write_refusal(rt, cause.refusal())?;
            Ok(false)
        }
    }
}

// Builds or reads, by the first byte of a kind.
fn make(rt: &impl Print, kind: u8, text: &[u8], net: &mut [u16]) -> io::Result<bool> {
    if kind == b'f' {
        read(rt, text, net)
    } else {
        build(rt, text, kind == b'c', net)
    }
}

// The same with the first n numbers of a buffer lent, or all of it where it is shorter.
fn make_within(
    rt: &impl Print,
    kind: u8,
    text: &[u8],
    net: &mut [u16],
    n: usize,
) -> io::Result<bool> {
    if n <= net.len() {
        make(rt, kind, text, &mut net[0..n])
    } else {
        make(rt, kind, text, net)
    }
}

// Writes how many numbers the file of a netlist has when it is read, and whether they are the netlist's.
fn write_again(rt: &impl Print, net: &[u16], file: &[u8]) -> io::Result<()> {
    let mut again = [0u16; NUMBERS];
    let outcome = aiger_read::read(file, &mut again);
    match outcome {
        Ok(numbers) => {
            if net == again.as_slice() {
                write_counted(rt, numbers, b" numbers")
            } else {
                write_counted(rt, numbers, b" OTHER NUMBERS")
            }
        }
        Err(cause) => write_refusal(rt, cause.refusal()),
    }
}

// A sum of bytes with one byte more.
fn sum_with(sum: usize, b: u8) -> usize
    requires { sum < 4294967291 }
    ensures { result < 4294967291 }
{
    (sum * FACTOR + b as usize) % PRIME
}

// A sum of bytes that depends on their order.
fn sum_of(s: &[u8]) -> usize {
    let mut sum: usize = 0;
    for &b in s {
        sum = sum_with(sum, b);
    }
    sum
}

// Writes a byte of a file, an LF as a comma.
fn write_byte(rt: &impl Print, b: u8) -> io::Result<()> {
    if b == b'\n' {
        write(rt, b",")
    } else {
        write(rt, &[b])
    }
}

// Writes a file, each LF as a comma.
fn write_file(rt: &impl Print, file: &[u8]) -> io::Result<()> {
    for &b in file {
        write_byte(rt, b)?;
    }
    Ok(())
}

// Writes what is said of a netlist's file, and the file where it is to be shown.
fn write_filed(rt: &impl Print, net: &[u16], file: &[u8], shown: bool) -> io::Result<()> {
    write_again(rt, net, file)?;
    write(rt, b", sum ")?;
    write_number(rt, sum_of(file))?;
    if shown {
        write(rt, b", ")?;
        write_file(rt, file)?;
    }
    Ok(())
}

// Makes the file of a netlist, and writes what is said of it.
fn write_written(rt: &impl Print, net: &[u16], shown: bool) -> io::Result<()> {
    let mut file = [0u8; FILE];
    let written = aiger::write(net, &mut file);
    write(rt, b", ")?;
    match written {
        Ok(end) => {
            if end <= FILE {
                write_filed(rt, net, &file[0..end], shown)?;
            }
            Ok(())
        }
        Err(cause) => write_refusal(rt, cause.refusal()),
    }
}

// Writes what a case of a kind gives; `given` are the fields after the kind.
pub(crate) fn write_answer(rt: &impl Print, kind: &[u8], given: &[u8]) -> io::Result<()> {
    let mut net = [0u16; NUMBERS];
    let lent = after(given);
    let asked = text::byte_at(kind, 1);
    let source = text::byte_at(kind, 0);
    if make_within(rt, source, field(given), &mut net, number_in(lent))? {
        write_written(rt, &net, asked == b'a')?;
        if asked == b'r' {
            runs::write_runs(rt, &net, after(lent))?;
        }
    }
    Ok(())
}
