// What a case gives.
use crate::output::{write_bytes, write_numbers, write_refusal};
use std::io;

// Room for every file, and for the numbers of every netlist.
const FILE: usize = 65537;

const NUMBERS: usize = 8195;

// What stands in a file's buffer before a write.
const UNWRITTEN: u8 = 255;

// The first n elements of a buffer, or all where it has fewer.
pub(crate) fn first<T>(s: &[T], n: usize) -> &[T] {
    &s[..n.min(s.len())]
}

// Writes whether a buffer stayed as it was from a place on.
fn write_rest(rt: &impl Print, net: &[u16], from: usize, before: u16) -> io::Result<()> {
    if net.iter().skip(from).all(|&number| number == before) {
        print!(rt; "\tkept")
    } else {
        print!(rt; "\tCHANGED")
    }
}

// Writes the length of a file and its first bytes, and whether the byte behind it stayed.
fn write_file(rt: &impl Print, file: &[u8], end: usize) -> io::Result<()> {
    print!(rt; "\t{end}")?;
    write_bytes(rt, first(file, end))?;
    if text::byte_at(file, end) == UNWRITTEN {
        print!(rt; " kept")
    } else {
        print!(rt; " CHANGED")
    }
}

// Writes what a packed write into a buffer answers where it should be refused.
fn write_refused(rt: &impl Print, net: &[u16], file: &mut [u8]) -> io::Result<()> {
    match packed::write(net, file) {
        Ok(_) => print!(rt; "\tWRITTEN"),
        Err(cause) => write_refusal(rt, cause.refusal()),
    }
}

// Writes the refusal of a packed write into a buffer that is one byte short.
fn write_short(rt: &impl Print, net: &[u16], file: &mut [u8], end: usize) -> io::Result<()> {
    if 1 <= end {
        let short = (end - 1).min(file.len());
        write_refused(rt, net, &mut file[..short])?;
    }
    Ok(())
}

// Writes the refusal of a packed write of a netlist without its last number.
fn write_cut(rt: &impl Print, net: &[u16], file: &mut [u8]) -> io::Result<()> {
    if 1 <= net.len() {
        write_refused(rt, first(net, net.len() - 1), file)?;
    }
    Ok(())
}

// Whether a file reads as a netlist.
fn reads_as(file: &[u8], net: &[u16]) -> bool {
    let mut read = [0u16; NUMBERS];
    match aiger_file::read(file, &mut read) {
        Ok(n) => first(&read, n) == net,
        Err(_) => false,
    }
}

// Whether the text form of a netlist, written into a buffer, reads as it.
fn text_reads_as(net: &[u16], file: &mut [u8]) -> bool {
    match aiger::write(net, file) {
        Ok(end) => reads_as(first(file, end), net),
        Err(_) => false,
    }
}

// Writes whether the packed file of a netlist and its text form read as it.
fn write_same(rt: &impl Print, packed: bool, text: bool) -> io::Result<()> {
    if !packed {
        print!(rt; "\tPACKED DIFFERS")
    } else if !text {
        print!(rt; "\tTEXT DIFFERS")
    } else {
        print!(rt; "\tsame")
    }
}

// Reads both forms of a netlist. A buffer has the packed one, of `end` bytes, and is then used for the other.
fn write_both(rt: &impl Print, net: &[u16], file: &mut [u8], end: usize) -> io::Result<()> {
    let packed = reads_as(first(file, end), net);
    let text = text_reads_as(net, file);
    write_same(rt, packed, text)
}

// Writes what is made of a netlist without surplus, whose packed file of `end` bytes a buffer has.
fn write_written(rt: &impl Print, net: &[u16], file: &mut [u8], end: usize) -> io::Result<()> {
    write_file(rt, file, end)?;
    write_short(rt, net, file, end)?;
    write_cut(rt, net, file)?;
    write_both(rt, net, file, end)
}

// Writes what is made of a netlist without surplus, in a buffer that has no file yet. It takes an array, whose type tells
// the length, so that no proof counts 65,537 elements.
fn write_packed(rt: &impl Print, net: &[u16], file: &mut [u8; FILE]) -> io::Result<()> {
    match packed::write(net, file) {
        Ok(end) => write_written(rt, net, file, end),
        Err(cause) => write_refusal(rt, cause.refusal()),
    }
}

// Writes what is made of a netlist without surplus.
fn write_forms(rt: &impl Print, net: &[u16]) -> io::Result<()> {
    let mut file = [UNWRITTEN; FILE];
    write_packed(rt, net, &mut file)
}

// Writes the netlist that was read into a buffer, of n numbers.
fn write_netlist(rt: &impl Print, net: &[u16], n: usize, before: u16) -> io::Result<()> {
    let read = first(net, n);
    print!(rt; "\t{n}:")?;
    write_numbers(rt, read)?;
    write_rest(rt, net, n, before)?;
    write_forms(rt, read)
}

// Writes what a read of a file into a buffer answers, all of whose numbers are the given one.
pub(crate) fn write_read(
    rt: &impl Print,
    file: &[u8],
    net: &mut [u16],
    before: u16,
) -> io::Result<()> {
    match aiger_file::read(file, net) {
        Ok(n) => write_netlist(rt, net, n, before),
        Err(cause) => {
            write_refusal(rt, cause.refusal())?;
            write_rest(rt, net, 0, before)
        }
    }
}
