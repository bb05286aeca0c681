// The monitor's pages for the largest inputs: one of 65,536 bytes whose every cycle is rejected, which gives the
// longest page that there is, and the same with one byte more.
use crate::{page_end, write_front};
use std::io;

const LONGEST: usize = 65536;

const LONGER: usize = 65537;

const PAGE: usize = 250991;

// Byte k of the cycles `1`, a line each.
fn cycle_byte(k: usize) -> u8 {
    if k % 2 == 0 { b'1' } else { b'\n' }
}

// Fills a buffer from a place on with cycles `1`.
fn put_cycles(out: &mut [u8], at: usize) {
    for (k, byte) in out.iter_mut().skip(at).enumerate() {
        *byte = cycle_byte(k);
    }
}

// Where the line of byte i starts, by the byte before it and the start of the line before.
fn line_start(before: u8, i: usize, start: usize) -> usize {
    if before == b'\n' { i } else { start }
}

// Where the last line of a text starts.
fn last_line(s: &[u8]) -> usize {
    let mut start = 0;
    let mut before = b'\n';
    for (i, &b) in s.iter().enumerate() {
        start = line_start(before, i, start);
        before = b;
    }
    start
}

// Writes how many bytes a page has.
fn write_length(rt: &impl Print, n: usize) -> io::Result<()> {
    print!(rt; "{n} bytes\n")
}

// Writes a part of a buffer.
fn write_part(rt: &impl Print, out: &[u8], start: usize, end: usize) -> io::Result<()> {
    if end <= out.len() {
        if start <= end {
            rt.write_all(&out[start..end])?;
        }
    }
    Ok(())
}

// Writes the length of a page, the first n bytes of a buffer, and its last line.
fn write_end(rt: &impl Print, out: &[u8], n: usize) -> io::Result<()> {
    write_length(rt, n)?;
    if n <= out.len() {
        let at = last_line(&out[0..n]);
        write_part(rt, out, at, n)?;
    }
    Ok(())
}

// Fills an input with a graph of one edge that condemns each path, `T` and cycles, and writes the end of its page.
fn write_filled(rt: &impl Print, input: &mut [u8]) -> io::Result<()> {
    let mut out = [0u8; PAGE];
    let mut graph = text::Writer::new(input);
    graph.bytes(b"V\ta\nE\ta\ta\tt\t1\t0\nT\n");
    let at = graph.at;
    put_cycles(input, at);
    let paged = page::monitor_page(input, &mut out);
    write_end(rt, &out, page_end(paged))
}

// Writes both cases, with their labels.
pub(crate) fn write_largest(rt: &impl Print) -> io::Result<()> {
    let mut longest = [0u8; LONGEST];
    let mut longer = [0u8; LONGER];
    rt.write_all(b"m 65,536 bytes of input, every cycle rejected\n")?;
    write_filled(rt, &mut longest)?;
    rt.write_all(b"m 65,537 bytes of input\n")?;
    write_filled(rt, &mut longer)
}
