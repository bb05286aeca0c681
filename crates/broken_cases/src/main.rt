// Runs the calls for the measurement that broke first over the cases of standard input and writes what they answer, a
// line each.
//
// A case is six fields: its label, the width, which is one byte, the flywheel trace, the handle trace, and the verdict
// bytes of each. A field is a byte, its length, and then that many bytes. The line written for a case is its label;
// `none`, or `refused` with number and line and, for a wrong line, its trace; `at` with the trace in which the part
// stands, its place and its length; and the part in brackets; parted by tabs. cases.py writes the cases and, by hand,
// what document 02, No. 12, says of each. Last come the cases of the largest inputs.
#![tactic(auto)]

use first_broken::{Cause, Found, Side};
use std::io;

mod largest;

// Writes which trace it is.
fn write_trace(rt: &impl Print, side: Side) -> io::Result<()> {
    match side {
        Side::Flywheel => print!(rt; " flywheel"),
        Side::Handle => print!(rt; " handle"),
    }
}

// Writes what the check answered.
fn write_checked(rt: &impl Print, checked: Result<(), Cause>) -> io::Result<()> {
    match checked {
        Ok(()) => print!(rt; "\tnone"),
        Err(cause) => {
            let r = cause.refusal();
            print!(rt; "\trefused {} {}", r.number, r.line)?;
            match cause {
                Cause::FlywheelLine(_) => write_trace(rt, Side::Flywheel),
                Cause::HandleLine(_) => write_trace(rt, Side::Handle),
                _ => Ok(()),
            }
        }
    }
}

// Writes which trace the part stands in, its place and its length.
fn write_found(rt: &impl Print, found: Found) -> io::Result<()> {
    print!(rt; "\tat")?;
    write_trace(rt, found.side)?;
    print!(rt; " {} {}", found.at, found.length)
}

// Writes the bytes of the part.
fn write_part(rt: &impl Print, part: &[u8]) -> io::Result<()> {
    rt.write_all(b"\t[")?;
    rt.write_all(part)?;
    rt.write_all(b"]\n")
}

// Writes what the three calls answer to a width, the flywheel trace, the handle trace, and the verdict bytes of each.
pub(crate) fn write_answers<'a>(
    rt: &impl Print,
    width: usize,
    f: &'a [u8],
    h: &'a [u8],
    fv: &[u8],
    hv: &[u8],
) -> io::Result<()> {
    write_checked(rt, first_broken::check(width, f, h, fv, hv))?;
    write_found(rt, first_broken::find(width, f, h, fv, hv))?;
    write_part(rt, first_broken::first_broken(width, f, h, fv, hv))
}

// The first byte of a text as a number; 0 where it is empty.
fn first(s: &[u8]) -> usize {
    text::byte_at(s, 0) as usize
}

// The bytes of the field at the front of a text; none where the text is too short for it.
fn field(s: &[u8]) -> &[u8] {
    let n = first(s);
    if n < s.len() {
        return &s[1..n + 1];
    }
    &s[..0]
}

// What comes after that field.
fn after(s: &[u8]) -> &[u8] {
    let n = first(s);
    if n < s.len() {
        return &s[n + 1..];
    }
    &s[..0]
}

// Writes the line of the case at the front of a text: how many bytes come after it.
fn write_case(rt: &impl Print, label: &[u8]) -> io::Result<usize> {
    let width = after(label);
    let f = after(width);
    let h = after(f);
    let fv = after(h);
    let hv = after(fv);
    rt.write_all(field(label))?;
    write_answers(
        rt,
        first(field(width)),
        field(f),
        field(h),
        field(fv),
        field(hv),
    )?;
    Ok(after(hv).len())
}

// All cases of standard input.
fn cases(rt: &impl Print, input: &[u8]) -> io::Result<()> {
    let mut at = 0;
    while at < input.len() {
        let left = write_case(rt, &input[at..])?;
        if input.len() - at <= left {
            return Ok(());
        }
        at = input.len() - left;
    }
    Ok(())
}

fn main(rt: HostRuntime) -> io::Result<()> {
    let mut input = [0u8; 8192];
    let n = stream::read_full(&mut rt.stdin(), &mut input)?;
    cases(&rt, &input[..n])?;
    largest::write_largest(&rt)
}
