// Runs the page functions over the cases of standard input and writes, for each, its label and the page as it is.
//
// A case is a line with its length in bytes, a tab, `m` for the monitor's page, `a` for that of AIGER text or `p` for that
// of AIGER in the binary format, and the rest of its label; then that many bytes of input. cases.py writes the cases and,
// by hand, the pages that document 01 asks for, with the verdict of document 02. Each page is asked for three times, into
// a buffer with surplus, one of just its length and one a byte shorter; a line in capitals says where an answer or a
// buffer is not what it must be. Last come the cases of the largest inputs.
#![tactic(auto)]

use page::Cause;
use std::io;
use text::Line;

mod largest;

// What each byte of a buffer is before a page is written.
const FILL: u8 = 165;

// Room for the page of a case on standard input.
const ROOM: usize = 2048;

// The page of the kind that a byte names.
fn page_of(kind: u8, input: &[u8], out: &mut [u8]) -> Result<usize, Cause> {
    if kind == b'm' {
        page::monitor_page(input, out)
    } else if kind == b'p' {
        page::packed_page(input, out)
    } else {
        page::aiger_page(input, out)
    }
}

// Writes the first n bytes of a buffer.
pub(crate) fn write_front(rt: &impl Print, out: &[u8], n: usize) -> io::Result<()> {
    if n <= out.len() {
        rt.write_all(&out[0..n])?;
    }
    Ok(())
}

// Whether a buffer holds, from place n on, what it held before.
fn untouched(out: &[u8], n: usize) -> bool {
    let fresh = [FILL; ROOM];
    if n > out.len() {
        return false;
    }
    if n > ROOM {
        return false;
    }
    check::same(&out[n..], &fresh[n..])
}

// Whether an answer is refusal 12, at line 0.
fn is_short(paged: Result<usize, Cause>) -> bool {
    match paged {
        Ok(_) => false,
        Err(cause) => {
            let r = cause.refusal();
            if r.number == 12 { r.line == 0 } else { false }
        }
    }
}

// How many bytes a page has; 0, which no page has, for a refusal.
pub(crate) fn page_end(paged: Result<usize, Cause>) -> usize {
    match paged {
        Ok(end) => end,
        Err(_) => 0,
    }
}

// The page in the first n bytes of a buffer, or in all of it where it is shorter.
fn page_within(kind: u8, input: &[u8], out: &mut [u8], n: usize) -> Result<usize, Cause> {
    if n <= out.len() {
        page_of(kind, input, &mut out[0..n])
    } else {
        page_of(kind, input, out)
    }
}

// Whether a buffer of one byte less than the page's n is refused and left as it was.
fn short_holds(kind: u8, input: &[u8], n: usize) -> bool {
    let mut out = [FILL; ROOM];
    if n < 1 {
        return false;
    }
    let paged = page_within(kind, input, &mut out, n - 1);
    if is_short(paged) {
        untouched(&out, 0)
    } else {
        false
    }
}

// Whether a buffer holds a page first, and then what it held before.
fn holds(out: &[u8], page: &[u8]) -> bool {
    let n = page.len();
    if n > out.len() {
        return false;
    }
    if check::same(page, &out[0..n]) {
        untouched(out, n)
    } else {
        false
    }
}

// Whether a buffer of just the page's length takes the page.
fn exact_holds(kind: u8, input: &[u8], page: &[u8]) -> bool {
    let mut out = [FILL; ROOM];
    let n = page.len();
    let paged = page_within(kind, input, &mut out, n);
    if page_end(paged) == n {
        holds(&out, page)
    } else {
        false
    }
}

// Writes a mark where something does not hold.
fn mark(rt: &impl Print, holds: bool, bytes: &[u8]) -> io::Result<()> {
    if !holds {
        rt.write_all(bytes)?;
    }
    Ok(())
}

// Tries buffers of a page's length and one byte less.
fn try_lengths(rt: &impl Print, kind: u8, input: &[u8], page: &[u8]) -> io::Result<()> {
    mark(rt, exact_holds(kind, input, page), b"EXACT LENGTH FAILS\n")?;
    mark(
        rt,
        short_holds(kind, input, page.len()),
        b"SHORT BUFFER FAILS\n",
    )
}

// Writes a page, the first n bytes of a buffer, and a mark for each thing that does not hold of it.
fn write_page(rt: &impl Print, kind: u8, input: &[u8], out: &[u8], n: usize) -> io::Result<()> {
    if n <= out.len() {
        let page = &out[0..n];
        rt.write_all(page)?;
        mark(rt, untouched(out, n), b"SURPLUS CHANGED\n")?;
        try_lengths(rt, kind, input, page)
    } else {
        mark(rt, false, b"PAGE TOO LONG\n")
    }
}

// Writes what one case gives.
fn write_case(rt: &impl Print, label: &[u8], input: &[u8]) -> io::Result<()> {
    let kind = text::byte_at(label, 0);
    rt.write_all(label)?;
    rt.write_all(b"\n")?;
    let mut out = [FILL; ROOM];
    let paged = page_of(kind, input, &mut out);
    write_page(rt, kind, input, &out, page_end(paged))
}

// The case at a place: the place after it, or the same place where there is none.
fn one_case(rt: &impl Print, input: &[u8], at: usize) -> io::Result<usize> {
    let Some((length, tab)) = text::read_number(input, at) else {
        return Ok(at);
    };
    let Line::Ended(end) = text::line_at(input, tab) else {
        return Ok(at);
    };
    if end <= tab {
        return Ok(at);
    }
    if input.len() <= end {
        return Ok(at);
    }
    let label = tab + 1;
    let start = end + 1;
    if input.len() - start < length {
        return Ok(at);
    }
    let next = start + length;
    write_case(rt, &input[label..end], &input[start..next])?;
    Ok(next)
}

// All cases of standard input.
fn cases(rt: &impl Print, input: &[u8]) -> io::Result<()> {
    let mut at = 0;
    while at < input.len() {
        let next = one_case(rt, input, at)?;
        if next <= at {
            return Ok(());
        }
        at = next;
    }
    Ok(())
}

fn main(rt: HostRuntime) -> io::Result<()> {
    let mut input = [0u8; 196608];
    let n = stream::read_full(&mut rt.stdin(), &mut input)?;
    cases(&rt, &input[..n])?;
    largest::write_largest(&rt)
}
