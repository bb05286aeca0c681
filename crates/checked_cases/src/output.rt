// Writing to standard output.
use std::io;
use text::Refusal;

// Writes bytes.
pub(crate) fn write(rt: &impl Print, s: &[u8]) -> io::Result<()> {
    rt.write_all(s)
}

// Writes a number in decimal.
pub(crate) fn write_number(rt: &impl Print, n: usize) -> io::Result<()> {
    rt.print(n)
}

// Writes bytes, and after them a word in hexadecimal.
pub(crate) fn write_word(rt: &impl Print, before: &[u8], word: u64) -> io::Result<()> {
    write(rt, before)?;
    print!(rt; "{word:016x}")
}

// Writes `refused`, the number and the line.
pub(crate) fn write_refusal(rt: &impl Print, r: Refusal) -> io::Result<()> {
    write(rt, b"refused ")?;
    write_number(rt, r.number as usize)?;
    write(rt, b" ")?;
    write_number(rt, r.line as usize)
}
