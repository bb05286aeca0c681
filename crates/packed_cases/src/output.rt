// Writing to standard output.
use std::io;
use text::Refusal;

// How many numbers and bytes of an answer are shown.
const SHOWN: usize = 48;

// Writes a tab, `refused`, the number and the line.
pub(crate) fn write_refusal(rt: &impl Print, r: Refusal) -> io::Result<()> {
    print!(rt; "\trefused {} {}", r.number, r.line)
}

// Writes the first numbers of a netlist, each after a blank.
pub(crate) fn write_numbers(rt: &impl Print, net: &[u16]) -> io::Result<()> {
    for &n in net.iter().take(SHOWN) {
        print!(rt; " {n}")?;
    }
    Ok(())
}

// Writes the first bytes of a file, each after a blank and in two hexadecimal digits.
pub(crate) fn write_bytes(rt: &impl Print, file: &[u8]) -> io::Result<()> {
    for &b in file.iter().take(SHOWN) {
        print!(rt; " {b:02x}")?;
    }
    Ok(())
}
