// The sheet program. Standard input holds a line with the graph name, and then what the monitor program reads; standard
// output gets the session page of the judgement, or the refusal. What is printed is the page of `sheet_page::sheet_page`.
#![tactic(auto)]

ghost use Rattle.std.specs.Prelude.{◌≡◌, List, ℕ, ◌≤◌, length, take};
ghost use Rattle.sheet_page.specs.Sheets.{sheet_text};

use std::io;

// One byte more than an input may have: what is longer is refused, and no more of it is read.
const INPUT: usize = 65537;

// No page is longer.
const PAGE: usize = 265518;

// The page of a whole input s, and its length: n bytes were read, which are s, or as many of its first bytes as the
// buffer holds.
fn page_of(input: &[u8], n: usize, out: &mut [u8]) -> usize
    requires { (n ≤ length input.now) × (length input.now ≡ 65537) × (length out.old ≡ 265518) }
    ensures { (result ≤ length out.new)
        × ((s : List ℕ) → take n input.now ≡ take (length input.now) s → take result out.new ≡ sheet_text s) }
{
    sheet_page::sheet_page(&input[..n], out).unwrap_or(0)
}

// It stands in each program: a function of a crate would have to say what it returns, and no clause can say what standard
// input gives and standard output takes.
fn main(rt: HostRuntime) -> io::Result<()> {
    let mut input = [0u8; INPUT];
    let mut out = [0u8; PAGE];
    let n = stream::read_full(&mut rt.stdin(), &mut input)?;
    let end = page_of(&input, n, &mut out);
    rt.write_all(&out[..end])
}
