// The program that prints AIGER. Standard input holds a graph; standard output gets the AIGER file of its monitor, or the
// refusal. What is printed is the page of `page::aiger_page`.
#![tactic(auto)]

ghost use Rattle.std.specs.Prelude.{◌≡◌, List, ℕ, ◌≤◌, length, take};
ghost use Rattle.page.specs.Pages.{aiger_text};

use std::io;

// One byte more than a graph may have: what is longer is refused, and no more of it is read.
const INPUT: usize = 32769;

// No page is longer.
const PAGE: usize = 65536;

// The page of a whole graph text s, and its length: n bytes were read, which are s, or as many of its first bytes as the
// buffer holds.
fn page_of(input: &[u8], n: usize, out: &mut [u8]) -> usize
    requires { (n ≤ length input.now) × (length input.now ≡ 32769) × (length out.old ≡ 65536) }
    ensures { (result ≤ length out.new)
        × ((s : List ℕ) → take n input.now ≡ take (length input.now) s → take result out.new ≡ aiger_text s) }
{
    page::aiger_page(&input[..n], out).unwrap_or(0)
}

// It stands in each program: a function of a crate would have to say what it returns, and no clause can say what standard
// input gives and standard output takes.
fn main(rt: HostRuntime) -> io::Result<()> {
    let mut input = [0u8; INPUT];
    let mut out = [0u8; PAGE];
    let n = stream::read_full(&mut rt.stdin(), &mut input)?;
    let end = page_of(&input, n, &mut out);
    rt.write_all(&out[..end])
}
