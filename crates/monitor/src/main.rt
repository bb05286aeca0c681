// The monitor program. Standard input holds a graph, a line `T` and a trace; standard output gets the rejected
// cycles and the sum, or the refusal. What is printed is the page of `page::monitor_page`.
#![tactic(auto)]

ghost use Rattle.std.specs.Prelude.{◌≡◌, List, ℕ, ◌≤◌, length, take};
ghost use Rattle.page.specs.Pages.{monitor_text};

use std::io;

// One byte more than an input may have: what is longer is refused, and no more of it is read.
const INPUT: usize = 65537;

// No page is longer.
const PAGE: usize = 250991;

// The page of a whole input s, and its length: n bytes were read, which are s, or as many of its first bytes as the
// buffer holds.
fn page_of(input: &[u8], n: usize, out: &mut [u8]) -> usize
    requires { (n ≤ length input.now) × (length input.now ≡ 65537) × (length out.old ≡ 250991) }
    ensures { (result ≤ length out.new)
        × ((s : List ℕ) → take n input.now ≡ take (length input.now) s → take result out.new ≡ monitor_text s) }
{
    page::monitor_page(&input[..n], out).unwrap_or(0)
}

// It stands in each program: a function of a crate would have to say what it returns, and no clause can say what standard
// input gives and standard output takes.
fn main(rt: HostRuntime) -> io::Result<()> {
    let mut input = [0u8; INPUT];
    let mut out = [0u8; PAGE];
    let n = stream::read_full(&mut rt.stdin(), &mut input)?;
    let end = page_of(&input, n, &mut out);
    rt.write_all(&out[..end])
}
