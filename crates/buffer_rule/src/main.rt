// The program that prints the stroke buffer's graph. Standard input holds the number of strokes, in base ten and ended by
// LF; standard output gets the graph's text, or the refusal.
#![tactic(auto)]

ghost use Rattle.std.specs.Prelude.{◌≡◌, List, ℕ, ◌≤◌, length, take};
ghost use Rattle.buffer_rule.specs.Page.{strokes_of, strokes_page, rule_text};

use std::io;

// One byte more than a line of five digits, the longest that is read as a number: what is longer is refused, and no more of
// it is read.
const INPUT: usize = 7;

// No page is longer.
const PAGE: usize = 4287;

// How many strokes the input says; 0 where it is no line of a number.
fn strokes_of(input: &[u8]) -> u64
    ensures { result ≡ strokes_of input.now }
{
    let Some((n, end)) = text::read_number(input, 0) else {
        return 0;
    };
    if text::byte_at(input, end) != b'\n' || input.len() != end + 1 {
        return 0;
    }
    n as u64
}

// Writes the page for so many strokes to the front of a buffer in which every page fits. Returns its length.
fn put_page(strokes: u64, out: &mut [u8]) -> usize
    requires { length out.old ≡ 4287 }
    ensures { (result ≤ length out.new) × (take result out.new ≡ strokes_page strokes) }
{
    match buffer_graph::write(strokes, out) {
        Ok(end) => end,
        Err(cause) => page_text::write_refusal(out, cause.refusal()),
    }
}

// The page of a whole input s, and its length: n bytes were read, which are s, or as many of its first bytes as the
// buffer holds.
fn page_of(input: &[u8], n: usize, out: &mut [u8]) -> usize
    requires { (n ≤ length input.now) × (length input.now ≡ 7) × (length out.old ≡ 4287) }
    ensures { (result ≤ length out.new)
        × ((s : List ℕ) → take n input.now ≡ take (length input.now) s → take result out.new ≡ rule_text s) }
{
    put_page(strokes_of(&input[..n]), out)
}

fn main(rt: HostRuntime) -> io::Result<()> {
    let mut input = [0u8; INPUT];
    let mut out = [0u8; PAGE];
    let n = stream::read_full(&mut rt.stdin(), &mut input)?;
    let end = page_of(&input, n, &mut out);
    rt.write_all(&out[..end])
}
