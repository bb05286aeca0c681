// The append-writer: text into a lent buffer. It stores what falls within the buffer and drops the rest, so that no writing
// needs room to be proved, and the length of a text is where its writer stands over an empty part, `&mut out[..0]`.
ghost use Rattle.std.specs.Prelude.{◌≡◌, [], ◌∷◌, replicate};
ghost use Rattle.text.specs.Numbers.{digits};
ghost use Rattle.text.specs.Writer.{Wrote, Writes};

// The place after every slice.
const TOP: usize = 9223372036854775808;

// Stores one byte at a place of a buffer: the place after it. A writer's appends go through this and the loops below, which
// keep the place in a local: to read it back from the writer after each byte takes up to twice as long.
fn put_byte(out: &mut [u8], at: usize, b: u8) -> usize
    ensures { Wrote out.old out.new at result (b ∷ []) }
{
    if at < out.len() {
        out[at] = b;
        return at + 1;
    }
    if at < TOP { at + 1 } else { at }
}

// Stores all bytes of a slice.
fn put_bytes(out: &mut [u8], at: usize, s: &[u8]) -> usize
    ensures { Wrote out.old out.new at result s.now }
{
    let mut p = at;
    for &byte in s {
        p = put_byte(out, p, byte);
    }
    p
}

// Stores a byte so many times.
fn put_repeated(out: &mut [u8], at: usize, b: u8, count: usize) -> usize
    ensures { Wrote out.old out.new at result (replicate count b) }
{
    let mut p = at;
    for _ in 0..count {
        p = put_byte(out, p, b);
    }
    p
}

// Stores a number in decimal.
fn put_number(out: &mut [u8], at: usize, n: usize) -> usize
    ensures { Wrote out.old out.new at result (digits n) }
{
    if n < 10 {
        put_byte(out, at, 48 + (n % 10) as u8)
    } else {
        let next = put_number(out, at, n / 10);
        put_byte(out, next, 48 + (n % 10) as u8)
    }
}

// A lent buffer, and the place of the next byte.
#[derive(Drop)]
pub struct Writer<'a> {
    pub out: &'a mut [u8],
    pub at: usize,
}

impl<'a> Writer<'a> {
    // A writer of nothing yet, at the buffer's front.
    pub fn new(out: &'a mut [u8]) -> Writer<'a>
        ensures same { result.out.ghost_name ≡ out.entry.ghost_name }
        ensures buffer { result.out.now ≡ out.old }
        ensures front { result.at ≡ 0 }
    {
        Writer { out, at: 0 }
    }

    // Appends one byte.
    pub fn byte(&mut self, b: u8)
        ensures { Writes self.old self.new (b ∷ []) }
    {
        self.at = put_byte(self.out, self.at, b);
    }

    // Appends a byte so many times.
    pub fn repeat(&mut self, b: u8, count: usize)
        ensures { Writes self.old self.new (replicate count b) }
    {
        self.at = put_repeated(self.out, self.at, b, count);
    }

    // Appends all bytes of a slice.
    pub fn bytes(&mut self, s: &[u8])
        ensures { Writes self.old self.new s.now }
    {
        self.at = put_bytes(self.out, self.at, s);
    }

    // Appends a number in decimal.
    pub fn number(&mut self, n: usize)
        ensures { Writes self.old self.new (digits n) }
    {
        self.at = put_number(self.out, self.at, n);
    }
}
