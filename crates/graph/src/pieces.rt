// A text cut at a byte, by places: where a piece ends, its bytes, and a part of a slice.
ghost use Rattle.std.specs.Prelude.{◌≡◌, ◌≤◌, length, take, drop};
ghost use Rattle.graph.specs.Pieces.{end_at, piece_at};

// The place of the first b at or after `at`, or the length.
pub(crate) fn end_at(s: &[u8], at: usize, b: u8) -> usize
    requires { at ≤ length s.now }
    ensures { (result ≡ end_at b s.now at) × (at ≤ result) × (result ≤ length s.now) }
{
    for i in at..s.len() {
        if s[i] == b {
            return i;
        }
    }
    s.len()
}

// The bytes from `at` on, up to the first b.
pub(crate) fn piece(s: &[u8], at: usize, b: u8) -> &[u8]
    ensures { result.now ≡ piece_at b s.now at }
{
    let from = at.min(s.len());
    &s[from..end_at(s, from, b)]
}

// At most n bytes from `at` on.
pub fn part(s: &[u8], at: usize, n: usize) -> &[u8]
    ensures { result.now ≡ take n (drop at s.now) }
{
    let rest = &s[at.min(s.len())..];
    &rest[..n.min(rest.len())]
}
