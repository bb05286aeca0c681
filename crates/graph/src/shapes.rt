// The record of a line, by the places where its fields start.
ghost use Rattle.std.specs.Prelude.{◌≡◌, ◌-◌, ◌≤◌, length, take, drop};
ghost use Rattle.assertion.specs.Graph.{Bytes};
ghost use Rattle.graph.specs.Pieces.{piece_at};
ghost use Rattle.graph.specs.Records.{record_of, moded, named, sized, width_of};
ghost use Rattle.graph.specs.Private.Steps.{FieldOf, NameOf, Shaped, marked_at, edged_at};

use crate::Shape;
use crate::pieces::{end_at, part, piece};
use assertion::Mode;
use formula::is_name;
use text::read_number;

// No name is wider.
const WIDEST: usize = 16;

// The width where the field is absent.
const ABSENT: usize = 1;

// An `M` line by its word.
fn mode_shape(word: &[u8]) -> Option<Shape>
    ensures { (line : Bytes) → Shaped line (moded word.now) result }
{
    if word == b"terminal".as_slice() {
        return Some(Shape::Moded(Mode::Terminal));
    }
    if word == b"strong".as_slice() {
        return Some(Shape::Moded(Mode::Strong));
    }
    None
}

// A name's width: 1 to 16, or 0 where the field is none.
fn width_of(field: &[u8]) -> usize
    ensures { result ≡ width_of field.now }
{
    match read_number(field, 0) {
        Some((value, next)) if next == field.len() && value <= WIDEST => value,
        _ => 0,
    }
}

// A signal's or a constant's record: its name from `at` on, `length` bytes, and its width.
fn sized_shape(line: &[u8], at: usize, length: usize, width: usize) -> Option<Shape>
    requires { NameOf line.now at length × (width ≤ 16) }
    ensures { Shaped line.now (sized (piece_at 9 line.now 0) (take length (drop at line.now)) width) result }
{
    let kind = piece(line, 0, b'\t');
    if is_name(part(line, at, length)) {
        if width == 0 {
            return None;
        }
        if kind == b"S".as_slice() {
            return Some(Shape::Signal { at, length, width });
        }
        if kind == b"K".as_slice() {
            return Some(Shape::Constant { at, length, width });
        }
    }
    None
}

// A record of two fields.
fn named_shape(line: &[u8], at: usize) -> Option<Shape>
    requires { NameOf line.now at (length line.now - at) }
    ensures { Shaped line.now (named (piece_at 9 line.now 0) (drop at line.now)) result }
{
    let kind = piece(line, 0, b'\t');
    if kind == b"M".as_slice() {
        return mode_shape(&line[at..]);
    }
    if kind == b"V".as_slice() {
        if is_name(&line[at..]) {
            return Some(Shape::Vertex(at));
        }
        return None;
    }
    sized_shape(line, at, line.len() - at, ABSENT)
}

// An edge's record, but for its kind and its vertices.
fn marked_shape(
    line: &[u8],
    from: usize,
    to: usize,
    mark: usize,
    left: usize,
    right: usize,
) -> Option<Shape>
    requires { FieldOf line.now 4 left × FieldOf line.now 5 right }
    ensures { Shaped line.now (marked_at line.now from to mark left right) result }
{
    let m = piece(line, mark, b'\t');
    if m == b"t".as_slice() {
        return Some(Shape::Edge {
            from,
            to,
            marked: true,
            left,
            right,
        });
    }
    if m == b"-".as_slice() {
        return Some(Shape::Edge {
            from,
            to,
            marked: false,
            left,
            right,
        });
    }
    None
}

// A record of six fields.
fn edge_shape(
    line: &[u8],
    from: usize,
    to: usize,
    mark: usize,
    left: usize,
    right: usize,
) -> Option<Shape>
    requires { FieldOf line.now 4 left × FieldOf line.now 5 right }
    ensures { Shaped line.now (edged_at line.now from to mark left right) result }
{
    let kind = piece(line, 0, b'\t');
    if kind == b"E".as_slice() {
        let f = piece(line, from, b'\t');
        if is_name(f) {
            let t = piece(line, to, b'\t');
            if is_name(t) {
                return marked_shape(line, from, to, mark, left, right);
            }
        }
    }
    None
}

// The record of a line: two fields, three or six, parted by tabs.
pub(crate) fn shape_of(line: &[u8]) -> Option<Shape>
    ensures { Shaped line.now (record_of line.now) result }
{
    let t0 = end_at(line, 0, b'\t');
    if t0 == line.len() {
        return None;
    }
    let t1 = end_at(line, t0 + 1, b'\t');
    if t1 == line.len() {
        return named_shape(line, t0 + 1);
    }
    let t2 = end_at(line, t1 + 1, b'\t');
    if t2 == line.len() {
        let width = width_of(&line[t1 + 1..]);
        return sized_shape(line, t0 + 1, t1 - (t0 + 1), width);
    }
    let t3 = end_at(line, t2 + 1, b'\t');
    if t3 == line.len() {
        return None;
    }
    let t4 = end_at(line, t3 + 1, b'\t');
    if t4 == line.len() {
        return None;
    }
    let t5 = end_at(line, t4 + 1, b'\t');
    if t5 == line.len() {
        return edge_shape(line, t0 + 1, t1 + 1, t2 + 1, t3 + 1, t4 + 1);
    }
    None
}
