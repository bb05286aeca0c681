// Graph text: its `M` line, its records, its refusals, and the checked graph by places in the text; what a
// graph and a rejecting path are stands in assertion. Knows nothing of netlists. Exports that the graph of an
// accepted text keeps to the limits, that its names and formulas stand where the checked graph says, what each
// formula means, and what `M` lines, marks, widths and the names of formulas make of it.
#![tactic(auto)]

ghost use Rattle.std.specs.Prelude.{◌≡◌, ◌+◌, ◌≤◌, length};
ghost use Rattle.assertion.specs.Graph.{Bytes};
ghost use Rattle.graph.specs.Pieces.{end_at};
ghost use Rattle.graph.specs.Reading.{fault_number, refusal_of, nothing};
ghost use Rattle.graph.specs.Held.{read_of};
ghost use Rattle.graph.specs.Claims.{GraphMeans};
ghost use Rattle.graph.specs.ModeClaims.{ModeMeans};
ghost use Rattle.graph.specs.WidthClaims.{WidthMeans};
ghost use Rattle.graph.specs.FormulaClaims.{FormulaMeans};
ghost use Rattle.graph.specs.Private.Steps.{Kept, written_of, AddsLine};

mod edges;
mod formulas;
mod modes;
mod names;
mod pieces;
mod records;
mod shapes;

use assertion::Mode;
pub use names::look_up_name;
pub use pieces::part;

// A graph text has at most so many bytes.
const LONGEST_TEXT: usize = 32768;

// Why a line is refused.
#[derive(Clone, Copy)]
pub enum Fault {
    // Of no record's shape, or without its LF.
    WrongShape,
    // A record after one of a later kind, or an `M` line after any line.
    WrongOrder,
    // One record, or one bit, too many of its kind.
    TooMany,
    // A name that has come already.
    NameRepeated,
    // An edge to or from an unknown vertex.
    UnknownVertex,
    // A formula not of the grammar or length.
    NotFormula,
    // A formula of depth over 16.
    TooDeep,
    // A formula with an unknown name.
    UnknownName,
    // A formula with unequal widths around `==`, a bit beyond the width, or a wide name where one bit is due.
    WrongWidth,
}

// Why a graph text is refused.
#[derive(Clone, Copy)]
pub enum Cause {
    // Over 32,768 bytes.
    TextTooLong,
    // The first faulty line, and its number.
    FaultyLine(Fault, u32),
    NoVertex,
}

// A signal or a constant that is looked up: the place of its first bit, and its width.
#[derive(Clone, Copy)]
pub struct FoundName {
    pub place: usize,
    pub width: usize,
}

// An edge: its vertices, whether it is terminal, and where its antecedent and its consequent stand in the
// text, with their lengths. Until all lines are read, the edges with the mark count as terminal.
#[derive(Clone, Copy)]
pub struct Arc {
    pub from: usize,
    pub to: usize,
    pub terminal: bool,
    pub left: usize,
    pub lefts: usize,
    pub right: usize,
    pub rights: usize,
}

// A checked graph: its mode; how many signals and constants are named, and how many bits the signals and the
// constants have; how many vertices and edges there are; the signals and then the constants, each as a word of
// where its name starts in the text, its length, the place of its first bit and its width; where the names of the
// vertices start in the text; and the edges.
#[derive(Clone, Copy)]
pub struct CheckedGraph {
    pub mode: Mode,
    pub named: usize,
    pub signals: usize,
    pub constants: usize,
    pub vertices: usize,
    pub edges: usize,
    pub names: [usize; 69],
    pub points: [usize; 64],
    pub arcs: [Arc; 128],
}

// A record, by the places in the line where its fields start.
#[derive(Clone, Copy)]
enum Shape {
    Moded(Mode),
    Signal {
        at: usize,
        length: usize,
        width: usize,
    },
    Constant {
        at: usize,
        length: usize,
        width: usize,
    },
    Vertex(usize),
    Edge {
        from: usize,
        to: usize,
        marked: bool,
        left: usize,
        right: usize,
    },
}

// The number of a line's fault in the table of refusals.
fn fault_number(fault: Fault) -> u8
    ensures { result ≡ fault_number fault }
{
    match fault {
        Fault::WrongShape => 2,
        Fault::WrongOrder => 3,
        Fault::TooMany => 4,
        Fault::NameRepeated => 5,
        Fault::UnknownVertex => 6,
        Fault::NotFormula => 7,
        Fault::TooDeep => 8,
        Fault::UnknownName => 9,
        Fault::WrongWidth => 19,
    }
}

impl Cause {
    // The number and the line that report the cause.
    pub fn refusal(self) -> text::Refusal
        ensures { result ≡ refusal_of self }
    {
        match self {
            Cause::TextTooLong => text::Refusal { number: 1, line: 0 },
            Cause::FaultyLine(fault, line) => {
                let number = fault_number(fault);
                text::Refusal { number, line }
            }
            Cause::NoVertex => text::Refusal {
                number: 10,
                line: 0,
            },
        }
    }
}

// Adds the record of the line from `at` to its end to the graph, which a fault leaves as it was.
fn add_line(text: &[u8], g: &mut CheckedGraph, at: usize, end: usize) -> Result<(), Fault>
    requires { Kept g.old × (end ≡ end_at 10 text.now at) × (at ≤ end) × (end ≤ length text.now) × (length text.now ≤ 32768) }
    ensures { AddsLine text.now g.old at (record { judged = result; graph = g.new }) }
{
    let line = &text[at..end];
    let shape = shapes::shape_of(line).ok_or(Fault::WrongShape)?;
    match shape {
        Shape::Moded(mode) => modes::add_mode(g, mode),
        Shape::Signal {
            at: p,
            length,
            width,
        } => records::add_signal(text, g, at + p, length, width),
        Shape::Constant {
            at: p,
            length,
            width,
        } => records::add_constant(text, g, at + p, length, width),
        Shape::Vertex(p) => records::add_vertex(text, g, at + p),
        Shape::Edge {
            from,
            to,
            marked,
            left,
            right,
        } => edges::add_edge(text, g, line, at, from, to, marked, left, right),
    }
}

// The graph of no line.
fn empty() -> CheckedGraph
    ensures { (text : Bytes) → result ≡ written_of text nothing }
{
    let none = Arc {
        from: 0,
        to: 0,
        terminal: false,
        left: 0,
        lefts: 0,
        right: 0,
        rights: 0,
    };
    let names = [0usize; 69];
    let points = [0usize; 64];
    let arcs = [none; 128];
    CheckedGraph {
        mode: Mode::Unsaid,
        named: 0,
        signals: 0,
        constants: 0,
        vertices: 0,
        edges: 0,
        names,
        points,
        arcs,
    }
}

// Reads a graph text: the checked graph, or why the text is refused.
pub fn read_graph(text: &[u8]) -> Result<CheckedGraph, Cause>
    ensures value { result ≡ read_of text.now }
    ensures sound { GraphMeans text.now }
    ensures modes { ModeMeans text.now result }
    ensures widths { WidthMeans text.now result }
    ensures formulas { FormulaMeans text.now result }
{
    if LONGEST_TEXT < text.len() {
        return Err(Cause::TextTooLong);
    }
    let mut g = empty();
    let mut at = 0;
    let mut line = 1;
    while at < text.len() {
        let end = pieces::end_at(text, at, b'\n');
        if end == text.len() {
            return Err(Cause::FaultyLine(Fault::WrongShape, line));
        }
        add_line(text, &mut g, at, end).map_err(|fault| Cause::FaultyLine(fault, line))?;
        at = end + 1;
        line += 1;
    }
    if g.vertices == 0 {
        return Err(Cause::NoVertex);
    }
    Ok(modes::choose(g))
}
