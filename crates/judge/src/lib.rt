// The judgement of a trace by a graph text: its monitor is built, started and run over the trace, with a verdict byte
// for each cycle. Knows nothing of how a judgement is printed. Exports that the answer and the bytes are those that
// settings and paths give, without the monitor: the clause `judges` of `judge`.
#![tactic(auto)]

ghost use Rattle.std.specs.Prelude.{◌≡◌};
ghost use Rattle.assertion.specs.Paths.{PathsMean};
ghost use Rattle.judge.specs.declared.Cause.TheVariants.{Graph, Trace};
ghost use Rattle.judge.specs.Judge.{refusal_of, judge_end, judge_of};
ghost use Rattle.judge.specs.Claims.{JudgeMeans, RefusedFor, GivenAs};
ghost use Rattle.judge.specs.Private.Machine.{machine_judged};

use calls::Tally;
use simulator::Verdict;
use text::Refusal;

// The most numbers of a netlist with one output: five, two for each latch and gate, of which M = 4,095 leaves 4,094, and
// one for the output.
const MAX_NUMBERS: usize = 8194;

// The most latch words and value words of a netlist.
const MAX_LATCHES: usize = 4094;

const MAX_VALUES: usize = 4096;

// Why a judgement is refused.
#[derive(Clone, Copy)]
pub enum Cause {
    // What build refuses of the graph text.
    Graph(builder::Cause),
    // What run refuses of the trace and the verdict buffer.
    Trace(calls::Cause),
}

impl Cause {
    // The number and line in which a refusal is reported.
    pub fn refusal(self) -> Refusal
        ensures { result ≡ refusal_of self }
    {
        match self {
            Cause::Graph(cause) => cause.refusal(),
            Cause::Trace(cause) => cause.refusal(),
        }
    }
}

impl From<builder::Cause> for Cause {
    ghost from_gives = { λ cause e. e ≡ Graph cause };

    fn from(cause: builder::Cause) -> Cause {
        Cause::Graph(cause)
    }
}

impl From<calls::Cause> for Cause {
    ghost from_gives = { λ cause e. e ≡ Trace cause };

    fn from(cause: calls::Cause) -> Cause {
        Cause::Trace(cause)
    }
}

// The judgement of a netlist's run over a trace.
fn judged_run(net: &[u16], trace: &[u8], verdicts: &mut [u8]) -> Result<(Tally, Verdict), Cause>
    ensures { judge_end result verdicts.new ≡ machine_judged net.now trace.now verdicts.old }
{
    let mut latches = [0u64; MAX_LATCHES];
    let mut values = [0u64; MAX_VALUES];
    let tally = Tally {
        cycles: 0,
        rejected: 0,
        checked: 0,
    };
    let started = simulator::start(net, &mut latches, tally);
    let ran = simulator::run(
        net,
        trace,
        &mut latches,
        &mut values,
        verdicts,
        started.tally,
    );
    Ok((ran.tally, ran.outcome?))
}

// Judges a trace by a graph text: a verdict byte for each cycle, 1 rejected or 0 accepted, stands first in the buffer,
// and the tally and the verdict are returned.
pub fn judge(graph: &[u8], trace: &[u8], verdicts: &mut [u8]) -> Result<(Tally, Verdict), Cause>
    ensures verdicts_after { judge_end result verdicts.new ≡ judge_of graph.now trace.now verdicts.old }
    ensures paths { PathsMean }
    ensures judges { JudgeMeans graph.now trace.now verdicts.old verdicts.new (RefusedFor result) (GivenAs result) }
{
    let mut net = [0u16; MAX_NUMBERS];
    builder::build(graph, false, &mut net)?;
    judged_run(&net, trace, verdicts)
}
