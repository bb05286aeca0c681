// Eight machines on one bench: a new cycle for one of them, and a turn that steps the next in the round that has a
// cycle waiting. Knows nothing of graphs. Exports what a call says of its own answer, the clauses `waits` and `serves`;
// and, as the clause `bench` of both, that each queue is served in the order of arrival, that a machine with a cycle
// waiting is served within eight accepted turns, and that its path counts are asked of its own served cycles only.
#![tactic(auto)]

ghost use Rattle.std.specs.Prelude.{◌≡◌, Ok, Some, None};
ghost use Rattle.bench_turns.specs.Refusals.{refusal_of};
ghost use Rattle.bench_turns.specs.Add.{add_end, add_of};
ghost use Rattle.bench_turns.specs.Turn.{turn_end, turn_of};
ghost use Rattle.bench_turns.specs.Session.{add_call, turn_call, bench_of};
ghost use Rattle.bench_turns.specs.Answers.{AddMeans, TurnMeans, AddRefuses, TurnRefuses};
ghost use Rattle.bench_turns.specs.Claims.{KeepsBench};

mod numbers;
mod places;
mod queues;
mod serving;
mod tests;

use crate::numbers::{next_machine, waiting};
use crate::places::is_bench;
use crate::queues::queue_up;
use crate::serving::serve;
use crate::tests::add_check;
pub use bench_turns::Cause;
use text::Refusal;

// The number and line in which a refusal is reported.
pub fn refusal(cause: Cause) -> Refusal
    ensures { result ≡ refusal_of cause }
{
    match cause {
        Cause::NoMachine => Refusal {
            number: 27,
            line: 0,
        },
        Cause::NotBench => Refusal {
            number: 16,
            line: 0,
        },
        Cause::FullQueue => Refusal {
            number: 28,
            line: 0,
        },
        Cause::WrongCycle => Refusal {
            number: 15,
            line: 1,
        },
        Cause::ShortBuffer => Refusal {
            number: 12,
            line: 0,
        },
        Cause::FullTally => Refusal {
            number: 17,
            line: 0,
        },
    }
}

// A new cycle for a machine: it waits behind those that came before it.
pub fn add(
    nets: &[u16],
    latches: &[u64],
    queues: &mut [u8],
    bench: &mut [u32],
    machine: u32,
    cycle: &[u8],
) -> Result<(), Cause>
    ensures bench_after { add_end result queues.new bench.new ≡ add_of nets.now latches.now queues.old bench.old machine cycle.now }
    ensures waits { AddMeans nets.now (bench_of latches.now queues.old bench.old) machine cycle.now
        (result ≡ Ok tt) (AddRefuses result) (bench_of latches.now queues.new bench.new) }
    ensures bench { KeepsBench nets.now (bench_of latches.now queues.old bench.old) (add_call machine cycle.now)
        (bench_of latches.now queues.new bench.new) }
{
    add_check(nets, latches, queues, bench, machine, cycle)?;
    let k = machine as usize;
    let count = waiting(bench, k);
    queue_up(queues, k, count as usize, cycle);
    bench[4 * k] = count + 1;
    Ok(())
}

// A turn: steps the next machine, in round order after the last one served, that has a cycle waiting, and answers which
// it is and its step's output words, the second 0 where it has one output; nothing where no cycle waits.
pub fn turn(
    nets: &[u16],
    latches: &mut [u64],
    values: &mut [u64],
    queues: &mut [u8],
    bench: &mut [u32],
) -> Result<Option<(u32, u64, u64)>, Cause>
    ensures bench_after { turn_end result latches.new values.new queues.new bench.new ≡ turn_of nets.now latches.old values.old queues.old bench.old }
    ensures serves { TurnMeans nets.now (bench_of latches.old queues.old bench.old) values.old
        (result ≡ Ok None) (λ m w v. result ≡ Ok (Some (m, w, v))) (TurnRefuses result) (bench_of latches.new queues.new bench.new) values.new }
    ensures bench { KeepsBench nets.now (bench_of latches.old queues.old bench.old) (turn_call values.old)
        (bench_of latches.new queues.new bench.new) }
{
    if !is_bench(nets, queues, bench) {
        return Err(Cause::NotBench);
    }
    match next_machine(bench) {
        None => Ok(None),
        Some(k) => serve(nets, latches, values, queues, bench, k),
    }
}
