// The calls of document 02, No. 13: a new cycle for a machine of a bench, and a turn.
ghost use Rattle.std.specs.Prelude.{◌≡◌};
ghost use Rattle.bench_turns.specs.Session as session;
ghost use Rattle.bench_turns.specs.Session.{bench_of};
ghost use Rattle.bench_turns.specs.Claims.{KeepsBench};
ghost use Rattle.ludopoplar.specs.Benches.{add_call_end, add_call, turn_call_end, turn_call, CallAdds, CallTurns};

use crate::{ACCEPTED, code};
use bench::{add, refusal, turn};

// The machine number of an idle turn.
const NOBODY: u64 = 8;

// Adds a cycle to the queue of a machine.
#[unsafe(no_mangle)]
pub extern "C" fn ludo_bench_add(
    nets: &[u16],
    latches: &[u64],
    queues: &mut [u8],
    bench: &mut [u32],
    machine: u32,
    cycle: &[u8],
) -> u64
    ensures bench_after { add_call_end result queues.new bench.new ≡ add_call nets.now latches.now queues.old bench.old machine cycle.now }
    ensures adds { CallAdds nets.now (bench_of latches.now queues.old bench.old) machine cycle.now
        result (bench_of latches.now queues.new bench.new) }
    ensures bench { KeepsBench nets.now (bench_of latches.now queues.old bench.old) (session.add_call machine cycle.now)
        (bench_of latches.now queues.new bench.new) }
{
    let added = add(nets, latches, queues, bench, machine, cycle);
    match added {
        Ok(()) => ACCEPTED,
        Err(cause) => code(refusal(cause)),
    }
}

// Steps the next machine that has a cycle waiting.
#[unsafe(no_mangle)]
pub extern "C" fn ludo_bench_turn(
    nets: &[u16],
    latches: &mut [u64],
    values: &mut [u64],
    queues: &mut [u8],
    bench: &mut [u32],
    served: &mut u64,
    word: &mut u64,
    checked_word: &mut u64,
) -> u64
    ensures checked_word_after { turn_call_end result latches.new values.new queues.new bench.new served.new word.new checked_word.new
        ≡ turn_call nets.now latches.old values.old queues.old bench.old served.old word.old checked_word.old }
    ensures turns { CallTurns nets.now (bench_of latches.old queues.old bench.old) values.old
        result served.new word.new checked_word.new (bench_of latches.new queues.new bench.new) values.new }
    ensures bench { KeepsBench nets.now (bench_of latches.old queues.old bench.old) (session.turn_call values.old)
        (bench_of latches.new queues.new bench.new) }
{
    let turned = turn(nets, latches, values, queues, bench);
    match turned {
        Ok(None) => {
            *served = NOBODY;
            ACCEPTED
        }
        Ok(Some((machine, first, second))) => {
            *served = machine as u64;
            *word = first;
            *checked_word = second;
            ACCEPTED
        }
        Err(cause) => code(refusal(cause)),
    }
}
