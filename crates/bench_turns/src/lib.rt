// Eight machines on one bench, as definitions and laws, and of code only the causes of a refusal: where their netlists,
// latch words, queues and numbers stand, what a new cycle and a turn answer and leave, and what lists of such calls do.
// Knows nothing of graphs but through demand 3. Exports that queues are served in the order of arrival, that a machine
// with a cycle waiting is served within eight accepted turns, and that each machine counts its own served cycles only.
#![tactic(auto)]

ghost use Rattle.std.specs.Prelude.{◌≡◌};
ghost use Rattle.bench_turns.specs.Refusals.{cause_of};

// Why a new cycle or a turn is refused.
#[derive(Clone, Copy)]
pub enum Cause {
    // The machine number is above 7.
    NoMachine,
    // One of the eight places, or the last one served, is none.
    NotBench,
    // 16 cycles wait for the machine.
    FullQueue,
    // The new cycle is not one byte `0` or `1` for each input.
    WrongCycle,
    // The machine's latch words, its queue or the value words are shorter than the call needs.
    ShortBuffer,
    // A number of the machine's tally would pass 4,294,967,295; to a new cycle those waiting are added.
    FullTally,
}

// Why a turn is refused whose machine's step is. On a bench no other cause is left.
impl From<calls::Cause> for Cause {
    ghost from_gives = { λ cause e. e ≡ cause_of cause };

    fn from(cause: calls::Cause) -> Cause {
        match cause {
            calls::Cause::TraceTooLong => Cause::NotBench,
            calls::Cause::ShortBuffer => Cause::ShortBuffer,
            calls::Cause::WrongLine(_) => Cause::NotBench,
            calls::Cause::NotNetlist => Cause::NotBench,
            calls::Cause::FullTally => Cause::FullTally,
        }
    }
}
