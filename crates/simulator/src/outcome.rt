// What start, step and run answer: an outcome, and the tally, which a refusal hands back as it was.
use calls::{Cause, Tally};

#[derive(Clone, Copy)]
pub struct Started {
    pub outcome: Result<(), Cause>,
    pub tally: Tally,
}

#[derive(Clone, Copy)]
pub struct Stepped {
    // The output words; the second is 0 where there is one output.
    pub outcome: Result<(u64, u64), Cause>,
    pub tally: Tally,
}

// Of a run: rejected where any of its cycles was, else accepted.
#[derive(Clone, Copy)]
pub enum Verdict {
    Accepted,
    Rejected,
}

#[derive(Clone, Copy)]
pub struct Ran {
    pub outcome: Result<Verdict, Cause>,
    pub tally: Tally,
}
