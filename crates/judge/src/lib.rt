// The judge: one round taken (rule 12.8).
#![tactic(auto)]

pub mod rows; // the rows of a round: its records, sets and counts
pub mod step; // one round taken

ghost use Rattle.std.specs.Prelude.{◌≤◌, ◌<◌};
ghost use Rattle.run.specs.Run.{stations, most_rounds};

use hearing::Tally;
use run::{Reply, Run};

// A run that has room for a round, and whether that is a vote round.
#[derive(Clone, Copy)]
pub(crate) struct Ready<'a> {
    pub run: &'a Run,
    pub voting: bool,
    pub ghost few: { run.now.setup.n ≤ stations },
    pub ghost below: { run.now.clock < most_rounds },
}

// What the rows of a round tell: each receiver's HO, SHO and count.
// Three arrays, no array of structs: the answer of a step hands the sets on as two.
#[derive(Clone, Copy)]
pub struct Counted {
    pub ho: [u32; Run::STATIONS],
    pub sho: [u32; Run::STATIONS],
    pub tallies: [Tally; Run::STATIONS],
}

// What taking a round answers: the next run, for each station the value that fired, and the round's HO and SHO. Where
// it is refused: the run handed in, no firing and empty sets (rule 12.8, and so no Result).
#[derive(Clone, Copy)]
pub struct Stepped {
    pub reply: Reply,
    pub run: Run,
    pub fired: [Option<u32>; Run::STATIONS],
    pub ho: [u32; Run::STATIONS],
    pub sho: [u32; Run::STATIONS],
}
