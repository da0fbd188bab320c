// The run: its type and constants, openings read, and a tape in its two parts (rules 1 to 3, 5, 11 and 13).
#![tactic(auto)]

pub mod each; // loops that stand once
pub mod reply; // what the judge replies
pub mod kinds; // the kinds of records
pub mod record; // records of 8 bytes
pub mod block; // a record for each station
pub mod head; // the two records that openings and images begin with
pub mod opening; // openings read
pub mod tape; // a tape's two parts

ghost use Rattle.std.specs.Prelude.{◌≡◌};
ghost use Rattle.run.specs.Run.{idle, station_at};
ghost use Rattle.run.specs.Opening.{unopened, opened};

use limits::Setup;
pub use reply::{Refusal, Reply};

// A run: its stations' estimates, votes and decisions beside the setup, the default and the clock (rounds accepted).
// Flags beside numbers, no Options: a run handed in may hold a number beside "?", which `rules::sound` refuses (rule 5.9).
#[derive(Clone, Copy, PartialEq, Eq)]
pub struct Run {
    pub setup: Setup,
    pub default: u32,
    pub clock: u32,
    pub estimates: [u32; Run::STATIONS],
    pub voted: [bool; Run::STATIONS],
    pub votes: [u32; Run::STATIONS],
    pub decided: [bool; Run::STATIONS],
    pub decisions: [u32; Run::STATIONS],
    pub rounds: [u32; Run::STATIONS],
}

impl Run {
    pub const STATIONS: usize = 32;

    pub const ROUNDS: u32 = 4096;

    pub const RECORD: usize = 8;

    // All zero, all "?", all undecided.
    #[tactic(auto, unfolding(crate::specs::Run::idle, crate::specs::Run::run_to, crate::specs::Filled::filled, crate::specs::Filled::tabulate))]
    pub fn idle() -> Run
        ensures { result ≡ idle }
    {
        Run {
            setup: Setup {
                algorithm: 0,
                n: 0,
                t: 0,
                e: 0,
                alpha: 0,
            },
            default: 0,
            clock: 0,
            estimates: [0; Run::STATIONS],
            voted: [false; Run::STATIONS],
            votes: [0; Run::STATIONS],
            decided: [false; Run::STATIONS],
            decisions: [0; Run::STATIONS],
            rounds: [0; Run::STATIONS],
        }
    }

    // What stands at place i of the arrays, and nothing where they have no such place.
    pub fn station(&self, i: usize) -> Station
        ensures { result ≡ station_at self.now i }
    {
        if i >= Run::STATIONS {
            return Station::default();
        }
        Station {
            estimate: self.estimates[i],
            voted: self.voted[i],
            vote: self.votes[i],
            decided: self.decided[i],
            decision: self.decisions[i],
            round: self.rounds[i],
        }
    }
}

// What a run holds of one station, a number beside "?" or undecided included.
#[derive(Clone, Copy, Debug, Default, PartialEq, Eq)]
pub struct Station {
    pub estimate: u32,
    pub voted: bool,
    pub vote: u32,
    pub decided: bool,
    pub decision: u32,
    pub round: u32,
}

// What opening or loading answers: the run, idle where it is refused. No Result: rules 3.4 and 6.6 say what run stands
// beside a refusal.
#[derive(Clone, Copy)]
pub struct Opened {
    pub reply: Reply,
    pub run: Run,
}

impl Opened {
    // The idle run, with why.
    #[tactic(auto, unfolding(crate::specs::Opening::unopened))]
    pub fn none(reply: Reply) -> Opened
        ensures { result ≡ unopened reply }
    {
        Opened {
            reply,
            run: Run::idle(),
        }
    }
}

impl From<Result<Run, Refusal>> for Opened {
    ghost from_gives = { λ read answer. answer ≡ opened read };

    fn from(read: Result<Run, Refusal>) -> Opened {
        match read {
            Ok(run) => Opened { reply: Ok(()), run },
            Err(refusal) => Opened::none(Err(refusal)),
        }
    }
}
