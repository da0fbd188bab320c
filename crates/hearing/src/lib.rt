// Who heard whom: HO and SHO of each receiver, their sizes against thresholds, how often values came, and the survey
// (rule 7).
#![tactic(auto)]

pub mod heard; // whom a receiver heard
pub mod count; // how often values came
pub mod surveys; // HO and SHO of a round

use run::{Reply, Run};

// What each station ought to send: its value where that is given, else "?".
// No array of Options: `prescribed` promises the run's own numbers, those beside "?" too.
#[derive(Clone, Copy)]
pub struct Sent {
    pub given: [bool; Run::STATIONS],
    pub values: [u32; Run::STATIONS],
}

// Whom a receiver heard, and whom it heard safely, a sender to a bit.
#[derive(Clone, Copy)]
pub struct Sets {
    pub ho: u32,
    pub sho: u32,
}

// The values of a row as plain numbers, v + 1 for a value v and 0 for none, and who sent one.
#[derive(Clone, Copy)]
pub struct Spoken {
    pub codes: [u64; Run::STATIONS],
    pub senders: u32,
}

// HO and SHO of each receiver, two arrays of masks; all empty where the round is refused (rule 12.6, and so no Result).
#[derive(Clone, Copy)]
pub struct Survey {
    pub reply: Reply,
    pub ho: [u32; Run::STATIONS],
    pub sho: [u32; Run::STATIONS],
}

// The count of a row: the most frequent value, the lowest of several, with the set of its senders (0 and no
// sender for a row without values); and the smallest value that came often enough, if there is one.
#[derive(Clone, Copy)]
pub struct Tally {
    pub value: u32,
    pub senders: u32,
    pub least: Option<u32>,
}
