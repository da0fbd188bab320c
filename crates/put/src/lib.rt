// What is written into a lent buffer: records, blocks and the head of rules 2, and openings (rules 3.5 and 12.2).
#![tactic(auto)]

pub mod records; // a record, a block of them, and the two that openings and images begin with
pub mod opening; // a whole opening, or why it is refused
