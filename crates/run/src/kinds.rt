// The kinds of records, by the names that the header has for them (rule 2.4). Bytes and no enum: a record may be of any
// kind, and `is_plain`, `check_block`, `plain` and `put_record` promise for each.

pub const SETUP: u8 = 1; // openings

pub const DEFAULT: u8 = 2;

pub const START: u8 = 3;

pub const HEARD: u8 = 4; // rounds

pub const HEARD_QUERY: u8 = 5;

pub const LOST: u8 = 6;

pub const CLOCK: u8 = 8; // images

pub const ESTIMATE: u8 = 9;

pub const NO_VOTE: u8 = 10;

pub const VOTE: u8 = 11;

pub const UNDECIDED: u8 = 12;

pub const DECIDED: u8 = 13;

pub const DECISION_ROUND: u8 = 14;
