// Whom a receiver heard, a sender to a bit (rules 7.1 to 7.8).
ghost use Rattle.std.specs.Prelude.{◌≡◌, ℕ, Bool, ◌+◌, ◌*◌, ◌^◌, ◌≤◌, ◌<◌, min};
ghost use Rattle.paper.specs.Stations.{Stations, one};
ghost use Rattle.paper.specs.Heard.{arrived, holds};
ghost use Rattle.run.specs.Run.{stations};
ghost use Rattle.hearing.specs.Masks.{mask, mask_without, from};
ghost use Rattle.round.specs.Bridge.{paper_cell, message};
ghost use Rattle.hearing.specs.Surveying.{messages_of, row_of, sets_of, prescribed};
ghost use Rattle.hearing.specs.Counting.{passes_in, any, code_of, spoken_in, sent_code};

use super::{Sent, Sets, Spoken};
use round::Cell;
use run::{Run, block, each};

// A mask with one station more, below all that it has: a mask grows from its highest station down.
fn grown(set: u32, there: bool) -> u32
    requires { 2 * set + 1 < 2 ^ stations }
    ensures { result ≡ 2 * set + one there }
{
    2 * set + (there as u32)
}

// The mask of the stations from `first` on and below n for which the test is true.
fn mask<F: Fn(usize) -> bool>(first: usize, n: u8, test: F) -> u32
    requires least { (first ≤ min n stations) × (first < stations) }
    requires calls { (q : ℕ) → q < min n stations → F.pre test q }
    ensures { (X : Stations) → ((q : ℕ) (b : Bool) → q < min n stations → F.post test q b → b ≡ X q)
        → result ≡ mask (min n stations) (from first X) }
{
    let mut set: u32 = 0;
    for q in (first..block::places(n)).rev() {
        set = grown(set, test(q));
    }
    set << first
}

// Whether the cell holds something.
fn arrived(c: Cell) -> bool
    ensures { result ≡ arrived (paper_cell c) }
{
    !matches!(c, Cell::Lost)
}

// Whether the cell holds just this message: the value where it is given, else "?".
fn holds(c: Cell, given: bool, value: u32) -> bool
    ensures { result ≡ holds (paper_cell c) (message given value) }
{
    match c {
        Cell::Lost => false, // a lost cell is no value, and so not 0
        Cell::Value(v) => given && v == value,
        Cell::Query => !given,
    }
}

// Whether the cell holds a value.
fn has_value(c: Cell) -> bool
    ensures { result ≡ passes_in any (paper_cell c) }
{
    matches!(c, Cell::Value(_))
}

// What each station ought to send: its vote in a vote round, else its estimate. A flag and a run, as the definition has
// them.
#[tactic(auto, unfolding(crate::specs::Surveying::prescribed))]
pub fn prescribed(voting: bool, run: Run) -> Sent
    ensures { result ≡ prescribed voting run }
{
    if voting {
        let given = run.voted;
        let values = run.votes;
        Sent { given, values }
    } else {
        let given = [true; Run::STATIONS];
        let values = run.estimates;
        Sent { given, values }
    }
}

// Whom a receiver heard among n senders, and from whom it heard what that sender ought to send.
pub fn sets_of(cells: [Cell; Run::STATIONS], sent: Sent, n: u8) -> Sets
    ensures { result ≡ sets_of (min n stations) (row_of cells) (messages_of sent) }
{
    let Sent { given, values } = sent;
    let mut sets = Sets { ho: 0, sho: 0 };
    // both in one pass: by `mask` twice a round takes 1.05 to 1.06 of its time, and more than 1.05 is too much
    for q in (0..block::places(n)).rev() {
        let c = cells[q];
        sets.ho = grown(sets.ho, arrived(c));
        sets.sho = grown(sets.sho, holds(c, given[q], values[q]));
    }
    sets
}

// Whom a receiver heard otherwise than was to be sent: who is in the mask of HO and not in that of SHO.
pub fn altered(sets: Sets) -> u32
    ensures { result ≡ mask_without sets.ho sets.sho }
{
    sets.ho - (sets.ho & sets.sho)
}

// A cell's value as a number that is 0 where it has none.
fn code_of(c: Cell) -> u64
    ensures { result ≡ code_of (paper_cell c) }
{
    match c {
        Cell::Value(v) => v as u64 + 1,
        Cell::Lost | Cell::Query => 0,
    }
}

// The values of a row of n senders, and who sent one.
pub(crate) fn spoken(cells: [Cell; Run::STATIONS], n: u8) -> Spoken
    ensures { result ≡ spoken_in (min n stations) (row_of cells) }
{
    let codes = each::filled(block::places(n), 0, |q| code_of(cells[q]));
    let senders = mask(0, n, |q| has_value(cells[q]));
    Spoken { codes, senders }
}

// Who among n senders sent the value v, from this one on.
pub(crate) fn senders(codes: &[u64; Run::STATIONS], first: usize, n: u8, v: u32) -> u32
    requires { first < min n stations }
    ensures { result ≡ mask (min n stations) (from first (sent_code codes.now v)) }
{
    mask(first, n, |q| codes[q] == v as u64 + 1)
}
