// How often values came: a row is counted value by value, so that the work goes with the number of different values
// (rules 7.10, 8.2 and 9.6).
ghost use Rattle.std.specs.Prelude.{◌≡◌, min};
ghost use Rattle.paper.specs.Setup as setup;
ghost use Rattle.limits.specs.Setup.{setup_of};
ghost use Rattle.run.specs.Run.{stations};
ghost use Rattle.round.specs.Bridge.{paper_cell};
ghost use Rattle.hearing.specs.Surveying.{row_of};
ghost use Rattle.hearing.specs.Tally.{tally};
ghost use Rattle.hearing.specs.Counting.{outdoes, with_most, undercuts, with_least, value_of};

use super::{Tally, heard};
use limits::{Setup, guard};
use round::Cell;
use run::Run;

// The value in a cell, 0 where it has none.
fn value_of(c: Cell) -> u32
    ensures { result ≡ value_of (paper_cell c) }
{
    match c {
        Cell::Value(v) => v,
        Cell::Lost | Cell::Query => 0,
    }
}

// Whether v, with these senders, came more often than the value so far, or as often and is smaller.
fn outdoes(t: Tally, v: u32, set: u32) -> bool
    ensures { result ≡ outdoes t v set }
{
    let most = u32::count_ones(t.senders);
    let size = u32::count_ones(set);
    most < size || most == size && v < t.value
}

#[tactic(auto, unfolding(crate::specs::Counting::with_most))]
fn with_most(t: Tally, v: u32, set: u32) -> Tally
    ensures { result ≡ with_most t v set }
{
    if outdoes(t, v, set) {
        Tally {
            value: v,
            senders: set,
            ..t
        }
    } else {
        t
    }
}

// Whether v, with these senders, came at least alpha + 1 times and is smaller than any so far that did.
fn undercuts(s: Setup, t: Tally, v: u32, set: u32) -> bool
    ensures { result ≡ undercuts t v set (setup.vouched (setup_of s)) }
{
    guard::vouched(s, set) && t.least.is_none_or(|least| v < least)
}

// Beside with_most: two rules of the count, each an update of its own fields.
#[tactic(auto, unfolding(crate::specs::Counting::with_least))]
fn with_least(s: Setup, t: Tally, v: u32, set: u32) -> Tally
    ensures { result ≡ with_least t v set (setup.vouched (setup_of s)) }
{
    if undercuts(s, t, v, set) {
        Tally {
            least: Some(v),
            ..t
        }
    } else {
        t
    }
}

// The count of a row of the setup's n senders, with the smallest value that came at least alpha + 1 times: one turn for
// each different value, that of the lowest sender not counted yet.
pub fn tally(cells: [Cell; Run::STATIONS], s: Setup) -> Tally
    ensures { result ≡ tally (min s.n stations) (row_of cells) (setup.vouched (setup_of s)) }
{
    let n = s.n;
    let mut t = Tally {
        value: 0,
        senders: 0,
        least: None,
    };
    let spoken = heard::spoken(cells, n);
    let codes = spoken.codes;
    let mut left = spoken.senders;
    // a set's bits, taken value by value: no index is counted
    while left != 0 {
        let q = u32::trailing_zeros(left) as usize;
        let v = value_of(cells[q]);
        let set = heard::senders(&codes, q, n, v);
        t = with_least(s, with_most(t, v, set), v, set);
        left -= set;
    }
    t
}
