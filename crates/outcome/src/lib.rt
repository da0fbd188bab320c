// What a round makes of one station, told from the count of its row: Algorithm 1, and the two halves of Algorithm 2,
// line by line (rules 8 and 9).
#![tactic(auto)]

ghost use Rattle.std.specs.Prelude.{◌≡◌, not, ◌&&◌, ◌||◌, cond, eqb};
ghost use Rattle.std.specs.Int.Count.{ones};
ghost use Rattle.paper.specs.Setup as setup;
ghost use Rattle.limits.specs.Setup.{setup_of};
ghost use Rattle.outcome.specs.Told.{update_told, value_told, vote_told, deeds_told, kept_told, told};

use hearing::Tally;
use limits::{Setup, guard, is_u};
use run::Station;

// What a round does: the estimate and the vote that it leaves, and the value that it decides, if any. The vote is a flag
// and a number as in Station: under A `told` leaves both as they were handed in.
#[derive(Clone, Copy)]
pub struct Deeds {
    pub estimate: u32,
    pub voted: bool,
    pub vote: u32,
    pub fired: Option<u32>,
}

// What a round makes of one station: what it then holds, and for which value the decide rule fired, if it did.
#[derive(Clone, Copy)]
pub struct Outcome {
    pub station: Station,
    pub fired: Option<u32>,
}

// Whether A's rule moves the estimate: enough were heard, and a value was received.
fn moves(s: Setup, ho: u32, t: Tally) -> bool
    ensures { result ≡ setup.passes_t (setup_of s) (ones ho) && not (eqb t.senders 0) }
{
    guard::passes_t(s, ho) && t.senders != 0
}

// Algorithm 1, each round. `t.value` came most often and `t.senders` sent it: if any value passes T or E, it is this
// one.
#[tactic(auto, unfolding(crate::specs::Told::update_told))]
fn update_round(s: Setup, x: Station, ho: u32, t: Tally) -> Deeds
    ensures { result ≡ update_told s x ho t }
{
    Deeds {
        estimate: if moves(s, ho, t) { t.value } else { x.estimate }, // lines 7 and 8
        voted: x.voted, // there are no votes
        vote: x.vote,
        fired: guard::passes_e(s, t.senders).then_some(t.value), // lines 9 and 10
    }
}

// Algorithm 2, round 2 phi - 1.
#[tactic(auto, unfolding(crate::specs::Told::value_told))]
fn value_round(s: Setup, x: Station, t: Tally) -> Deeds
    ensures { result ≡ value_told s x t }
{
    let casts = guard::passes_t(s, t.senders); // lines 8 and 9
    Deeds {
        estimate: x.estimate, // no line touches the estimate
        voted: casts || x.voted,
        vote: if casts { t.value } else { x.vote },
        fired: None, // and none decides
    }
}

// Algorithm 2, round 2 phi. `t.least` is the smallest value that came at least alpha + 1 times, if one did.
#[tactic(auto, unfolding(crate::specs::Told::vote_told))]
fn vote_round(s: Setup, default: u32, t: Tally) -> Deeds
    ensures { result ≡ vote_told s default t }
{
    Deeds {
        estimate: t.least.unwrap_or(default), // lines 14 to 17
        voted: false, // line 20
        vote: 0,
        fired: guard::passes_e(s, t.senders).then_some(t.value), // lines 18 and 19
    }
}

// The round's deeds, by its kind. `voting`: this is a vote round. A choice between the paper's three rules by name is
// plainer than a rule handed in.
#[tactic(auto, unfolding(crate::specs::Told::deeds_told))]
fn deeds_of(s: Setup, default: u32, voting: bool, x: Station, ho: u32, t: Tally) -> Deeds
    ensures { result ≡ deeds_told s default voting x ho t }
{
    if voting {
        return vote_round(s, default, t);
    }
    if is_u(s) {
        return value_round(s, x, t);
    }
    update_round(s, x, ho, t)
}

// The station after round `number`: the first decision is kept with its round, and a later firing changes nothing.
#[tactic(auto, unfolding(crate::specs::Told::kept_told))]
fn kept(number: u32, x: Station, d: Deeds) -> Station
    ensures { result ≡ kept_told number x d }
{
    let mut next = x;
    next.estimate = d.estimate;
    next.voted = d.voted;
    next.vote = d.vote;
    if x.decided {
        return next;
    }
    if let Some(v) = d.fired {
        next.decided = true;
        next.decision = v;
        next.round = number;
    }
    next
}

// What round `number` makes of one station that heard these, with this count of its row, and what fires at it. The
// parameters are those of `told`, which the promise cites.
#[tactic(auto, unfolding(crate::specs::Told::told))]
pub fn outcome_of(
    s: Setup,
    default: u32,
    number: u32,
    voting: bool,
    x: Station,
    ho: u32,
    t: Tally,
) -> Outcome
    ensures { result ≡ told s default number voting x ho t }
{
    let d = deeds_of(s, default, voting, x, ho, t);
    Outcome {
        station: kept(number, x, d),
        fired: d.fired,
    }
}
