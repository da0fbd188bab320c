// The rules of a run (rules 5.2 to 5.9): what every run that an opening or an image gives keeps.
#![tactic(auto)]

ghost use Rattle.std.specs.Prelude.{◌≡◌};
ghost use Rattle.run.specs.Run.{
  may_vote,
  may_decide,
  vote_fits,
  decision_fits,
  kept_fits,
  station_fits,
  clear,
  place_fits_in,
  head_fits,
  sound,
};

use limits::inequalities::acceptable;
use limits::{Setup, is_u};
use run::{Run, Station, each, head};

// Votes stand between a value round and its vote round, and only U has these. The setup and the clock stay apart here
// and below, as in the definitions that docs/STATEMENTS.md names.
#[tactic(auto, unfolding(run::specs::Run::may_vote))]
pub fn may_vote(s: Setup, clock: u32) -> bool
    ensures { result ≡ may_vote s clock }
{
    is_u(s) && clock % 2 == 1
}

// A decision's round is one that was accepted, and under U a vote round.
#[tactic(auto, unfolding(run::specs::Run::may_decide))]
fn may_decide(s: Setup, clock: u32, round: u32) -> bool
    ensures { result ≡ may_decide s clock round }
{
    round >= 1 && round <= clock && (!is_u(s) || round % 2 == 0)
}

#[tactic(auto, unfolding(run::specs::Run::vote_fits))]
pub fn vote_fits(s: Setup, clock: u32, voted: bool) -> bool
    ensures { result ≡ vote_fits s clock voted }
{
    !voted || may_vote(s, clock)
}

#[tactic(auto, unfolding(run::specs::Run::decision_fits))]
pub fn decision_fits(s: Setup, clock: u32, decided: bool, round: u32) -> bool
    ensures { result ≡ decision_fits s clock decided round }
{
    if decided {
        may_decide(s, clock, round)
    } else {
        round == 0
    }
}

// No number is kept beside "?", and none beside undecided. Flags with a number here, no Options: that is what is asked.
#[tactic(auto, unfolding(run::specs::Run::kept_fits))]
fn kept_fits(there: bool, number: u32) -> bool
    ensures { result ≡ kept_fits there number }
{
    there || number == 0
}

#[tactic(auto, unfolding(run::specs::Run::station_fits))]
fn station_fits(s: Setup, clock: u32, p: Station) -> bool
    ensures { result ≡ station_fits s clock p }
{
    vote_fits(s, clock, p.voted)
        && decision_fits(s, clock, p.decided, p.round)
        && kept_fits(p.voted, p.vote)
        && kept_fits(p.decided, p.decision)
}

// Nothing is held where there is no station.
#[tactic(auto, unfolding(run::specs::Run::clear))]
fn clear(p: Station) -> bool
    ensures { result ≡ clear p }
{
    p == Station::default()
}

// Place i of the arrays may hold what it does.
#[tactic(auto, unfolding(run::specs::Run::place_fits))]
fn place_fits(run: &Run, i: usize) -> bool
    ensures { result ≡ place_fits_in run.now i }
{
    let p = run.station(i);
    if i < run.setup.n as usize {
        station_fits(run.setup, run.clock, p)
    } else {
        clear(p)
    }
}

// The setup, the default and the clock.
#[tactic(auto, unfolding(run::specs::Run::head_fits))]
fn head_fits(run: &Run) -> bool
    ensures { result ≡ head_fits run.now.setup run.now.default run.now.clock }
{
    let s = run.setup;
    head::in_range(s)
        && acceptable(s)
        && head::default_fits(s, run.default)
        && run.clock <= Run::ROUNDS
}

// Whether the run keeps every rule, whatever it holds.
pub fn sound(run: Run) -> bool
    ensures { result ≡ sound run }
{
    head_fits(&run) && each::first(Run::STATIONS, |i| !place_fits(&run, i)).is_none()
}
