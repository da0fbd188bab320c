// One round taken: its checks in order, and what becomes of each station (rules 9.11 and 12.8).
ghost use Rattle.std.specs.Prelude.{◌≡◌, ◌<◌, IfOk, IfErr, Err};
ghost use Rattle.run.specs.Run.{stations};
ghost use Rattle.judge.specs.Step.{unstepped, step_of};
ghost use Rattle.judge.specs.Taking.{check_room, sets_asked, begun, placed, advanced};

use super::{Counted, Ready, Stepped};
use hearing::{Sets, heard};
use limits::{guard, is_u};
use outcome::outcome_of;
use round::read;
use run::{Refusal, Reply, Run, Station, each};

// 10, 8, 1.
#[tactic(auto, unfolding(crate::specs::Taking::check_room))]
fn check_room(run: Run, round: &[u8]) -> Reply
    ensures { result ≡ check_room run round.now }
{
    if !rules::sound(run) {
        return Err(Refusal::Rules(0));
    }
    if run.clock >= Run::ROUNDS {
        return Err(Refusal::Full);
    }
    if round.len() != read::round_length(run.setup.n) {
        return Err(Refusal::Length);
    }
    Ok(())
}

// What a refused round answers: the run handed in, no firing and empty sets.
fn unstepped(reply: Reply, run: Run) -> Stepped
    ensures { result ≡ unstepped reply run }
{
    Stepped {
        reply,
        run,
        fired: [None; Run::STATIONS],
        ho: [0; Run::STATIONS],
        sho: [0; Run::STATIONS],
    }
}

// The run after a round, before its stations are told: its setup and default, the next clock, and nothing held.
fn begun(run: Run, number: u32) -> Run
    ensures { result ≡ begun run number }
{
    let mut next = Run::idle();
    next.setup = run.setup;
    next.default = run.default;
    next.clock = number;
    next
}

// Stores what the run then holds of station p.
fn place(next: &mut Run, p: usize, s: Station)
    requires { p < stations }
    ensures { next.new ≡ placed next.old p s }
{
    next.estimates[p] = s.estimate;
    next.voted[p] = s.voted;
    next.votes[p] = s.vote;
    next.decided[p] = s.decided;
    next.decisions[p] = s.decision;
    next.rounds[p] = s.round;
}

impl Ready<'_> {
    // 6 at the lowest receiver for which too many cells were altered; then under U 7 at the lowest that heard too few
    // safely.
    fn ask_sets(&self, ho: [u32; Run::STATIONS], sho: [u32; Run::STATIONS]) -> Reply
        ensures { result ≡ sets_asked self.now.run.now.setup ho sho }
    {
        let setup = self.run.setup;
        let n = setup.n as usize;
        let misheard = each::first(n, |p| {
            let sets = Sets {
                ho: ho[p],
                sho: sho[p],
            };
            !guard::tolerated(setup, heard::altered(sets))
        });
        if let Some(p) = misheard {
            return Err(Refusal::Altered(p as u32));
        }
        if !is_u(setup) {
            return Ok(());
        }
        match each::first(n, |p| !guard::passes_bound(setup, sho[p])) {
            Some(p) => Err(Refusal::Unsafe(p as u32)),
            None => Ok(()),
        }
    }

    // The run after a round that passed every check: each station's outcome, from what the run holds of it and what its
    // row tells.
    fn advance(&self, counted: Counted) -> Stepped
        ensures { result ≡ advanced self.now.run.now self.now.voting counted }
    {
        let run = self.run;
        let number = run.clock + 1;
        let mut next = begun(*run, number);
        let mut fired = [None; Run::STATIONS];
        for p in 0..run.setup.n as usize {
            let before = run.station(p);
            let o = outcome_of(
                run.setup,
                run.default,
                number,
                self.voting,
                before,
                counted.ho[p],
                counted.tallies[p],
            );
            place(&mut next, p, o.station);
            fired[p] = o.fired;
        }
        let ho = counted.ho;
        let sho = counted.sho;
        Stepped {
            reply: Ok(()),
            run: next,
            fired,
            ho,
            sho,
        }
    }
}

// A round that is accepted: room for it, its records, then 6 and 7 asked of its sets. What is then left is to move the
// stations, which `step` does where its answer stands: a `Stepped` that goes through a `Result` is copied.
fn take<'a>(run: &'a Run, round: &[u8]) -> Result<(Ready<'a>, Counted), Refusal>
    ensures ok { IfOk result (λ x. advanced x.0.run.now x.0.voting x.1 ≡ step_of run.now round.now) }
    ensures err { IfErr result (λ r. unstepped (Err r) run.now ≡ step_of run.now round.now) }
{
    check_room(*run, round)?;
    let voting = rules::may_vote(run.setup, run.clock);
    let ready = Ready { run, voting };
    let counted = ready.count_rows(round)?;
    ready.ask_sets(counted.ho, counted.sho)?;
    Ok((ready, counted))
}

// Takes a round: the next run and what fired, or the run handed in with the first refusal.
pub fn step(run: Run, round: &[u8]) -> Stepped
    ensures { result ≡ step_of run round.now }
{
    match take(&run, round) {
        Ok((ready, counted)) => ready.advance(counted),
        Err(refusal) => unstepped(Err(refusal), run),
    }
}
