// Playing a part of a tape (rules 13.4 to 13.8): its rounds taken in order, until nothing is left or one is refused.
#![tactic(auto)]

ghost use Rattle.std.specs.Prelude.{◌≡◌, ◌+◌, ◌≤◌, take, drop, IfOk, IfErr};
ghost use Rattle.paper.specs.Rules.{update, value, vote};
ghost use Rattle.run.specs.Keeps.{Keeps};
ghost use Rattle.run.specs.Run.{most_rounds};
ghost use Rattle.round.specs.Reading.{round_length};
ghost use Rattle.judge.specs.Step.{step_of};
ghost use Rattle.play.specs.Play.{ended, more, first_of, rounds_of, take_rounds, take_tape, play_of, Awaits};

use judge::Stepped;
use judge::step::step;
use limits::is_u;
use round::read;
use run::{Refusal, Reply, Run};

// The rounds that are handed on at a time: each takes a frame, and so a long tape takes no more stack than these.
const PART: usize = 16;

// What playing a part answers (rules 13.5 to 13.7): the run, the reply with its place in the refused round, and how
// many rounds were accepted. No Result: all three stand beside a refusal too.
#[derive(Clone, Copy)]
pub struct Played {
    pub run: Run,
    pub reply: Reply,
    pub rounds: u32,
}

// The answer where no round is accepted: nothing is left, or this is the refusal.
fn ended(run: Run, reply: Reply) -> Played
    ensures { result ≡ ended run reply }
{
    Played {
        run,
        reply,
        rounds: 0, // a refused round does not count
    }
}

// The answer where some rounds were accepted before.
fn after(before: u32, a: Played) -> Played
    requires { a.rounds + before ≤ most_rounds }
    ensures { result ≡ more before a }
{
    Played {
        rounds: a.rounds + before,
        ..a
    }
}

// Takes one round. It stands apart: compiled into `take_first`, a step moves its run field by field, and the longest
// tape takes twice the time.
#[inline(never)]
fn take_one(run: Run, round: &[u8]) -> Stepped
    ensures { result ≡ step_of run round.now }
{
    step(run, round)
}

// Takes the first round of the tape, or the rest if that is shorter: the next run with what is left of the tape; or the
// answer, where nothing is left or the round is refused.
fn take_first(run: Run, tape: &[u8]) -> Result<(Run, &[u8]), Played>
    ensures first { first_of result ≡ take_rounds run (take 1 (rounds_of run tape.now)) }
    ensures rest { IfOk result (λ left. left.1.now ≡ drop (round_length run.setup.n) tape.now) }
    ensures none { IfErr result (λ a. a.rounds ≡ 0) }
{
    if tape.is_empty() {
        return Err(ended(run, Ok(())));
    }
    let size = read::round_length(run.setup.n).min(tape.len());
    let (round, rest) = tape.split_at(size);
    let stepped = take_one(run, round);
    match stepped.reply {
        Ok(()) => Ok((stepped.run, rest)),
        Err(refusal) => Err(ended(run, Err(refusal))),
    }
}

// Takes a value round of U, and hands the rest on to the vote round that follows. Rule 13.10 has the two hand on to each
// other, so they stay two functions; what they share is `take_first`.
#[cycle(rounds_of_u)]
fn value_round(run: Run, tape: &[u8]) -> Played
    requires { Awaits value run }
    ensures { result ≡ take_tape run tape.now }
{
    match take_first(run, tape) {
        Ok((next, rest)) => after(1, vote_round(next, rest)),
        Err(played) => played,
    }
}

// Takes a vote round of U, and hands the rest on to the value round that follows.
#[cycle(rounds_of_u)]
fn vote_round(run: Run, tape: &[u8]) -> Played
    requires { Awaits vote run }
    ensures { result ≡ take_tape run tape.now }
{
    match take_first(run, tape) {
        Ok((next, rest)) => after(1, value_round(next, rest)),
        Err(played) => played,
    }
}

// Takes a round of A, and hands the rest on: its rounds are all of one kind.
fn round_of_a(run: Run, tape: &[u8]) -> Played
    requires { Awaits update run }
    ensures { result ≡ take_tape run tape.now }
{
    match take_first(run, tape) {
        Ok((next, rest)) => after(1, round_of_a(next, rest)),
        Err(played) => played,
    }
}

// Plays a few rounds, by the kind of the round that the run waits for: three tests of the run, no table of functions,
// since each function asks for its own kind (`Awaits`).
#[tactic(auto, using(run::proofs::Asked::fails, run::proofs::Asked::passes, crate::proofs::Awaited::under_a, crate::proofs::Awaited::votes_first, crate::proofs::Awaited::values_first))]
fn play_part(run: Run, tape: &[u8]) -> Played
    requires { Keeps run }
    ensures { result ≡ take_tape run tape.now }
{
    if !is_u(run.setup) {
        return round_of_a(run, tape);
    }
    if rules::may_vote(run.setup, run.clock) {
        return vote_round(run, tape);
    }
    value_round(run, tape)
}

// Plays a tape of any length, PART rounds at a time.
fn play_parts(run: Run, tape: &[u8]) -> Played
    requires { Keeps run }
    ensures { result ≡ take_tape run tape.now }
{
    let size = PART * read::round_length(run.setup.n);
    let mut played = ended(run, Ok(()));
    let mut left = tape;
    while !left.is_empty() {
        let (part, rest) = left.split_at(size.min(left.len()));
        played = after(played.rounds, play_part(played.run, part));
        if played.reply.is_err() {
            return played;
        }
        left = rest;
    }
    played
}

// Plays a part of a tape.
#[tactic(auto, using(run::proofs::Asked::fails, run::proofs::Asked::passes, run::proofs::Sound::sound_iff, crate::proofs::Plays::play_bad, crate::proofs::Plays::play_good), unfolding(crate::specs::Play::play_of))]
pub fn play(run: Run, tape: &[u8]) -> Played
    ensures { result ≡ play_of run tape.now }
{
    if !rules::sound(run) {
        return ended(run, Err(Refusal::Rules(0)));
    }
    play_parts(run, tape)
}
