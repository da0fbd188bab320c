// Images: a run saved into a lent buffer, and loaded from one (rules 6, 12.3 and 12.4). An image is the setup, the
// default and the clock, then four blocks of a record for each station: estimates, votes, decisions and their rounds.
#![tactic(auto)]

ghost use Rattle.std.specs.Prelude.{◌≡◌, ℕ, Bool, ◌+◌, ◌<◌, not, length};
ghost use Rattle.run.specs.Reply.{refuse_at, Rules};
ghost use Rattle.run.specs.First.{first};
ghost use Rattle.run.specs.Run.{station_at};
ghost use Rattle.run.specs.Opening.{opened};
ghost use Rattle.image.specs.Image.{
  image_length,
  votes_from,
  decisions_from,
  rounds_from,
  check_save,
  saved,
  check_records,
  check_form,
  run_in,
  check_rules,
  loaded,
};
ghost use Rattle.image.specs.Putting.{put_image};

use put::records;
use run::block::Shape;
use run::{Opened, Refusal, Reply, Run, Station, block, each, head, kinds, record};

const CLOCK_AT: usize = 2; // where the clock stands, and what a reply names

const CLOCK_PLACE: u32 = CLOCK_AT as u32;

const ESTIMATES: u16 = 3; // where the blocks begin

const HEAD: usize = ESTIMATES as usize; // the records before them

const BLOCKS: usize = 4;

const ESTIMATES_SHAPE: Shape = Shape::Number(kinds::ESTIMATE); // the records of the blocks

const VOTES_SHAPE: Shape = Shape::Maybe(kinds::NO_VOTE, kinds::VOTE);

const DECISIONS_SHAPE: Shape = Shape::Maybe(kinds::UNDECIDED, kinds::DECIDED);

const ROUNDS_SHAPE: Shape = Shape::Number(kinds::DECISION_ROUND);

// Where the other blocks begin (rule 6.2): three words of the rule; one function of a block's number is no plainer.
fn votes_from(n: u8) -> u16
    ensures { result ≡ votes_from n }
{
    ESTIMATES + u16::from(n)
}

fn decisions_from(n: u8) -> u16
    ensures { result ≡ decisions_from n }
{
    ESTIMATES + 2 * u16::from(n)
}

fn rounds_from(n: u8) -> u16
    ensures { result ≡ rounds_from n }
{
    ESTIMATES + 3 * u16::from(n)
}

// Rule 1.7.
pub fn image_length(n: u8) -> usize
    ensures { result ≡ image_length n }
{
    Run::RECORD * (HEAD + BLOCKS * n as usize)
}

// Writes the image's records, as far as the slice has them.
pub fn put_image(bytes: &mut [u8], run: Run)
    ensures { bytes.new ≡ put_image bytes.old run }
{
    let n = run.setup.n;
    let at = |i: u8| run.station(i as usize);
    records::put_head(bytes, run.setup, run.default);
    records::put_record(bytes, CLOCK_AT, records::plain(kinds::CLOCK, 0, run.clock));
    records::put_each(bytes, ESTIMATES, n, |i| {
        records::plain(kinds::ESTIMATE, i, at(i).estimate)
    });
    records::put_each(bytes, votes_from(n), n, |i| {
        records::record_of(VOTES_SHAPE, i, at(i).voted, at(i).vote)
    });
    records::put_each(bytes, decisions_from(n), n, |i| {
        records::record_of(DECISIONS_SHAPE, i, at(i).decided, at(i).decision)
    });
    records::put_each(bytes, rounds_from(n), n, |i| {
        records::plain(kinds::DECISION_ROUND, i, at(i).round)
    });
}

// Saves a sound run into a buffer of exactly its image's length; a refusal writes no byte (rule 12.4).
#[tactic(auto, unfolding(crate::specs::Image::check_save))]
pub fn save(run: Run, out: &mut [u8]) -> Reply
    ensures reply { result ≡ check_save run (length out.old) }
    ensures bytes { out.new ≡ saved run out.old }
{
    if !rules::sound(run) {
        return Err(Refusal::Rules(0));
    }
    if out.len() != image_length(run.setup.n) {
        return Err(Refusal::Buffer);
    }
    put_image(out, run);
    Ok(())
}

// The records after the default, as far as kind, station and zero bytes go.
#[tactic(auto, unfolding(crate::specs::Image::check_records, crate::specs::Image::check_blocks))]
fn check_records(bytes: &[u8], n: u8) -> Reply
    ensures { result ≡ check_records bytes.now n }
{
    if !block::is_plain(record::record_at(bytes, CLOCK_AT), kinds::CLOCK, 0) {
        return Err(Refusal::Malformed(CLOCK_PLACE));
    }
    block::check_block(bytes, ESTIMATES, n, ESTIMATES_SHAPE)?;
    block::check_block(bytes, votes_from(n), n, VOTES_SHAPE)?;
    block::check_block(bytes, decisions_from(n), n, DECISIONS_SHAPE)?;
    block::check_block(bytes, rounds_from(n), n, ROUNDS_SHAPE)
}

// What the bytes are refused with before a run is read from them: the form comes first (rule 6.4).
#[tactic(auto, unfolding(crate::specs::Image::check_form))]
fn check_form(bytes: &[u8]) -> Reply
    ensures { result ≡ check_form bytes.now }
{
    head::check_head(bytes)?;
    let n = head::setup_in(bytes).n;
    if bytes.len() != image_length(n) {
        return Err(Refusal::Length);
    }
    head::check_default(bytes)?;
    check_records(bytes, n)
}

// The run that the records spell (rule 6.3).
fn run_in(bytes: &[u8]) -> Run
    ensures { result ≡ run_in bytes.now }
{
    let setup = head::setup_in(bytes);
    let n = setup.n;
    let votes = votes_from(n);
    let decisions = decisions_from(n);
    let rounds = rounds_from(n);
    Run {
        setup,
        default: head::default_in(bytes),
        clock: record::record_at(bytes, CLOCK_AT).number,
        estimates: block::numbers_in(bytes, ESTIMATES, n),
        voted: block::flags_in(bytes, votes, n, kinds::VOTE),
        votes: block::numbers_in(bytes, votes, n),
        decided: block::flags_in(bytes, decisions, n, kinds::DECIDED),
        decisions: block::numbers_in(bytes, decisions, n),
        rounds: block::numbers_in(bytes, rounds, n),
    }
}

// Refuses the first station that does not fit, told by its record in the block from start on.
fn check_stations<F: Fn(Station) -> bool>(run: &Run, start: u16, fits: F) -> Reply
    requires { F.IsAlwaysCallable fits }
    ensures { (f : ℕ → Bool) → ((i : ℕ) (b : Bool) → i < run.now.setup.n → F.post fits (station_at run.now i) b → b ≡ f i)
        → result ≡ refuse_at (first run.now.setup.n (λ i. not (f i))) (λ i. Rules (start + i)) }
{
    match each::first(run.setup.n as usize, |i| !fits(run.station(i))) {
        Some(i) => Err(Refusal::Rules(start as u32 + i as u32)),
        None => Ok(()),
    }
}

// What a run that was read is refused with (rule 6.5): its clock, or the first vote that breaks rule 5.5, or the first
// decision that breaks rule 5.6 or 5.7, told by the record of its round.
fn check_rules(run: &Run) -> Reply
    ensures { result ≡ check_rules run.now }
{
    let s = run.setup;
    let clock = run.clock;
    if clock > Run::ROUNDS {
        return Err(Refusal::Rules(CLOCK_PLACE));
    }
    check_stations(
        run,
        votes_from(s.n),
        |p| rules::vote_fits(s, clock, p.voted),
    )?;
    check_stations(
        run,
        rounds_from(s.n),
        |p| rules::decision_fits(s, clock, p.decided, p.round),
    )
}

// The run that an image gives, or why it gives none.
#[tactic(auto, unfolding(crate::specs::Image::loaded, crate::specs::Image::check_image))]
fn read(bytes: &[u8]) -> Result<Run, Refusal>
    ensures { opened result ≡ loaded bytes.now }
{
    check_form(bytes)?;
    let run = run_in(bytes);
    check_rules(&run)?;
    Ok(run)
}

// Loads the run that an image spells, or the idle run where the image is refused (rules 12.3 and 6.6).
pub fn load(bytes: &[u8]) -> Opened
    ensures { result ≡ loaded bytes.now }
{
    Opened::from(read(bytes))
}
