// The switch's entries, for a host in C or Rust: a run opened into a lent image, and a lent image stepped by a lent
// round (rules 15). The crate switch_c exports them.
#![tactic(auto)]

ghost use Rattle.std.specs.Prelude.{◌≡◌};
ghost use Rattle.switch.specs.Switch.{answer_of, open_reply, open_image, step_reply, step_image};

use image::{image_length, load, put_image};
use judge::step::step;
use run::{Refusal, Reply, Run, reply};

const PLACE: u64 = 4294967296; // the place stands above the low 32 bits

// The answer as one number: the reply's in the low 32 bits, its place in the high 32.
fn answer(reply: Reply) -> u64
    ensures { result ≡ answer_of reply }
{
    u64::from(reply::number(reply)) + PLACE * u64::from(reply::place(reply))
}

// The opening's refusals, then 9; else the image of the run is put into the buffer.
#[tactic(auto, using(run::proofs::Asked::handed, run::proofs::Asked::stops, run::proofs::Openings::opened_reply), unfolding(crate::specs::Switch::open_reply, crate::specs::Switch::open_image))]
fn open_into(opening: &[u8], image: &mut [u8]) -> Reply
    ensures reply { result ≡ open_reply opening.now image.old }
    ensures bytes { image.new ≡ open_image opening.now image.old }
{
    let opened = Run::open(opening);
    opened.reply?;
    if image.len() != image_length(opened.run.setup.n) {
        return Err(Refusal::Buffer);
    }
    put_image(image, opened.run);
    Ok(())
}

// The image's refusals, then the round's; else the image of the next run is put in its place.
#[tactic(auto, using(run::proofs::Asked::handed, run::proofs::Asked::stops, image::proofs::Images::loaded_reply, judge::proofs::Steps::reply_is), unfolding(crate::specs::Switch::step_reply, crate::specs::Switch::step_image))]
fn step_in(image: &mut [u8], round: &[u8]) -> Reply
    ensures reply { result ≡ step_reply image.old round.now }
    ensures bytes { image.new ≡ step_image image.old round.now }
{
    let loaded = load(image);
    loaded.reply?;
    let stepped = step(loaded.run, round);
    stepped.reply?;
    put_image(image, stepped.run);
    Ok(())
}

// Opens a run into a buffer of exactly its image's length: the opening's refusals, then 9. A refusal writes no byte.
pub fn judge_open(opening: &[u8], image: &mut [u8]) -> u64
    ensures reply { result ≡ answer_of (open_reply opening.now image.old) }
    ensures bytes { image.new ≡ open_image opening.now image.old }
{
    answer(open_into(opening, image))
}

// Steps an image by one round: the image's refusals, then the round's. An accepted round has it rewritten;
// a refusal writes no byte.
pub fn judge_step(image: &mut [u8], round: &[u8]) -> u64
    ensures reply { result ≡ answer_of (step_reply image.old round.now) }
    ensures bytes { image.new ≡ step_image image.old round.now }
{
    answer(step_in(image, round))
}
