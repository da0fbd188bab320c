// The switch's entries as C calls them (rules 15): each is the one of `switch`, under the same promises.
#![tactic(auto)]

ghost use Rattle.std.specs.Prelude.{◌≡◌};
ghost use Rattle.switch.specs.Switch.{answer_of, open_reply, open_image, step_reply, step_image};

// Opens a run into a buffer of exactly its image's length: the opening's refusals, then 9. A refusal writes no byte.
#[unsafe(no_mangle)]
pub extern "C" fn judge_open(opening: &[u8], image: &mut [u8]) -> u64
    ensures reply { result ≡ answer_of (open_reply opening.now image.old) }
    ensures bytes { image.new ≡ open_image opening.now image.old }
{
    switch::judge_open(opening, image)
}

// Steps an image by one round: the image's refusals, then the round's. An accepted round has it rewritten;
// a refusal writes no byte.
#[unsafe(no_mangle)]
pub extern "C" fn judge_step(image: &mut [u8], round: &[u8]) -> u64
    ensures reply { result ≡ answer_of (step_reply image.old round.now) }
    ensures bytes { image.new ≡ step_image image.old round.now }
{
    switch::judge_step(image, round)
}
