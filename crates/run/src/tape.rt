// A tape's two parts: the opening's bytes and the rounds' (rules 13.1 to 13.3).
ghost use Rattle.std.specs.Prelude.{◌≡◌, [], ◌∷◌, map, ◌≤◌, min, length, get_or};
ghost use Rattle.run.specs.Record.{record_bytes};
ghost use Rattle.run.specs.Tape.{n_at, opening_size, longest_opening, opening_part, rounds_part};

use super::{Run, opening};

const N_AT: usize = 2; // where n stands in the setup's record

pub const LONGEST_OPENING: usize = Run::RECORD * (opening::HEAD + 255); // what byte 2 can ask for at most

// Byte 2 of a tape, 0 where it has none.
fn n_in(head: &[u8]) -> u8
    ensures { result ≡ get_or head.now n_at 0 }
{
    head.get(N_AT).copied().unwrap_or(0)
}

// The bytes that a tape's opening asks for, told from its first record: asked first when a tape is read as it comes.
#[tactic(auto, unfolding(crate::specs::Tape::opening_size))]
pub fn opening_size(head: &[u8]) -> usize
    ensures value { result ≡ opening_size head.now }
    ensures lower_bound { (record_bytes ≤ result) × (result ≤ longest_opening) }
{
    opening::opening_length(n_in(head))
}

// Where the rounds begin; a short tape ends there.
fn rounds_from(tape: &[u8]) -> usize
    ensures { result ≡ min (opening_size tape.now) (length tape.now) }
{
    opening_size(tape).min(tape.len())
}

// The opening's bytes, and the rounds'.
#[tactic(auto, unfolding(crate::specs::Tape::opening_part, crate::specs::Tape::rounds_part))]
pub fn parts<'a>(tape: &'a [u8]) -> [&'a [u8]; 2]
    ensures { map (λ x. x.now) result ≡ opening_part tape.now ∷ rounds_part tape.now ∷ [] }
{
    let from = rounds_from(tape);
    [&tape[0..from], &tape[from..]]
}
