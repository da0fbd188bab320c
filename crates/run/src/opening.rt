// Openings, read: the setup, the default and n starts in order (rules 3 and 12.1).
ghost use Rattle.std.specs.Prelude.{◌≡◌, true};
ghost use Rattle.run.specs.Opening.{
  opening_length,
  check_opening,
  opened,
  run_from,
  read_opening,
  starts_end,
};

use super::block::Shape;
use super::{Opened, Refusal, Reply, Run, block, head, kinds};
use limits::Setup;

pub const STARTS: u16 = 2; // where the starts begin

pub(crate) const HEAD: usize = STARTS as usize; // the records before them

// 8(2 + n) bytes.
pub fn opening_length(n: u8) -> usize
    ensures { result ≡ opening_length n }
{
    Run::RECORD * (HEAD + n as usize)
}

// What an opening is refused with, or that it is accepted.
#[tactic(auto, using(crate::proofs::Asked::handed, crate::proofs::Asked::stops), unfolding(crate::specs::Opening::check_opening))]
fn check_opening(bytes: &[u8]) -> Reply
    ensures { result ≡ check_opening bytes.now }
{
    head::check_head(bytes)?;
    let n = head::setup_in(bytes).n;
    if bytes.len() != opening_length(n) {
        return Err(Refusal::Length);
    }
    head::check_default(bytes)?;
    block::check_block(bytes, STARTS, n, Shape::Number(kinds::START))
}

// The run that stands at its starts.
#[tactic(auto, using(crate::proofs::Openings::run_from_is))]
fn run_from(setup: Setup, default: u32, starts: [u32; Run::STATIONS]) -> Run
    requires { starts_end setup starts ≡ true }
    ensures { result ≡ run_from setup default starts }
{
    Run {
        setup,
        default,
        clock: 0,
        estimates: starts,
        voted: [false; Run::STATIONS],
        votes: [0; Run::STATIONS],
        decided: [false; Run::STATIONS],
        decisions: [0; Run::STATIONS],
        rounds: [0; Run::STATIONS],
    }
}

// The run that an opening gives.
#[tactic(auto, using(crate::proofs::Asked::handed, crate::proofs::Asked::stops, crate::proofs::Openings::starts_in_end), unfolding(crate::specs::Opening::read_opening))]
fn read(bytes: &[u8]) -> Result<Run, Refusal>
    ensures { opened result ≡ read_opening bytes.now }
{
    check_opening(bytes)?;
    let setup = head::setup_in(bytes);
    let starts = block::numbers_in(bytes, STARTS, setup.n);
    Ok(run_from(setup, head::default_in(bytes), starts))
}

impl Run {
    // Reads an opening: the run at its starts, or the idle run where the opening is refused.
    pub fn open(bytes: &[u8]) -> Opened
        ensures { result ≡ read_opening bytes.now }
    {
        Opened::from(read(bytes))
    }
}
