// The two records that openings and images begin with: the setup and the default (rules 3.1, 3.2, 10 and 12.1).
ghost use Rattle.std.specs.Prelude.{◌≡◌, ◌&&◌, leb};
ghost use Rattle.run.specs.Run.{in_range, default_fits};
ghost use Rattle.run.specs.Kinds as kind;
ghost use Rattle.run.specs.Block.{is_plain};
ghost use Rattle.run.specs.Opening.{
  is_setup,
  read_setup,
  check_setup,
  check_head,
  setup_in,
  default_in,
  check_default,
};

use super::record::Record;
use super::{Refusal, Reply, Run, block, kinds, record};
use limits::inequalities::acceptable;
use limits::{Setup, is_u};

pub const SETUP_AT: usize = 0; // where the two records stand, and what a reply names

pub const DEFAULT_AT: usize = 1;

const SETUP_PLACE: u32 = SETUP_AT as u32;

pub const DEFAULT_PLACE: u32 = DEFAULT_AT as u32;

pub const BASE: u32 = 256; // what a byte is below

const TWO_BYTES: u32 = 65536;

const STATIONS: u8 = Run::STATIONS as u8;

fn between(low: u8, x: u8, high: u8) -> bool
    ensures { result ≡ leb low x && leb x high }
{
    low <= x && x <= high
}

// Rule 10.1.
#[tactic(auto, unfolding(crate::specs::Run::in_range))]
pub fn in_range(s: Setup) -> bool
    ensures { result ≡ in_range s }
{
    between(limits::A, s.algorithm, limits::U) && between(1, s.n, STATIONS)
}

// The default is 0 under A.
#[tactic(auto, unfolding(crate::specs::Run::default_fits))]
pub fn default_fits(s: Setup, d: u32) -> bool
    ensures { result ≡ default_fits s d }
{
    is_u(s) || d == 0
}

// What a setup is refused with: its range comes before its inequalities.
#[tactic(auto, unfolding(crate::specs::Opening::check_setup))]
pub fn check_setup(s: Setup) -> Reply
    ensures { result ≡ check_setup s }
{
    if !in_range(s) {
        return Err(Refusal::Range);
    }
    if !acceptable(s) {
        return Err(Refusal::Inequality);
    }
    Ok(())
}

// Whether the record is a setup's: bytes 6 and 7 are zero.
#[tactic(auto, unfolding(crate::specs::Opening::is_setup))]
fn is_setup(r: Record) -> bool
    ensures { result ≡ is_setup r }
{
    r.kind == kinds::SETUP && r.number < TWO_BYTES
}

// The setup that a record holds, whatever its kind.
#[tactic(auto, unfolding(crate::specs::Opening::read_setup))]
fn read_setup(r: Record) -> Setup
    ensures { result ≡ read_setup r }
{
    Setup {
        algorithm: r.first,
        n: r.second,
        t: r.third,
        e: (r.number % BASE) as u8,
        alpha: (r.number / BASE % BASE) as u8,
    }
}

// Whether the bytes begin with an acceptable setup's record.
#[tactic(auto, unfolding(crate::specs::Opening::check_head))]
pub fn check_head(bytes: &[u8]) -> Reply
    ensures { result ≡ check_head bytes.now }
{
    if bytes.len() < Run::RECORD {
        return Err(Refusal::Length);
    }
    let r = record::record_at(bytes, SETUP_AT);
    if !is_setup(r) {
        return Err(Refusal::Malformed(SETUP_PLACE));
    }
    check_setup(read_setup(r))
}

// The setup that the first record holds.
pub fn setup_in(bytes: &[u8]) -> Setup
    ensures { result ≡ setup_in bytes.now }
{
    read_setup(record::record_at(bytes, SETUP_AT))
}

// The default that the second holds.
pub fn default_in(bytes: &[u8]) -> u32
    ensures { result ≡ default_in bytes.now }
{
    record::record_at(bytes, DEFAULT_AT).number
}

// Whether the record is a default that the setup may have.
fn is_default(s: Setup, r: Record) -> bool
    ensures { result ≡ is_plain kind.DEFAULT 0 r && default_fits s r.number }
{
    block::is_plain(r, kinds::DEFAULT, 0) && default_fits(s, r.number)
}

// Whether record 1 is a default, and one that the setup of record 0 may have.
#[tactic(auto, unfolding(crate::specs::Opening::check_default))]
pub fn check_default(bytes: &[u8]) -> Reply
    ensures { result ≡ check_default bytes.now }
{
    let s = setup_in(bytes);
    let r = record::record_at(bytes, DEFAULT_AT);
    if !is_default(s, r) {
        return Err(Refusal::Malformed(DEFAULT_PLACE));
    }
    Ok(())
}
