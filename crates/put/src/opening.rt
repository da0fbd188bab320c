// Openings written: the setup, the default and n starts in order (rules 3.5, 3.6 and 12.2).
ghost use Rattle.std.specs.Prelude.{◌≡◌, length};
ghost use Rattle.run.specs.Opening.{starts_end, check_write, write_opening};

use super::records;
use limits::Setup;
use run::{Refusal, Reply, Run, head, kinds, opening};

const STARTS_PLACE: u32 = opening::STARTS as u32; // what a reply names

// Whether every start from n up is 0.
fn starts_end(setup: Setup, starts: [u32; Run::STATIONS]) -> bool
    ensures { result ≡ starts_end setup starts }
{
    starts.iter().skip(setup.n as usize).all(|x| *x == 0)
}

// What writing an opening into a buffer of so many bytes is refused with, or that it is accepted.
#[tactic(auto, unfolding(run::specs::Opening::check_write))]
fn check_write(setup: Setup, default: u32, starts: [u32; Run::STATIONS], room: usize) -> Reply
    ensures { result ≡ check_write setup default starts room }
{
    let n = setup.n;
    head::check_setup(setup)?;
    if !head::default_fits(setup, default) {
        return Err(Refusal::Malformed(head::DEFAULT_PLACE));
    }
    if !starts_end(setup, starts) {
        return Err(Refusal::Malformed(STARTS_PLACE + n as u32));
    }
    if room != opening::opening_length(n) {
        return Err(Refusal::Buffer);
    }
    Ok(())
}

// Writes an opening into a buffer of exactly its length; a refusal writes no byte.
pub fn write_opening(
    setup: Setup,
    default: u32,
    starts: [u32; Run::STATIONS],
    out: &mut [u8],
) -> Reply
    ensures reply { result ≡ check_write setup default starts (length out.old) }
    ensures bytes { out.new ≡ write_opening setup default starts out.old }
{
    check_write(setup, default, starts, out.len())?;
    records::put_head(out, setup, default);
    records::put_each(out, opening::STARTS, setup.n, |i| {
        records::plain(kinds::START, i, starts[i as usize])
    });
    Ok(())
}
