// The listing of a tape (rules 14): the tape is read from standard input, a round at a time, and printed page by page.
// Every function is proved safe and ending, and the pages are proved in `pages`: here bytes are moved, and no more.
// What is read and written is tested: no contract can speak of it. The kit's io serves: whole buffers of bytes that were
// proved elsewhere, with nothing to format.
#![tactic(auto)]

ghost use Rattle.std.specs.Prelude.{◌+◌, ◌≤◌, length};
ghost use Rattle.run.specs.Tape.{longest_opening};
ghost use Rattle.lines.specs.Text.{longest};

use round::read;
use run::{Run, tape};
use std::ops::ControlFlow;

const STDIN_FILENO: i32 = 0; // standard input

const STDOUT_FILENO: i32 = 1; // standard output

const ROUND: usize = Run::RECORD * Run::STATIONS * Run::STATIONS; // the bytes of the longest round

// Reads the opening, or all there is if that is shorter, and answers how many bytes it has. A length beside the space,
// as in `take_round`: the room is lent again for the next read, and io answers counts.
fn take_opening(space: &mut [u8]) -> usize
    requires { longest_opening ≤ length space.old }
    ensures { result ≤ longest_opening }
{
    let head = io::read_full(STDIN_FILENO, &mut space[0..Run::RECORD]);
    if head < Run::RECORD {
        return head;
    }
    let end = tape::opening_size(&space[0..Run::RECORD]);
    head + io::read_full(STDIN_FILENO, &mut space[Run::RECORD..end])
}

// Reads a round of so many bytes, or the rest if that is shorter, and answers how many bytes it has.
fn take_round(space: &mut [u8], size: usize) -> usize
    requires { size ≤ length space.old }
    ensures { result ≤ size }
{
    io::read_full(STDIN_FILENO, &mut space[0..size])
}

// Where the next line begins: what the buffer holds is written out if a line might not fit behind it.
fn next_line(out: &[u8], at: usize) -> usize
    requires { (at ≤ length out.now) × (longest ≤ length out.now) }
    ensures { result + longest ≤ length out.now }
{
    if lines::LINE <= out.len() - at {
        return at;
    }
    io::write_all(STDOUT_FILENO, &out[0..at]);
    0
}

// The pages of the tape, until none follows: a refused round ends the listing, and one past the most that a run accepts
// is refused.
fn main() {
    let mut space = [0u8; tape::LONGEST_OPENING];
    let mut round = [0u8; ROUND];
    let mut out = io::large_buffer();
    let size = take_opening(&mut space);
    let mut listed = pages::put_first(&mut out, 0, &space[0..size]);
    while let ControlFlow::Continue(run) = listed.next {
        let got = take_round(&mut round, read::round_length(run.setup.n));
        let from = next_line(&out, listed.end);
        listed = pages::put_next(&mut out, from, run, &round[0..got]);
    }
    io::write_all(STDOUT_FILENO, &out[0..listed.end]);
}
