// Runs the trials of openings, images and runs: for each frame of the input, one call, and a line that says what it
// answered.
#![tactic(auto)]

use run::Run;
use std::io;
use std::io::Read;
use trial::NoSuchOperation;
use trial::print::{OpenedRun, Written};
use trial::take::Frames;

#[derive(Clone, Copy)]
enum Operation {
    Open,
    WriteOpening,
    Load,
    Save,
    Sound,
}

impl TryFrom<u8> for Operation {
    type Error = NoSuchOperation;

    fn try_from(number: u8) -> Result<Operation, NoSuchOperation> {
        match number {
            1 => Ok(Operation::Open),
            2 => Ok(Operation::WriteOpening),
            3 => Ok(Operation::Load),
            4 => Ok(Operation::Save),
            5 => Ok(Operation::Sound),
            _ => Err(NoSuchOperation),
        }
    }
}

fn write_opening(rt: &impl Print, frames: &mut Frames<impl Read + Drop>) -> io::Result<()> {
    let setup = frames.parameters();
    let default = frames.number();
    let starts = frames.numbers();
    let out = frames.payload();
    let reply = put::opening::write_opening(setup, default, starts, out);
    print!(rt; "{}", Written(reply, out))
}

fn save(rt: &impl Print, frames: &mut Frames<impl Read + Drop>) -> io::Result<()> {
    let run = frames.run();
    let out = frames.payload();
    let reply = image::save(run, out);
    print!(rt; "{}", Written(reply, out))
}

fn sound(rt: &impl Print, frames: &mut Frames<impl Read + Drop>) -> io::Result<()> {
    let is_sound = rules::sound(frames.run());
    print!(rt; "{}", if is_sound { "sound" } else { "broken" })
}

fn main(rt: HostRuntime) {
    trial::run_every_trial(&rt, rt.stdin(), |operation, frames| match operation {
        Operation::Open => print!(rt; "{}", OpenedRun(Run::open(frames.payload()))),
        Operation::WriteOpening => write_opening(&rt, frames),
        Operation::Load => print!(rt; "{}", OpenedRun(image::load(frames.payload()))),
        Operation::Save => save(&rt, frames),
        Operation::Sound => sound(&rt, frames),
    });
}
