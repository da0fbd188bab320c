// What the programs that run trials share (host/trials makes these): frames are read from an input, and a line is
// printed for each. Every function is proved safe and ending. What is read and printed is tested, not proved: no
// contract can speak of it.
#![tactic(auto)]

pub mod take; // what a frame holds, read
pub mod print; // what a line says, printed
#[cfg(test)]
mod tests;

use std::io::Read;
use std::{fmt, io};
use take::Frames;

const FRAMES: u32 = 100000; // no more than these are read

// A number that names no operation.
#[derive(Clone, Copy)]
pub struct NoSuchOperation;

impl fmt::Display for NoSuchOperation {
    fn fmt<W: fmt::Write>(&self, f: &mut fmt::Formatter<W>) -> fmt::Result {
        f.write_str("no such operation")
    }
}

// Runs the trials: for each frame of the input one call, and a line that says what it answered. The call reads what
// the operation takes, and prints what it answers. The first error, of a write or of the call, ends them and is the
// answer.
pub fn run_trials<P, R, O, F>(rt: &P, input: R, mut call: F) -> io::Result<()>
where
    P: Print,
    R: Read + Drop,
    O: TryFrom<u8, Error = NoSuchOperation>,
    F: FnMut(O, &mut Frames<R>) -> io::Result<()>,
    requires { F.IsAlwaysCallable call }
{
    let mut frames = Frames::new(input);
    for _ in 0..FRAMES {
        let mut room = [0; take::LABEL]; // zeros behind the input's end, and not the payloads' room
        let Some(label) = frames.label(&mut room) else {
            break;
        };
        rt.write_all(label)?;
        print!(rt; ": ")?;
        match O::try_from(frames.byte()) {
            Ok(operation) => call(operation, &mut frames)?,
            Err(none) => print!(rt; "{none}")?,
        }
        println!(rt)?;
    }
    Ok(())
}

// Runs every trial, and answers nothing: an error, of a write or of the call, is dropped where it comes, and the next
// frame is read all the same. A loop of its own, since under one with `run_trials` a closure would have to say at four
// places what becomes of an error.
pub fn run_every_trial<P, R, O, F>(rt: &P, input: R, mut call: F)
where
    P: Print,
    R: Read + Drop,
    O: TryFrom<u8, Error = NoSuchOperation>,
    F: FnMut(O, &mut Frames<R>) -> io::Result<()>,
    requires { F.IsAlwaysCallable call }
{
    let mut frames = Frames::new(input);
    for _ in 0..FRAMES {
        let mut room = [0; take::LABEL]; // zeros behind the input's end, and not the payloads' room
        let Some(label) = frames.label(&mut room) else {
            break;
        };
        let _ = rt.write_all(label);
        let _ = print!(rt; ": ");
        let _ = match O::try_from(frames.byte()) {
            Ok(operation) => call(operation, &mut frames),
            Err(none) => print!(rt; "{none}"),
        };
        let _ = println!(rt);
    }
}
