// Runs the trials of steps and of parts played: for each frame of the input, one call, and a line that says what it
// answered.
#![tactic(auto)]

use judge::{Stepped, step};
use run::{Run, each};
use std::io::Read;
use std::{fmt, io};
use trial::NoSuchOperation;
use trial::print::{Answer, Held, Maybe, Sets};
use trial::take::Frames;

#[derive(Clone, Copy)]
enum Operation {
    Step,
    Play,
}

impl TryFrom<u8> for Operation {
    type Error = NoSuchOperation;

    fn try_from(number: u8) -> Result<Operation, NoSuchOperation> {
        match number {
            9 => Ok(Operation::Step),
            10 => Ok(Operation::Play),
            _ => Err(NoSuchOperation),
        }
    }
}

// The run after a call: one that keeps the rules, or the one that was handed in.
#[derive(Clone, Copy)]
struct After<'a> {
    before: &'a Run,
    run: &'a Run,
}

impl fmt::Display for After<'_> {
    fn fmt<W: fmt::Write>(&self, f: &mut fmt::Formatter<W>) -> fmt::Result {
        let run = self.run;
        if rules::sound(*run) || *run == *self.before {
            write!(f, "{}", Held(run))
        } else {
            f.write_str("another run")
        }
    }
}

// ` 7 -`: what the decide rules of the first n stations gave.
#[derive(Clone, Copy)]
struct Fired<'a>(&'a Stepped);

impl fmt::Display for Fired<'_> {
    fn fmt<W: fmt::Write>(&self, f: &mut fmt::Formatter<W>) -> fmt::Result {
        let stepped = self.0;
        for value in stepped.fired.iter().take(stepped.run.setup.n as usize) {
            write!(f, "{}", Maybe(*value, '-'))?;
        }
        Ok(())
    }
}

fn one_step(rt: &impl Print, frames: &mut Frames<impl Read + Drop>) -> io::Result<()> {
    let before = frames.run();
    let stepped = step::step(before, frames.payload());
    let n = stepped.run.setup.n;
    let after = After {
        before: &before,
        run: &stepped.run,
    };
    let _ = print!(rt;
        "{} {after} fired{}",
        Answer(stepped.reply),
        Fired(&stepped)
    );
    let ho = Sets {
        n,
        masks: &stepped.ho,
    };
    let sho = Sets {
        n,
        masks: &stepped.sho,
    };
    print!(rt; " ho{ho} sho{sho}")
}

fn one_play(rt: &impl Print, frames: &mut Frames<impl Read + Drop>) -> io::Result<()> {
    let before = frames.run();
    let played = play::play(before, frames.payload());
    let rounds = played.rounds;
    let after = After {
        before: &before,
        run: &played.run,
    };
    print!(rt; "{} rounds {rounds} {after}", Answer(played.reply))
}

fn main(rt: HostRuntime) {
    trial::run_every_trial(&rt, rt.stdin(), |operation, frames| match operation {
        Operation::Step => one_step(&rt, frames),
        Operation::Play => one_play(&rt, frames),
    });
}
