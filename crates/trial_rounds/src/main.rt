// Runs the trials of rounds read, written and surveyed: for each frame of the input, one call, and a line that says
// what it answered.
#![tactic(auto)]

use hearing::surveys;
use round::{Cell, Matrix, read};
use run::Run;
use std::io::Read;
use std::{array, fmt, io};
use trial::NoSuchOperation;
use trial::print::{Answer, Sets, Written};
use trial::take::Frames;

#[derive(Clone, Copy)]
enum Operation {
    ReadRound,
    WriteRound,
    Survey,
}

impl TryFrom<u8> for Operation {
    type Error = NoSuchOperation;

    fn try_from(number: u8) -> Result<Operation, NoSuchOperation> {
        match number {
            6 => Ok(Operation::ReadRound),
            7 => Ok(Operation::WriteRound),
            8 => Ok(Operation::Survey),
            _ => Err(NoSuchOperation),
        }
    }
}

// ` 0.2=7 1.0=?`: the cells that are not lost, each with its receiver and its sender, or ` none`.
#[derive(Clone, Copy)]
struct Cells<'a>(&'a Matrix);

impl fmt::Display for Cells<'_> {
    fn fmt<W: fmt::Write>(&self, f: &mut fmt::Formatter<W>) -> fmt::Result {
        let matrix = self.0;
        if matrix.cells.iter().all(|cell| matches!(cell, Cell::Lost)) {
            return f.write_str(" none");
        }
        for (k, cell) in matrix.cells.iter().enumerate() {
            let (receiver, sender) = (k / Run::STATIONS, k % Run::STATIONS);
            match cell {
                Cell::Lost => {}
                Cell::Value(value) => write!(f, " {receiver}.{sender}={value}")?,
                Cell::Query => write!(f, " {receiver}.{sender}=?")?,
            }
        }
        Ok(())
    }
}

// A cell: a byte for its sort and a number.
fn cell(frames: &mut Frames<impl Read + Drop>) -> Cell {
    let sort = frames.byte();
    let value = frames.number();
    match sort {
        0 => Cell::Lost,
        1 => Cell::Value(value),
        _ => Cell::Query,
    }
}

fn matrix(frames: &mut Frames<impl Read + Drop>) -> Matrix {
    let cells = array::from_fn(|_| cell(frames));
    Matrix { cells }
}

fn read_round(rt: &impl Print, frames: &mut Frames<impl Read + Drop>) -> io::Result<()> {
    let run = frames.run();
    let reading = read::read_round(run, frames.payload());
    print!(rt; "{} cells{}", Answer(reading.reply), Cells(&reading.matrix))
}

fn write_round(rt: &impl Print, frames: &mut Frames<impl Read + Drop>) -> io::Result<()> {
    let run = frames.run();
    let matrix = matrix(frames);
    let out = frames.payload();
    let reply = writing::write_round(run, matrix, out);
    print!(rt; "{}", Written(reply, out))
}

fn survey(rt: &impl Print, frames: &mut Frames<impl Read + Drop>) -> io::Result<()> {
    let run = frames.run();
    let survey = surveys::survey(run, frames.payload());
    let ho = Sets {
        n: Run::STATIONS as u8,
        masks: &survey.ho,
    };
    let sho = Sets {
        n: Run::STATIONS as u8,
        masks: &survey.sho,
    };
    print!(rt; "{} ho{ho} sho{sho}", Answer(survey.reply))
}

fn main(rt: HostRuntime) {
    trial::run_every_trial(&rt, rt.stdin(), |operation, frames| match operation {
        Operation::ReadRound => read_round(&rt, frames),
        Operation::WriteRound => write_round(&rt, frames),
        Operation::Survey => survey(&rt, frames),
    });
}
