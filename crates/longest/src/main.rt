// The longest tape there is to play, 4,096 rounds, under U with two stations that hear each other: what it takes of the
// stack is measured.
#![tactic(auto)]

use limits::{Setup, U};
use put::{opening, records};
use run::record::Record;
use run::{Run, each, kinds};
use trial::print::Answer;

const CELLS: usize = 16384; // four in each round

// Record i of the tape: of receivers 0, 0, 1, 1 and senders 0, 1, 0, 1 in each round, always with the value 7.
fn cell(i: usize) -> Record {
    Record {
        kind: kinds::HEARD,
        first: (i / 2 % 2) as u8,
        second: (i % 2) as u8,
        third: 0,
        number: 7,
    }
}

fn fill(tape: &mut [u8]) {
    for i in 0..CELLS {
        records::put_record(tape, i, cell(i));
    }
}

// U(2,1,1,0) with both stations at 7.
fn opened() -> Run {
    let setup = Setup {
        algorithm: U,
        n: 2,
        t: 1,
        e: 1,
        alpha: 0,
    };
    let starts = each::filled(2, 0, |_| 7);
    let mut opening = [0; 32];
    let _ = opening::write_opening(setup, 0, starts, &mut opening);
    Run::open(&opening).run
}

// What can't be written is lost: the program ends all the same.
fn main(rt: HostRuntime) {
    let mut tape = [0; CELLS * Run::RECORD];
    fill(&mut tape);
    let played = play::play(opened(), &tape);
    let rounds = played.rounds;
    let _ = println!(rt; "rounds {rounds} answer {}", Answer(played.reply));
}
