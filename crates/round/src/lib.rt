// A round: its cells, and the matrix that it is read into (rule 4). Crate writing writes it.
#![tactic(auto)]

pub mod size; // how many stations a round is of
pub mod read; // rounds read

ghost use Rattle.std.specs.Prelude.{◌≡◌};
ghost use Rattle.round.specs.Reading.{all_lost, reading_of};

use run::{Refusal, Reply, Run};

// What a receiver has of one sender.
#[derive(Clone, Copy, Debug, PartialEq, Eq)]
pub enum Cell {
    Lost,
    Value(u32),
    Query,
}

// The cells of a round: that of receiver p and sender q is number STATIONS * p + q.
#[derive(Clone, Copy, Debug, PartialEq, Eq)]
pub struct Matrix {
    pub cells: [Cell; Matrix::CELLS],
}

impl Matrix {
    pub const CELLS: usize = Run::STATIONS * Run::STATIONS;

    // All lost.
    pub fn lost() -> Matrix
        ensures { result ≡ all_lost }
    {
        Matrix {
            cells: [Cell::Lost; Matrix::CELLS],
        }
    }
}

// What reading a round answers: the matrix, all lost where it is refused (rule 12.5, and so no Result).
#[derive(Clone, Copy)]
pub struct Reading {
    pub reply: Reply,
    pub matrix: Matrix,
}

impl From<Result<Matrix, Refusal>> for Reading {
    ghost from_gives = { λ read answer. answer ≡ reading_of read };

    fn from(read: Result<Matrix, Refusal>) -> Reading {
        match read {
            Ok(matrix) => Reading {
                reply: Ok(()),
                matrix,
            },
            Err(refusal) => Reading {
                reply: Err(refusal),
                matrix: Matrix::lost(),
            },
        }
    }
}
