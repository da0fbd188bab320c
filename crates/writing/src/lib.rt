// Rounds written from the matrix (rules 4.9 and 12.7).
#![tactic(auto)]

ghost use Rattle.std.specs.Prelude.{◌≡◌, ◌&&◌, ◌||◌, ◌/◌, ◌%◌, ltb, length};
ghost use Rattle.run.specs.Run.{stations};
ghost use Rattle.round.specs.Cells.{cell_record};
ghost use Rattle.round.specs.Reading.{round_length};
ghost use Rattle.writing.specs.Writing.{is_lost, check_queries, check_outside, check_writing};
ghost use Rattle.writing.specs.Writing.{rows_bytes, write_round};

use put::records;
use round::size::Size;
use round::{Cell, Matrix, read};
use run::record::Record;
use run::{Refusal, Reply, Run, each, kinds};

// The record that spells what receiver p has of sender q.
#[tactic(auto, unfolding(round::specs::Cells::cell_record))]
fn cell_record(p: u8, q: u8, cell: Cell) -> Record
    ensures { result ≡ cell_record p q cell }
{
    match cell {
        Cell::Lost => record_of(kinds::LOST, p, q, 0),
        Cell::Value(v) => record_of(kinds::HEARD, p, q, v),
        Cell::Query => record_of(kinds::HEARD_QUERY, p, q, 0),
    }
}

// The record of this kind, receiver, sender and number.
fn record_of(kind: u8, p: u8, q: u8, number: u32) -> Record
    ensures { result ≡ record { kind = kind; first = p; second = q; third = 0; number = number } }
{
    Record {
        kind,
        first: p,
        second: q,
        third: 0,
        number,
    }
}

// Outside a vote round refuses the first "?" within n by n, at its record's number.
#[tactic(auto, using(crate::proofs::Writings::queries_voted, crate::proofs::Writings::queries_first))]
fn check_queries(matrix: Matrix, voting: bool, size: Size) -> Reply
    ensures { result ≡ check_queries voting size.n matrix }
{
    if voting {
        return Ok(());
    }
    let query = |k: usize| matrix.cells[size.place(k)] == Cell::Query;
    match each::first(read::records(size.n), query) {
        Some(k) => Err(Refusal::Query(k as u32)),
        None => Ok(()),
    }
}

// Whether place k of the matrix may hold the cell in a round of n stations: it is within n by n, or lost.
fn may_hold(k: usize, n: u8, cell: Cell) -> bool
    ensures { result ≡ (ltb (k / stations) n && ltb (k % stations) n || is_lost cell) }
{
    let n = n as usize;
    cell == Cell::Lost || k / Run::STATIONS < n && k % Run::STATIONS < n
}

// Refuses what is held outside n by n, at the number past the last record (rule 12.7).
fn check_outside(matrix: Matrix, n: u8) -> Reply
    ensures { result ≡ check_outside n matrix }
{
    match each::first(Matrix::CELLS, |k| !may_hold(k, n, matrix.cells[k])) {
        Some(_) => Err(Refusal::Malformed(read::records(n) as u32)),
        None => Ok(()),
    }
}

// Writes the records of a round in order.
fn put_cells(out: &mut [u8], matrix: Matrix, size: Size)
    requires { length out.old ≡ round_length size.n }
    ensures { out.new ≡ rows_bytes size.n size.n matrix }
{
    let n = size.n as usize;
    for k in 0..read::records(size.n) {
        let cell = matrix.cells[size.place(k)];
        records::put_record(out, k, cell_record((k / n) as u8, (k % n) as u8, cell));
    }
}

// Refuses what can't be written as a round of the run: 10, 5, 2, 9.
fn check_writing(run: Run, matrix: Matrix, room: usize) -> Reply
    ensures { result ≡ check_writing run matrix room }
{
    if !rules::sound(run) {
        return Err(Refusal::Rules(0));
    }
    let size = Size { n: run.setup.n };
    check_queries(matrix, rules::may_vote(run.setup, run.clock), size)?;
    check_outside(matrix, size.n)?;
    if room != read::round_length(size.n) {
        return Err(Refusal::Buffer);
    }
    Ok(())
}

// Writes the round of the matrix.
pub fn write_round(run: Run, matrix: Matrix, out: &mut [u8]) -> Reply
    ensures value { result ≡ check_writing run matrix (length out.old) }
    ensures out_after { out.new ≡ write_round run matrix out.old }
{
    check_writing(run, matrix, out.len())?;
    put_cells(out, matrix, Size { n: run.setup.n });
    Ok(())
}
