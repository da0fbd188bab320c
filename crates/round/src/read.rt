// Rounds read: record by record into rows and the matrix (rules 4.3 to 4.8 and 12.5).
ghost use Rattle.std.specs.Prelude.{◌≡◌, ◌&&◌, ◌||◌, ◌*◌, ◌≤◌, eqb};
ghost use Rattle.run.specs.Kinds as kinds;
ghost use Rattle.run.specs.Run.{stations};
ghost use Rattle.round.specs.ByRow.{read_row};
ghost use Rattle.round.specs.Cells.{cell_fits, cell_in, check_cell};
ghost use Rattle.round.specs.Reading.{row_part, check_cells, round_length, check_reading, cells, matrix_of};
ghost use Rattle.round.specs.Reading.{read_round, cells_of_row};

use super::size::Size;
use super::{Cell, Matrix, Reading};
use run::record::Record;
use run::{Refusal, Reply, Run, block, kinds, record};

// Whether the kind is one of a cell, with a number only where a value was heard.
fn is_cell(kind: u8, number: u32) -> bool
    ensures { result ≡ (eqb kind kinds.HEARD || (eqb kind kinds.HEARD_QUERY || eqb kind kinds.LOST) && eqb number 0) }
{
    match kind {
        kinds::HEARD => true,
        kinds::HEARD_QUERY | kinds::LOST => number == 0,
        _ => false,
    }
}

// Whether the record is one of receiver p and sender q.
#[tactic(auto, unfolding(crate::specs::Cells::cell_fits))]
fn cell_fits(p: u8, q: u8, r: Record) -> bool
    ensures { result ≡ cell_fits p q r }
{
    is_cell(r.kind, r.number) && r.first == p && r.second == q && r.third == 0
}

// The cell that a record spells.
#[tactic(auto, unfolding(crate::specs::Cells::cell_in))]
fn cell_in(r: Record) -> Cell
    ensures { result ≡ cell_in r }
{
    match r.kind {
        kinds::HEARD => Cell::Value(r.number),
        kinds::HEARD_QUERY => Cell::Query,
        _ => Cell::Lost,
    }
}

// Refuses record number `at`, of receiver p and sender q, if it is no such record, or a "?" outside a vote round.
#[tactic(auto, unfolding(crate::specs::Cells::check_cell))]
fn check_cell(voting: bool, at: u32, p: u8, q: u8, r: Record) -> Reply
    ensures { result ≡ check_cell voting at p q r }
{
    if !cell_fits(p, q, r) {
        return Err(Refusal::Malformed(at));
    }
    if !voting && r.kind == kinds::HEARD_QUERY {
        return Err(Refusal::Query(at));
    }
    Ok(())
}

// The row of receiver p, out of a round of n stations: the part that starts at byte 8np, or what the round has of it.
#[tactic(auto, unfolding(crate::specs::Reading::row_part))]
pub fn row_part(round: &[u8], n: u8, p: u8) -> &[u8]
    ensures { result.now ≡ row_part n round.now p }
{
    let size = Run::RECORD * (n as usize);
    let from = size * (p as usize);
    let start = from.min(round.len());
    let end = (from + size).min(round.len());
    &round[start..end]
}

// Reads the row of receiver p in a round of n stations: its cells, or what is wrong in the first record at fault. Here,
// above and below `voting` stands beside the bytes, as the definitions have it.
pub fn read_row(row: &[u8], voting: bool, p: u8, n: u8) -> Result<[Cell; Run::STATIONS], Refusal>
    ensures { result ≡ read_row voting n p row.now }
{
    let mut cells = [Cell::Lost; Run::STATIONS];
    for q in 0..n {
        let at = q as usize;
        let r = record::record_at(row, at);
        check_cell(voting, (n as u32) * (p as u32) + (q as u32), p, q, r)?;
        if at < Run::STATIONS {
            cells[at] = cell_in(r);
        }
    }
    Ok(cells)
}

// Reads the rows of a round of n stations in order, and refuses the first record at fault.
fn check_cells(round: &[u8], voting: bool, n: u8) -> Reply
    ensures { result ≡ check_cells voting n round.now }
{
    for p in 0..n {
        read_row(row_part(round, n, p), voting, p, n)?;
    }
    Ok(())
}

// The records of a round of n stations.
pub fn records(n: u8) -> usize
    ensures value { result ≡ n * n }
    ensures most { result ≤ 65025 }
{
    (n as usize) * (n as usize)
}

// The cells of a round, each record's at its place; the places outside n by n stay lost.
fn fill(round: &[u8], size: Size) -> Matrix
    ensures { result ≡ matrix_of (cells size.n round.now) }
{
    let mut matrix = Matrix::lost();
    for k in 0..records(size.n) {
        matrix.cells[size.place(k)] = cell_in(record::record_at(round, k));
    }
    matrix
}

// The bytes of a round of n stations.
pub fn round_length(n: u8) -> usize
    ensures { result ≡ round_length n }
{
    Run::RECORD * records(n)
}

// Refuses what is no round that the run may read (rule 12.5).
#[tactic(auto, unfolding(crate::specs::Reading::check_reading))]
pub fn check_reading(run: Run, round: &[u8]) -> Reply
    ensures { result ≡ check_reading run round.now }
{
    if !rules::sound(run) {
        return Err(Refusal::Rules(0));
    }
    if round.len() != round_length(run.setup.n) {
        return Err(Refusal::Length);
    }
    check_cells(round, rules::may_vote(run.setup, run.clock), run.setup.n)
}

// Reads a round into the matrix, all lost where it is refused. The matrix goes through no `Result`, which would copy it.
pub fn read_round(run: Run, round: &[u8]) -> Reading
    ensures { result ≡ read_round run round.now }
{
    match check_reading(run, round) {
        Ok(()) => Reading {
            reply: Ok(()),
            matrix: fill(round, Size { n: run.setup.n }),
        },
        Err(refusal) => Reading::from(Err(refusal)),
    }
}

// Row p of a matrix: what receiver p has of each sender. All lost from STATIONS up.
#[tactic(auto, using(crate::proofs::Matrices::row_past, crate::proofs::Matrices::row_taken), unfolding(crate::specs::Reading::cells_of_row))]
pub fn row(matrix: Matrix, p: u8) -> [Cell; Run::STATIONS]
    ensures { result ≡ cells_of_row matrix p }
{
    let mut cells = [Cell::Lost; Run::STATIONS];
    let first = Run::STATIONS * (p as usize);
    if first < Matrix::CELLS {
        cells.copy_from_slice(&matrix.cells[first..first + Run::STATIONS]);
    }
    cells
}
