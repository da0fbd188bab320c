// Blocks of records, one for each station in station order: an opening has one (the starts), an image four.
ghost use Rattle.std.specs.Prelude.{◌≡◌, min};
ghost use Rattle.run.specs.Block.{is_plain, block_fits, check_block, numbers_in, flags_in};
ghost use Rattle.run.specs.Run.{stations};

use super::record::Record;
use super::{Refusal, Reply, Run, each, record};

// The records of a block: all with a number, under one kind; or some without, under a kind of their own.
#[derive(Clone, Copy)]
pub enum Shape {
    Number(u8),
    Maybe(u8, u8),
}

// Whether the record is of this kind with this byte 1, and bytes 2 and 3 are zero.
#[tactic(auto, unfolding(crate::specs::Block::is_plain))]
pub fn is_plain(r: Record, kind: u8, first: u8) -> bool
    ensures { result ≡ is_plain kind first r }
{
    r.kind == kind && (r.first == first && (r.second == 0 && r.third == 0))
}

// Whether the record may be station i's in a block of this shape.
#[tactic(auto, unfolding(crate::specs::Block::block_fits))]
fn fits(shape: Shape, i: u8, r: Record) -> bool
    ensures { result ≡ block_fits shape i r }
{
    match shape {
        Shape::Number(kind) => is_plain(r, kind, i),
        Shape::Maybe(without, given) => is_plain(r, given, i)
            || is_plain(r, without, i) && r.number == 0,
    }
}

// Reads the n records from start on, and refuses the first that doesn't fit.
pub fn check_block(bytes: &[u8], start: u16, n: u8, shape: Shape) -> Reply
    ensures { result ≡ check_block bytes.now start n shape }
{
    let at = |i: usize| record::record_at(bytes, start as usize + i);
    match each::first(n as usize, |i| !fits(shape, i as u8, at(i))) {
        Some(i) => Err(Refusal::Malformed(start as u32 + i as u32)),
        None => Ok(()),
    }
}

// How many of the n stations an array has a place for.
pub fn places(n: u8) -> usize
    ensures { result ≡ min n stations }
{
    usize::from(n).min(Run::STATIONS)
}

// The numbers of the n records from start on, with 0 from n up.
pub fn numbers_in(bytes: &[u8], start: u16, n: u8) -> [u32; Run::STATIONS]
    ensures { result ≡ numbers_in bytes.now start n }
{
    each::filled(
        n as usize,
        0,
        |i| record::record_at(bytes, start as usize + i).number,
    )
}

// Which of the n records from start on are of this kind, with false from n up.
pub fn flags_in(bytes: &[u8], start: u16, n: u8, kind: u8) -> [bool; Run::STATIONS]
    ensures { result ≡ flags_in bytes.now start n kind }
{
    each::filled(
        n as usize,
        false,
        |i| record::record_at(bytes, start as usize + i).kind == kind,
    )
}
