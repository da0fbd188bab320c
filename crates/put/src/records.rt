// Records put into a slice (rules 2.1 to 2.4): one, a block with one for each station, and the two that openings and
// images begin with. Each changes the bytes of its records, as far as the slice has them, and no others.
ghost use Rattle.std.specs.Prelude.{◌≡◌, ℕ, ◌<◌};
ghost use Rattle.run.specs.Record.{put_at};
ghost use Rattle.run.specs.Block.{plain, record_of, block_record};
ghost use Rattle.run.specs.Opening.{setup_record};
ghost use Rattle.run.specs.Putting.{put_block, put_head};

use limits::Setup;
use run::block::Shape;
use run::record::Record;
use run::{Run, head, kinds};

// Writes the bytes of record i where the slice has it, and nothing where it has not.
pub fn put_record(bytes: &mut [u8], i: usize, r: Record)
    ensures { bytes.new ≡ put_at bytes.old i r }
{
    if i >= bytes.len() / Run::RECORD {
        return;
    }
    let at = Run::RECORD * i;
    let [a, b, c, d] = r.number.to_le_bytes();
    bytes[at] = r.kind; // byte by byte: eight bytes copied from an array took an opening 1.6 times as long
    bytes[at + 1] = r.first;
    bytes[at + 2] = r.second;
    bytes[at + 3] = r.third;
    bytes[at + 4] = a;
    bytes[at + 5] = b;
    bytes[at + 6] = c;
    bytes[at + 7] = d;
}

// The record of this kind with a byte 1 and a number.
#[tactic(auto, unfolding(run::specs::Block::plain))]
pub fn plain(kind: u8, first: u8, number: u32) -> Record
    ensures { result ≡ plain kind first number }
{
    Record {
        kind,
        first,
        second: 0,
        third: 0,
        number,
    }
}

// The setup's record: E and alpha stand in the lowest two bytes of its number.
#[tactic(auto, unfolding(run::specs::Opening::setup_record))]
fn setup_record(s: Setup) -> Record
    ensures { result ≡ setup_record s }
{
    Record {
        kind: kinds::SETUP,
        first: s.algorithm,
        second: s.n,
        third: s.t,
        number: u32::from(s.e) + head::BASE * u32::from(s.alpha),
    }
}

// Writes records 0 and 1, as far as the slice has them. The setup and the default are two here as in `write_opening`,
// which a user calls with them.
#[tactic(auto, unfolding(run::specs::Putting::put_head))]
pub fn put_head(bytes: &mut [u8], s: Setup, default: u32)
    ensures { bytes.new ≡ put_head bytes.old s default }
{
    put_record(bytes, head::SETUP_AT, setup_record(s));
    put_record(bytes, head::DEFAULT_AT, plain(kinds::DEFAULT, 0, default));
}

// Station i's record in a block of this shape, with its number if it is there: a flag and a number, as the definition
// and the run have them.
#[tactic(auto, unfolding(run::specs::Block::record_of))]
pub fn record_of(shape: Shape, i: u8, there: bool, number: u32) -> Record
    ensures { result ≡ record_of shape i there number }
{
    match shape {
        Shape::Number(kind) => plain(kind, i, number),
        Shape::Maybe(without, given) => {
            if there {
                plain(given, i, number)
            } else {
                plain(without, i, 0)
            }
        }
    }
}

// Writes n records from start on, record i as it is made.
pub fn put_each<F: Fn(u8) -> Record>(bytes: &mut [u8], start: u16, n: u8, make: F)
    requires { (i : ℕ) → i < n → F.pre make i }
    ensures { (f : ℕ → Record) → ((i : ℕ) (r : Record) → i < n → F.post make i r → r ≡ f i)
        → bytes.new ≡ put_block bytes.old start n f }
{
    for i in 0..n {
        put_record(bytes, start as usize + i as usize, make(i));
    }
}

// Writes n records from start on, of what the arrays hold, and past their ends of nothing.
pub fn put_block(
    bytes: &mut [u8],
    start: u16,
    n: u8,
    shape: Shape,
    flags: [bool; Run::STATIONS],
    numbers: [u32; Run::STATIONS],
)
    ensures { bytes.new ≡ put_block bytes.old start n (block_record shape flags numbers) }
{
    put_each(bytes, start, n, |i| {
        let there = flags.get(i as usize).copied().unwrap_or(false);
        let number = numbers.get(i as usize).copied().unwrap_or(0);
        record_of(shape, i, there, number)
    });
}
