// Records of 8 bytes, in which tapes and images are written (rules 2): one is read from a slice.
ghost use Rattle.std.specs.Prelude.{◌≡◌};
ghost use Rattle.run.specs.Record.{record_at};

use super::Run;

// A record's bytes in order: the kind, three bytes, and a number of four.
#[derive(Clone, Copy, Default)]
pub struct Record {
    pub kind: u8,
    pub first: u8,
    pub second: u8,
    pub third: u8,
    pub number: u32,
}

// Record i of the slice, blank where the slice has no such whole record.
pub fn record_at(bytes: &[u8], i: usize) -> Record
    ensures { result ≡ record_at bytes.now i }
{
    if i < bytes.len() / Run::RECORD {
        let at = Run::RECORD * i;
        Record {
            kind: bytes[at],
            first: bytes[at + 1],
            second: bytes[at + 2],
            third: bytes[at + 3],
            number: u32::from_le_bytes([
                bytes[at + 4],
                bytes[at + 5],
                bytes[at + 6],
                bytes[at + 7],
            ]),
        }
    } else {
        Record::default()
    }
}
