// What a frame holds, read from the input. Numbers are little-endian. A byte past the end of the input is 0, but in a
// payload it is what earlier payloads left in the room for them, 0 at first.
ghost use Rattle.std.specs.Prelude.{◌≤◌, length};

use limits::Setup;
use run::Run;
use std::array;
use std::io::Read;

const SPACE: usize = u16::MAX as usize; // no payload has more

pub const LABEL: usize = u8::MAX as usize; // no label has more

// The frames of an input, and room for a payload.
#[derive(Drop)]
pub struct Frames<R> {
    input: R,
    space: [u8; SPACE],
}

// Reads until the bytes are full; where the input ends first, or can't be read on, those behind its end stay as they are.
// So it is with std's readers: of a buffer that was not filled `Read` itself promises nothing.
fn fill<R: Read>(input: &mut R, bytes: &mut [u8]) {
    let _ = input.read_exact(bytes);
}

impl<R: Read + Drop> Frames<R> {
    pub fn new(input: R) -> Frames<R> {
        Frames {
            input,
            space: [0; SPACE],
        }
    }

    fn bytes<const N: usize>(&mut self) -> [u8; N] {
        let mut bytes = [0; N];
        fill(&mut self.input, &mut bytes);
        bytes
    }

    pub fn byte(&mut self) -> u8 {
        let [byte]: [u8; 1] = self.bytes();
        byte
    }

    pub fn number(&mut self) -> u32 {
        u32::from_le_bytes(self.bytes())
    }

    // A number for each station.
    pub fn numbers(&mut self) -> [u32; Run::STATIONS] {
        array::from_fn(|_| self.number())
    }

    // A byte for each station, 0 for false.
    pub fn flags(&mut self) -> [bool; Run::STATIONS] {
        array::from_fn(|_| self.byte() != 0)
    }

    pub fn parameters(&mut self) -> Setup {
        let [algorithm, n, t, e, alpha]: [u8; 5] = self.bytes();
        Setup {
            algorithm,
            n,
            t,
            e,
            alpha,
        }
    }

    // A run as it stands, of which nothing says that it keeps the rules: 589 bytes.
    pub fn run(&mut self) -> Run {
        Run {
            setup: self.parameters(),
            default: self.number(),
            clock: self.number(),
            estimates: self.numbers(),
            voted: self.flags(),
            votes: self.numbers(),
            decided: self.flags(),
            decisions: self.numbers(),
            rounds: self.numbers(),
        }
    }

    // A payload: a length of two bytes and so many bytes, in the room for them.
    pub fn payload(&mut self) -> &mut [u8]
        ensures { length result.now ≤ 65535 }
    {
        let length = u16::from_le_bytes(self.bytes()) as usize;
        let space = &mut self.space[..];
        fill(&mut self.input, &mut space[..length]);
        // Lent anew: a loan to the caller has to begin after the input's last use.
        let space = &mut self.space[..];
        &mut space[..length]
    }

    // The label that a frame begins with, a length of one byte and so many bytes, in the room handed in; none where the
    // input has ended.
    pub fn label<'a>(&mut self, room: &'a mut [u8; LABEL]) -> Option<&'a [u8]> {
        let length = self.byte();
        if length == 0 {
            return None;
        }
        let label = &mut room[..length as usize];
        fill(&mut self.input, label);
        Some(label)
    }
}
