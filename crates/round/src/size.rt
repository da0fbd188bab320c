// How many stations a round is of, and where its records' cells stand in the matrix (rules 4.3 and 4.7).
ghost use Rattle.std.specs.Prelude.{◌≡◌, ◌+◌, ◌*◌, ◌/◌, ◌%◌, ◌≤◌, ◌<◌};
ghost use Rattle.run.specs.Run.{stations};

use run::Run;

// No more stations than an array has places for.
#[derive(Clone, Copy)]
pub struct Size {
    pub n: u8,
    pub ghost few: { n ≤ stations },
}

impl Size {
    // The place of record k: that of receiver k / n and sender k % n.
    pub fn place(self, k: usize) -> usize
        requires { k < self.n * self.n }
        ensures value { result ≡ stations * (k / self.n) + k % self.n }
        ensures within { result < stations * stations }
    {
        let n = self.n as usize;
        Run::STATIONS * (k / n) + k % n
    }
}
