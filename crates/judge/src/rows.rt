// The rows of a round, each read once: its records checked, its sets, and how often its values came (rules 7).
ghost use Rattle.std.specs.Prelude.{◌≡◌};
ghost use Rattle.judge.specs.Rows.{rows_counted};

use super::{Counted, Ready};
use hearing::{Tally, count, heard};
use round::read;
use run::{Refusal, Run};

// The count of a row that has no values.
const NO_VALUE: Tally = Tally {
    value: 0,
    senders: 0,
    least: None,
};

impl Ready<'_> {
    // Reads the rows of a round in order: the first record at fault, or the sets and the count of each row.
    pub(crate) fn count_rows(&self, round: &[u8]) -> Result<Counted, Refusal>
        ensures { result ≡ rows_counted self.now.voting self.now.run.now round.now }
    {
        let setup = self.run.setup;
        let n = setup.n;
        let sent = heard::prescribed(self.voting, *self.run);
        let mut counted = Counted {
            ho: [0; Run::STATIONS],
            sho: [0; Run::STATIONS],
            tallies: [NO_VALUE; Run::STATIONS],
        };
        for receiver in 0..n {
            let cells = read::read_row(
                read::row_part(round, n, receiver),
                self.voting,
                receiver,
                n,
            )?;
            let sets = heard::sets_of(cells, sent, n);
            let p = receiver as usize;
            counted.ho[p] = sets.ho;
            counted.sho[p] = sets.sho;
            counted.tallies[p] = count::tally(cells, setup);
        }
        Ok(counted)
    }
}
