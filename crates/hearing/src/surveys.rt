// The survey: HO and SHO of every receiver of a round (rules 7.9 and 12.6).
ghost use Rattle.std.specs.Prelude.{◌≡◌};
ghost use Rattle.hearing.specs.Survey.{surveyed, survey_of};
ghost use Rattle.hearing.specs.Surveying.{rows_surveyed};

use super::{Sent, Survey, heard};
use round::{Matrix, read};
use run::{Refusal, Run, block};

// The sets of each receiver among n, row by row of the matrix, of senders who ought to send these.
fn survey_rows(matrix: Matrix, sent: Sent, n: u8) -> Survey
    ensures { result ≡ rows_surveyed n sent matrix }
{
    let mut ho: [u32; Run::STATIONS] = [0; Run::STATIONS];
    let mut sho: [u32; Run::STATIONS] = [0; Run::STATIONS];
    for p in 0..block::places(n) {
        let sets = heard::sets_of(read::row(matrix, p as u8), sent, n);
        ho[p] = sets.ho;
        sho[p] = sets.sho;
    }
    Survey {
        reply: Ok(()),
        ho,
        sho,
    }
}

// HO and SHO of a round that the run may read.
fn read_survey(run: Run, round: &[u8]) -> Result<Survey, Refusal>
    ensures { surveyed result ≡ survey_of run round.now }
{
    let reading = read::read_round(run, round);
    reading.reply?;
    let sent = heard::prescribed(rules::may_vote(run.setup, run.clock), run);
    Ok(survey_rows(reading.matrix, sent, run.setup.n))
}

// HO and SHO of a round that the run may read; empty sets with the refusal of any other.
pub fn survey(run: Run, round: &[u8]) -> Survey
    ensures { result ≡ survey_of run round.now }
{
    match read_survey(run, round) {
        Ok(survey) => survey,
        Err(refusal) => Survey {
            reply: Err(refusal),
            ho: [0; Run::STATIONS],
            sho: [0; Run::STATIONS],
        },
    }
}
