// The listing of a tape, page by page (rules 14.2 to 14.6): a page is a line, put into a buffer. The first is of the
// opening's bytes, each other of the next round's bytes, or of none where the tape has ended. A tape's pages, one
// behind the other, are its listing (proofs/Whole.antt).
#![tactic(auto)]

ghost use Rattle.pages.specs.Pages.{Puts, first_page, next_page};

use judge::step::step;
use run::Run;
use std::ops::ControlFlow;

// What putting a page answers: the run to go on with where another page follows, or else the run that the listing ends
// at; and where the text ends.
#[derive(Clone, Copy)]
pub struct Listed {
    pub next: ControlFlow<Run, Run>,
    pub end: usize,
}

// Puts the first page: the setup's line, or that of a refused opening, which is the only one. Where no line fits behind
// `at` nothing is put; so it is with the other pages. Buffer and place are two, as `Puts` has them.
pub fn put_first(out: &mut [u8], at: usize, opening: &[u8]) -> Listed
    ensures { Puts (first_page opening.now) out.old at result out.new }
{
    let opened = Run::open(opening);
    let run = opened.run;
    if opened.reply.is_err() {
        let end = lines::put_refusal(out, at, opened.reply);
        return Listed {
            next: ControlFlow::Break(run), // a refused opening has no rounds
            end,
        };
    }
    let end = lines::put_setup(out, at, run.setup);
    Listed {
        next: ControlFlow::Continue(run),
        end,
    }
}

// Puts the page of the next round: its line, or the last line where it is refused or where the tape has ended.
pub fn put_next(out: &mut [u8], at: usize, run: Run, round: &[u8]) -> Listed
    ensures { Puts (next_page run round.now) out.old at result out.new }
{
    if round.is_empty() {
        let end = lines::put_end(out, at, run.clock, Ok(()));
        return Listed {
            next: ControlFlow::Break(run), // the tape has ended
            end,
        };
    }
    let stepped = step(run, round);
    if stepped.reply.is_err() {
        let end = lines::put_end(out, at, run.clock, stepped.reply);
        return Listed {
            next: ControlFlow::Break(stepped.run), // what is behind a refused round is not looked at
            end,
        };
    }
    let end = lines::put_round(out, at, stepped.run, stepped.fired);
    Listed {
        next: ControlFlow::Continue(stepped.run), // another round may follow
        end,
    }
}
