// What a line says, as text.
use limits::{A, Setup};
use run::{Opened, Reply, Run, reply};
use std::fmt;

// `2 at 5`
#[derive(Clone, Copy)]
pub struct Answer(pub Reply);

impl fmt::Display for Answer {
    fn fmt<W: fmt::Write>(&self, f: &mut fmt::Formatter<W>) -> fmt::Result {
        write!(f, "{} at {}", reply::number(self.0), reply::place(self.0))
    }
}

// `A n=3 T=2 E=2 alpha=0`
#[derive(Clone, Copy)]
pub struct Parameters(pub Setup);

impl fmt::Display for Parameters {
    fn fmt<W: fmt::Write>(&self, f: &mut fmt::Formatter<W>) -> fmt::Result {
        let Setup {
            algorithm,
            n,
            t,
            e,
            alpha,
        } = self.0;
        let name = if algorithm == A { 'A' } else { 'U' };
        write!(f, "{name} n={n} T={t} E={e} alpha={alpha}")
    }
}

// ` 7`, or a sign where there is no number.
#[derive(Clone, Copy)]
pub struct Maybe(pub Option<u32>, pub char);

impl fmt::Display for Maybe {
    fn fmt<W: fmt::Write>(&self, f: &mut fmt::Formatter<W>) -> fmt::Result {
        match self.0 {
            Some(number) => write!(f, " {number}"),
            None => write!(f, " {}", self.1),
        }
    }
}

// ` 5 5 5`: what each station holds.
#[derive(Clone, Copy)]
struct Estimates<'a>(&'a Run);

impl fmt::Display for Estimates<'_> {
    fn fmt<W: fmt::Write>(&self, f: &mut fmt::Formatter<W>) -> fmt::Result {
        let run = self.0;
        for estimate in run.estimates.iter().take(run.setup.n as usize) {
            write!(f, " {estimate}")?;
        }
        Ok(())
    }
}

// ` ? 7 ?`
#[derive(Clone, Copy)]
struct Votes<'a>(&'a Run);

impl fmt::Display for Votes<'_> {
    fn fmt<W: fmt::Write>(&self, f: &mut fmt::Formatter<W>) -> fmt::Result {
        let run = self.0;
        let stations = run.voted.iter().zip(&run.votes);
        for (voted, vote) in stations.take(run.setup.n as usize) {
            write!(f, "{}", Maybe(voted.then_some(*vote), '?'))?;
        }
        Ok(())
    }
}

// ` 5@2 - -`
#[derive(Clone, Copy)]
struct Decisions<'a>(&'a Run);

impl fmt::Display for Decisions<'_> {
    fn fmt<W: fmt::Write>(&self, f: &mut fmt::Formatter<W>) -> fmt::Result {
        let run = self.0;
        let decisions = run.decisions.iter().zip(&run.rounds);
        let stations = run.decided.iter().zip(decisions);
        for (decided, (decision, round)) in stations.take(run.setup.n as usize) {
            if *decided {
                write!(f, " {decision}@{round}")?;
            } else {
                f.write_str(" -")?;
            }
        }
        Ok(())
    }
}

// `A n=3 T=2 E=2 alpha=0 default 0 clock 2 hold 5 5 5 vote ? ? ? decide 5@2 5@2 -`
#[derive(Clone, Copy)]
struct Whole<'a>(&'a Run);

impl fmt::Display for Whole<'_> {
    fn fmt<W: fmt::Write>(&self, f: &mut fmt::Formatter<W>) -> fmt::Result {
        let run = self.0;
        let (default, clock) = (run.default, run.clock);
        let (hold, vote, decide) = (Estimates(run), Votes(run), Decisions(run));
        let setup = Parameters(run.setup);
        write!(f, "{setup} default {default} clock {clock}")?;
        write!(f, " hold{hold} vote{vote} decide{decide}")
    }
}

// A run that keeps the rules, or only that it is one that doesn't.
#[derive(Clone, Copy)]
pub struct Held<'a>(pub &'a Run);

impl fmt::Display for Held<'_> {
    fn fmt<W: fmt::Write>(&self, f: &mut fmt::Formatter<W>) -> fmt::Result {
        if rules::sound(*self.0) {
            write!(f, "{}", Whole(self.0))
        } else {
            f.write_str("run")
        }
    }
}

// `0 at 0 A n=3 T=2 ..`, or `2 at 1 idle`
#[derive(Clone, Copy)]
pub struct OpenedRun(pub Opened);

impl fmt::Display for OpenedRun {
    fn fmt<W: fmt::Write>(&self, f: &mut fmt::Formatter<W>) -> fmt::Result {
        let run = &self.0.run;
        write!(f, "{} ", Answer(self.0.reply))?;
        if *run == Run::idle() {
            f.write_str("idle")
        } else {
            write!(f, "{}", Held(run))
        }
    }
}

// Two digits for each byte, or `-` where there is none.
#[derive(Clone, Copy)]
pub struct Hex<'a>(pub &'a [u8]);

impl fmt::Display for Hex<'_> {
    fn fmt<W: fmt::Write>(&self, f: &mut fmt::Formatter<W>) -> fmt::Result {
        if self.0.is_empty() {
            return f.write_str("-");
        }
        for byte in self.0 {
            write!(f, "{byte:02x}")?;
        }
        Ok(())
    }
}

// `9 at 0 bytes a0a1a2`
#[derive(Clone, Copy)]
pub struct Written<'a>(pub Reply, pub &'a [u8]);

impl fmt::Display for Written<'_> {
    fn fmt<W: fmt::Write>(&self, f: &mut fmt::Formatter<W>) -> fmt::Result {
        write!(f, "{} bytes {}", Answer(self.0), Hex(self.1))
    }
}

// ` 7 7 6`: the sets of the first n receivers in hex.
#[derive(Clone, Copy)]
pub struct Sets<'a> {
    pub n: u8,
    pub masks: &'a [u32; Run::STATIONS],
}

impl fmt::Display for Sets<'_> {
    fn fmt<W: fmt::Write>(&self, f: &mut fmt::Formatter<W>) -> fmt::Result {
        let masks = self.masks;
        for mask in masks.iter().take(self.n as usize) {
            write!(f, " {mask:x}")?;
        }
        Ok(())
    }
}
