// The parameters of a run, the inequalities between them, and every guard: all that looks inside T, E and alpha (rules
// 10).
#![tactic(auto)]

pub mod inequalities; // which setups are acceptable
pub mod guard; // sizes of sets against the thresholds

ghost use Rattle.std.specs.Prelude.{◌≡◌};
ghost use Rattle.limits.specs.Setup.{is_u, algorithm_of, paper_algorithm};

pub const A: u8 = 1; // the algorithms' bytes

pub const U: u8 = 2;

// The parameters of a run. The algorithm stays the byte of the tape: A, U, 0 in the idle run, anything in a run handed
// in.
#[derive(Clone, Copy, Debug, PartialEq, Eq)]
pub struct Setup {
    pub algorithm: u8,
    pub n: u8,
    pub t: u8,
    pub e: u8,
    pub alpha: u8,
}

// The paper's two algorithms.
#[derive(Clone, Copy, Debug, PartialEq, Eq)]
pub enum Algorithm {
    A,
    U,
}

// Whether the byte names U.
pub fn is_u(s: Setup) -> bool
    ensures { result ≡ is_u s }
{
    s.algorithm == U
}

// The algorithm that the byte names; a byte that names none is taken for A, and no setup with one is in range.
pub(crate) fn algorithm_of(s: Setup) -> Algorithm
    ensures { paper_algorithm result ≡ algorithm_of s }
{
    if is_u(s) { Algorithm::U } else { Algorithm::A }
}
