// The four inequalities between n, T, E and alpha (rules 10).
ghost use Rattle.std.specs.Prelude.{◌≡◌, ◌+◌, ◌*◌};
ghost use Rattle.paper.specs.Setup as setup;
ghost use Rattle.limits.specs.Setup.{setup_of, algorithm_of};

use super::{Algorithm, Setup, algorithm_of};

// n + 2 alpha, which the lower bounds of T and E speak of.
pub(crate) fn spread(s: Setup) -> u32
    ensures { result ≡ s.n + 2 * s.alpha }
{
    u32::from(s.n) + 2 * u32::from(s.alpha)
}

// n > E.
#[tactic(auto, unfolding(paper::specs::Setup::e_below_n, crate::specs::Setup::setup_of))]
fn e_below_n(s: Setup) -> bool
    ensures { result ≡ setup.e_below_n (setup_of s) }
{
    s.e < s.n
}

// n > T. Beside e_below_n: each is one comparison under the paper's own name, and a shared helper is no plainer.
#[tactic(auto, unfolding(paper::specs::Setup::t_below_n, crate::specs::Setup::setup_of))]
fn t_below_n(s: Setup) -> bool
    ensures { result ≡ setup.t_below_n (setup_of s) }
{
    s.t < s.n
}

// T >= 2(n + 2 alpha - E) under A, with 2E on both sides; 2T >= n + 2 alpha under U.
#[tactic(auto, unfolding(paper::specs::Setup::t_enough, crate::specs::Setup::setup_of))]
fn t_enough(s: Setup) -> bool
    ensures { result ≡ setup.t_enough (algorithm_of s) (setup_of s) }
{
    match algorithm_of(s) {
        Algorithm::A => 2 * spread(s) <= u32::from(s.t) + 2 * u32::from(s.e),
        Algorithm::U => spread(s) <= 2 * u32::from(s.t),
    }
}

// 2E >= n + 2 alpha.
#[tactic(auto, unfolding(paper::specs::Setup::e_enough, crate::specs::Setup::setup_of))]
fn e_enough(s: Setup) -> bool
    ensures { result ≡ setup.e_enough (setup_of s) }
{
    spread(s) <= 2 * u32::from(s.e)
}

// The four in turn. Under A the paper has no lower bound of E: it follows from the others.
#[tactic(auto, unfolding(paper::specs::Setup::acceptable, crate::specs::Setup::setup_of))]
pub fn acceptable(s: Setup) -> bool
    ensures { result ≡ setup.acceptable (setup_of s) }
{
    e_below_n(s) && t_below_n(s) && t_enough(s) && e_enough(s)
}
