// Sizes of sets, counted by their ones, against the setup's thresholds (rules 7.8, 8.2, 8.4, 9.3, 9.6, 10.8 and 10.9).
ghost use Rattle.std.specs.Prelude.{◌≡◌};
ghost use Rattle.std.specs.Int.Count.{ones};
ghost use Rattle.paper.specs.Setup as setup;
ghost use Rattle.limits.specs.Setup.{setup_of};

use super::Setup;
use super::inequalities::spread;

// More than T.
#[tactic(auto, unfolding(paper::specs::Setup::passes_t, crate::specs::Setup::setup_of))]
pub fn passes_t(s: Setup, set: u32) -> bool
    ensures { result ≡ setup.passes_t (setup_of s) (ones set) }
{
    u32::from(s.t) < set.count_ones()
}

// More than E. Beside passes_t: each is one comparison under the paper's own name, and a shared helper is no plainer.
#[tactic(auto, unfolding(paper::specs::Setup::passes_e, crate::specs::Setup::setup_of))]
pub fn passes_e(s: Setup, set: u32) -> bool
    ensures { result ≡ setup.passes_e (setup_of s) (ones set) }
{
    u32::from(s.e) < set.count_ones()
}

// At most alpha altered.
#[tactic(auto, unfolding(paper::specs::Setup::tolerated, crate::specs::Setup::setup_of))]
pub fn tolerated(s: Setup, set: u32) -> bool
    ensures { result ≡ setup.tolerated (setup_of s) (ones set) }
{
    set.count_ones() <= u32::from(s.alpha)
}

// At least alpha + 1 votes.
#[tactic(auto, unfolding(paper::specs::Setup::vouched, crate::specs::Setup::setup_of))]
pub fn vouched(s: Setup, set: u32) -> bool
    ensures { result ≡ setup.vouched (setup_of s) (ones set) }
{
    u32::from(s.alpha) + 1 <= set.count_ones()
}

// The greatest of T, alpha and n + 2 alpha - E - 1 (rule 10.9).
#[tactic(auto, unfolding(paper::specs::Setup::safe_bound, crate::specs::Setup::setup_of))]
fn safe_bound(s: Setup) -> u32
    ensures { result ≡ setup.safe_bound (setup_of s) }
{
    let least = spread(s).saturating_sub(u32::from(s.e) + 1);
    least.max(u32::from(s.t)).max(u32::from(s.alpha))
}

// More than that bound.
#[tactic(auto, unfolding(paper::specs::Setup::passes_bound))]
pub fn passes_bound(s: Setup, set: u32) -> bool
    ensures { result ≡ setup.passes_bound (setup_of s) (ones set) }
{
    safe_bound(s) < set.count_ones()
}
