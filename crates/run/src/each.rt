// Loops that stand once: the lowest place that passes a test, and an array filled from its start.
ghost use Rattle.std.specs.Prelude.{◌≡◌, ℕ, Bool, ◌<◌, min, IfSome};
ghost use Rattle.run.specs.First.{first};
ghost use Rattle.run.specs.Filled.{filled};
ghost use Rattle.run.specs.Run.{stations};

use super::Run;

// The lowest place below n at which the test is true.
pub fn first<F: Fn(usize) -> bool>(n: usize, test: F) -> Option<usize>
    requires { (i : ℕ) → i < n → F.pre test i }
    ensures below { IfSome result (λ i. i < n) }
    ensures first { (f : ℕ → Bool) → ((i : ℕ) (b : Bool) → i < n → F.post test i b → b ≡ f i) → result ≡ first n f }
{
    for i in 0..n {
        if test(i) {
            return Some(i);
        }
    }
    None
}

// An array whose first k places, as far as it has them, are made from their index.
pub fn filled<T: Copy, F: Fn(usize) -> T>(k: usize, blank: T, make: F) -> [T; Run::STATIONS]
    requires { (i : ℕ) → i < min k stations → F.pre make i }
    ensures { (g : ℕ → T) → ((i : ℕ) (x : T) → i < min k stations → F.post make i x → x ≡ g i)
        → result ≡ filled stations k g blank }
{
    let mut all = [blank; Run::STATIONS];
    for i in 0..k.min(Run::STATIONS) {
        all[i] = make(i);
    }
    all
}
