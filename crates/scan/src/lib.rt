// Scans over the records of a table: the first index that passes a test, as a definition with its laws and as the one loop that every
// table goes through. It uses nothing.
#![tactic(auto)]

ghost use Rattle.std.specs.Prelude.{◌≡◌, ◌<◌, ℕ, Bool};
ghost use Rattle.scan.specs.First.{first, some};

// The first of count indices that passes a test. A test that answers as p does, index by index, finds what p finds.
#[tactic(auto, using(crate::specs::Laws::passed_step, crate::specs::Laws::found_here, crate::specs::Laws::found_none))]
pub fn first<F: Fn(usize) -> bool>(count: usize, test: F) -> Option<usize>
    requires { (i : ℕ) → i < count → F.pre test i }
    ensures { (p : ℕ → Bool) → ((i : ℕ) (b : Bool) → i < count → F.post test i b → b ≡ p i) → result ≡ first p count }
{
    for i in 0..count {
        if test(i) {
            return Some(i);
        }
    }
    None
}

// Whether one of count indices passes a test.
pub fn some<F: Fn(usize) -> bool>(count: usize, test: F) -> bool
    requires { (i : ℕ) → i < count → F.pre test i }
    ensures { (p : ℕ → Bool) → ((i : ℕ) (b : Bool) → i < count → F.post test i b → b ≡ p i) → result ≡ some p count }
{
    first(count, test).is_some()
}
