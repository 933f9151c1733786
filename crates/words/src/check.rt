// What a check answers where it refuses: by which number, and at which word. And the two tests that checks are made of.
ghost use Rattle.std.specs.Prelude.{◌≡◌, ℕ, Bool, ◌+◌, ◌^◌, ◌<◌, ◌≤◌};
ghost use Rattle.words.specs.Verdict.{single as single_of, each as each_of, outcome};
ghost use Rattle.words.specs.Refusal.{code, refused, told};

use crate::{Number, Refusal};

impl Number {
    // The number itself, as C, the pages and the lines of the bench have it.
    pub fn code(self) -> u32
        ensures { result ≡ code self }
    {
        self as u32
    }

    // The refusal by this number, at the word of an index.
    pub fn at(self, index: usize) -> Refusal
        requires { index < 2 ^ 32 }
        ensures { result ≡ refused self index }
    {
        Refusal {
            number: self,
            index: index as u32,
        }
    }
}

// One word, which is refused where it is not right.
pub fn single(right: bool, number: Number, at: usize) -> Result<(), Refusal>
    requires { at < 2 ^ 32 }
    ensures { told result ≡ outcome (single_of right (code number) at) }
{
    if right {
        return Ok(());
    }
    Err(number.at(at))
}

// A word for each of n, from a place on: the first that is not right is refused. `right` tells of each by its number from 0 on.
pub fn each<F: Fn(usize) -> bool>(
    n: usize,
    right: F,
    number: Number,
    at: usize,
) -> Result<(), Refusal>
    requires room { at + n < 2 ^ 32 }
    requires callable { (j : ℕ) → j < n → F.pre right j }
    ensures { (ok : ℕ → Bool) → ((j : ℕ) (b : Bool) → j < n → F.post right j b → b ≡ ok j)
        → told result ≡ outcome (each_of n ok (code number) at) }
{
    for j in 0..n {
        if !right(j) {
            return Err(number.at(at + j));
        }
    }
    Ok(())
}
