// The view that is adopted from the view words of one round.
ghost use Rattle.std.specs.Prelude.{◌≡◌, ℕ, Bool, true, not, ◌||◌, if◌then◌else◌, Option, Some, None, ◌*◌, ◌≤◌, ◌<◌, get_or, eqb};
ghost use Rattle.words.specs.Count.{count};
ghost use Rattle.views.specs.Adoption.{is_there, carriers, adoptable, adopted_from};

use crate::Adopted;
use words::bits::{bit_at, flag, pick, power, with_bit};

// How many of the n view words pass a test.
fn senders<F: Fn(u32) -> bool>(n: usize, views: &[u32; 16], passes: F) -> u32
    requires small { n ≤ 16 }
    requires callable { (l : ℕ) → l < n → F.pre passes (get_or views.now l 0) }
    ensures { (result ≤ n) × ((p : ℕ → Bool) → ((l : ℕ) (b : Bool) → l < n → F.post passes (get_or views.now l 0) b → b ≡ p l) → result ≡ count n p) }
{
    let mut many: u32 = 0;
    for l in 0..n {
        many = many + flag(passes(views[l]));
    }
    many
}

// How many are there.
fn present(n: usize, views: &[u32; 16]) -> u32
    requires { n ≤ 16 }
    ensures { (result ≡ count n (λ l. is_there (get_or views.now l 0))) × (result ≤ n) }
{
    senders(n, views, |w| w != 0)
}

// How many carry 1 for module j + 1. A missing one is 0, so it carries none.
fn ones(n: usize, views: &[u32; 16], j: usize) -> u32
    requires { (n ≤ 16) × (j < 16) }
    ensures { (result ≡ carriers n views.now j true) × (result ≤ n) }
{
    senders(n, views, |w| bit_at(w, j))
}

// What n view words decide, module by module. Those that are there and do not carry 1 carry 0.
fn counted(n: usize, views: &[u32; 16]) -> Option<u32>
    requires { n ≤ 16 }
    ensures { result ≡ (if adoptable n views.now then Some (adopted_from n views.now) else None) }
{
    let all = n as u32;
    let there = present(n, views);
    let mut decided = true;
    let mut view: u32 = 0;
    for j in 0..n {
        let one = ones(n, views, j);
        let zero = there - one;
        decided = decided & ((all < 2 * one) | (all < 2 * zero));
        view = with_bit(view, j, all < 2 * one);
    }
    decided.then_some(view)
}

// The view word that more than half of all n are, where those that are there are all one.
fn common_word(n: usize, views: &[u32; 16]) -> Option<u32>
    requires { n ≤ 16 }
    ensures { (w : ℕ) → result ≡ Some w → (w ≡ 0 → ⊥) × (n < 2 * count n (λ l. eqb (get_or views.now l 0) w)) }
{
    let mut word: u32 = 0;
    for l in 0..n {
        word = word | views[l];
    }
    let same = senders(n, views, |w| w == word);
    ((word != 0) & ((n as u32) < 2 * same)).then_some(word)
}

// The view that n view words decide, if each module has a value that more than half of all n carry. Where more than half are one word, nothing is
// counted module by module.
fn adoption(n: usize, views: &[u32; 16]) -> Option<u32>
    requires { n ≤ 16 }
    ensures { result ≡ (if adoptable n views.now then Some (adopted_from n views.now) else None) }
{
    if let Some(word) = common_word(n, views) {
        return Some(word % power(n));
    }
    counted(n, views)
}

impl Adopted {
    // After a round that votes on these view words. Where they decide nothing the module takes itself out; out, it stays out, and its adopted view stays.
    pub(crate) fn after(self, n: usize, voted: &[u32; 16]) -> Adopted
        requires { n ≤ 16 }
        ensures { (result.out ≡ self.out || not (adoptable n voted.now))
            × (result.view ≡ (if self.out || not (adoptable n voted.now) then self.view else adopted_from n voted.now)) }
    {
        let found = adoption(n, voted);
        let out = self.out | found.is_none();
        Adopted {
            view: pick(out, self.view, found.unwrap_or(0)),
            out,
        }
    }
}
