// A change that takes effect on lent arrays, from the words of a saved state, as a step from C goes.
ghost use Rattle.std.specs.Prelude.{◌≡◌, ℕ, ◌+◌, ◌*◌, ◌^◌, ◌≤◌, ◌<◌, length, get_or};
ghost use Rattle.words.specs.Word.{word_at};
ghost use Rattle.words.specs.Array.{array, Filled};
ghost use Rattle.setup.specs.Setup.{limit_in, criticality_in};
ghost use Rattle.setup.specs.declared.Limits.TheVariants.{Counts};
ghost use Rattle.changes.specs.Lent.{adjusted_in};

use crate::adjust::adjusted;
use accounts::Account;
use setup::Limits;
use setup::layout::PLACE;
use words::bits::bit_at;
use words::word::{KIND, word_at};

// The penalties and rewards after a change to these limits and criticalities, in their place and without the view, which a step from C holds by
// itself. (`adjusted_counters` has them by value, and asks nothing of the entries from n on.)
fn adjust(
    n: usize,
    view: u32,
    p: u32,
    r: u32,
    criticality: &[u32; 16],
    penalty: &mut [u32; 16],
    reward: &mut [u32; 16],
)
    requires { (n ≤ 16) × (p < 2 ^ 28) × ((j : ℕ) → j < n → get_or criticality.now j 0 < 2 ^ 28) × Filled n penalty.old × Filled n reward.old }
    ensures { (penalty.new ≡ array n (λ j. (adjusted_in view p r criticality.now penalty.old reward.old j).penalty))
        × (reward.new ≡ array n (λ j. (adjusted_in view p r criticality.now penalty.old reward.old j).reward)) }
{
    for j in 0..n {
        let owed = penalty[j];
        let earned = reward[j];
        let was = Account {
            present: bit_at(view, j),
            penalty: owed,
            reward: earned,
            score: 0.0,
            returns: 0,
        };
        let next = adjusted(was, p, r, criticality[j]);
        penalty[j] = next.penalty;
        reward[j] = next.reward;
    }
}

// The new criticalities, in a lent array.
pub(crate) fn load_criticality(s: &[u8], n: usize, at: usize, criticality: &mut [u32; 16])
    requires { (n ≤ 16) × (at < 2 ^ 16) × ((at + 3 + n) * 4 ≤ length s.now) × Filled n criticality.old }
    ensures { criticality.new ≡ array n (λ j. criticality_in (word_at s.now (at + 3 + j))) }
{
    for j in 0..n {
        criticality[j] = word_at(s, at + 3 + j) % PLACE;
    }
}

// A change whose rounds left stand at `at` takes effect: the arrays hold the new criticalities and the adjusted counters, and the answer is the new
// limits.
pub fn turn(
    s: &[u8],
    n: usize,
    at: usize,
    view: u32,
    criticality: &mut [u32; 16],
    penalty: &mut [u32; 16],
    reward: &mut [u32; 16],
) -> Limits
    requires { (n ≤ 16) × (at < 2 ^ 16) × ((at + 3 + n) * 4 ≤ length s.now) × Filled n criticality.old × Filled n penalty.old × Filled n reward.old }
    ensures { (result ≡ Counts (limit_in (word_at s.now (at + 1))) (limit_in (word_at s.now (at + 2))))
        × (criticality.new ≡ array n (λ j. criticality_in (word_at s.now (at + 3 + j))))
        × (penalty.new ≡ array n (λ j. (adjusted_in view (limit_in (word_at s.now (at + 1))) (limit_in (word_at s.now (at + 2)))
        (array n (λ j. criticality_in (word_at s.now (at + 3 + j)))) penalty.old reward.old j).penalty))
        × (reward.new ≡ array n (λ j. (adjusted_in view (limit_in (word_at s.now (at + 1))) (limit_in (word_at s.now (at + 2)))
        (array n (λ j. criticality_in (word_at s.now (at + 3 + j)))) penalty.old reward.old j).reward)) }
{
    let p = word_at(s, at + 1) % KIND;
    let r = word_at(s, at + 2) % KIND;
    load_criticality(s, n, at, criticality);
    adjust(n, view, p, r, criticality, penalty, reward);
    Limits::Counts(p, r)
}
