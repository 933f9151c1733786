// Rule 8 for all modules: as structs, and on lent arrays, by counts or by fading scores.
ghost use Rattle.std.specs.Prelude.{◌≡◌, ℕ, ◌^◌, ◌≤◌, ◌<◌, get_or};
ghost use Rattle.words.specs.Bits.{pack};
ghost use Rattle.words.specs.Array.{array, Filled};
ghost use Rattle.doubles.specs.Double.{high_word, low_word};
ghost use Rattle.accounts.specs.Round.{accounted_by, account_at, counters_of};
ghost use Rattle.accounts.specs.Lent.{account_in, counted_at, score_in, faded_at};
ghost use Rattle.accounts.specs.Range.{InRange, CountRange, AccountRange};

use crate::{Account, Counters};
use doubles::{high_word, low_word, of_words};
use setup::{Limits, Setup};
use words::bits::{bit_at, power, with_bit};

impl Account {
    // One module, by the limits of its setup.
    fn next(self, limits: Limits, q: u32, criticality: u32, healthy: bool) -> Account
        requires { AccountRange limits q criticality self }
        ensures { result ≡ accounted_by limits q criticality healthy self }
    {
        match limits {
            Limits::Counts(p, r) => self.accounted(p, r, q, criticality, healthy),
            Limits::Fading(factor, limit) => self.faded(factor, limit, q, healthy),
        }
    }
}

impl Counters {
    // The account of module j + 1.
    #[tactic(auto, unfolding(crate::specs::Round::account_at))]
    fn account(&self, j: usize) -> Account
        requires { j < 16 }
        ensures { result ≡ account_at self.now j }
    {
        Account {
            present: bit_at(self.view, j),
            penalty: self.penalty[j],
            reward: self.reward[j],
            score: self.score[j],
            returns: self.returns[j],
        }
    }
}

// All modules.
pub fn counters(setup: Setup, health: u32, c: Counters) -> Counters
    requires n_bound { setup.n ≤ 16 }
    requires by_index { (j : ℕ) → j < setup.n → AccountRange setup.limits setup.q (get_or setup.criticality j 0) (account_at c j) }
    ensures { result ≡ counters_of setup health c }
{
    let mut view: u32 = 0;
    let mut penalty = [0u32; 16];
    let mut reward = [0u32; 16];
    let mut score = [0.0; 16];
    let mut returns = [0u32; 16];
    for j in 0..setup.n {
        let was = c.account(j);
        let healthy = bit_at(health, j);
        let next = was.next(setup.limits, setup.q, setup.criticality[j], healthy);
        view = with_bit(view, j, next.present);
        penalty[j] = next.penalty;
        reward[j] = next.reward;
        score[j] = next.score;
        returns[j] = next.returns;
    }
    Counters {
        view,
        penalty,
        reward,
        score,
        returns,
    }
}

// By counts and by scores: two functions, and not one over a trait. The trait would have what differs as its members, how an account is read and written
// back, the limits, the round of one module, and how many modules are gone through (a score past N would not stay 0.0), and with their laws be longer
// than both.

// All modules by counts, their counters in lent arrays; the answer is the view. Modules are taken four at a time, those past n among them, whose
// counters stay 0; their bits of the view are cut off.
pub fn count(
    n: usize,
    p: u32,
    r: u32,
    q: u32,
    health: u32,
    criticality: &[u32; 16],
    penalty: &mut [u32; 16],
    reward: &mut [u32; 16],
    returns: &mut [u32; 16],
) -> u32
    requires n_bound { (n ≤ 16) × (health < 2 ^ n) }
    requires filled { Filled n criticality.now × Filled n penalty.old × Filled n reward.old × Filled n returns.old }
    requires by_index { (j : ℕ) → j < n → InRange p q (get_or criticality.now j 0) (account_in p penalty.old reward.old returns.old j) }
    ensures { (result ≡ pack n (λ j. (counted_at p r q health criticality.now penalty.old reward.old returns.old j).present))
        × (penalty.new ≡ array n (λ j. (counted_at p r q health criticality.now penalty.old reward.old returns.old j).penalty))
        × (reward.new ≡ array n (λ j. (counted_at p r q health criticality.now penalty.old reward.old returns.old j).reward))
        × (returns.new ≡ array n (λ j. (counted_at p r q health criticality.now penalty.old reward.old returns.old j).returns)) }
{
    let mut view: u32 = 0;
    for j in 0..(n + 3) / 4 * 4 {
        let was = Account {
            present: penalty[j] <= p,
            penalty: penalty[j],
            reward: reward[j],
            score: 0.0,
            returns: returns[j],
        };
        let healthy = bit_at(health, j);
        let next = was.accounted(p, r, q, criticality[j], healthy);
        view = with_bit(view, j, next.present);
        penalty[j] = next.penalty;
        reward[j] = next.reward;
        returns[j] = next.returns;
    }
    view % power(n)
}

// All modules by fading scores, the two halves of which are lent as words, so that a step lends the same arrays in both forms; the answer is the
// view.
pub fn fade(
    n: usize,
    factor: f64,
    limit: f64,
    q: u32,
    health: u32,
    high: &mut [u32; 16],
    low: &mut [u32; 16],
    returns: &mut [u32; 16],
) -> u32
    requires n_bound { (n ≤ 16) × Filled n high.old × Filled n low.old × Filled n returns.old }
    requires by_index { (j : ℕ) → j < n → CountRange q (score_in limit high.old low.old returns.old j) }
    ensures { (result ≡ pack n (λ j. (faded_at factor limit q health high.old low.old returns.old j).present))
        × (high.new ≡ array n (λ j. high_word (faded_at factor limit q health high.old low.old returns.old j).score))
        × (low.new ≡ array n (λ j. low_word (faded_at factor limit q health high.old low.old returns.old j).score))
        × (returns.new ≡ array n (λ j. (faded_at factor limit q health high.old low.old returns.old j).returns)) }
{
    let mut view: u32 = 0;
    for j in 0..n {
        let held = of_words(high[j], low[j]);
        let was = Account {
            present: held < limit,
            penalty: 0,
            reward: 0,
            score: held,
            returns: returns[j],
        };
        let healthy = bit_at(health, j);
        let next = was.faded(factor, limit, q, healthy);
        view = with_bit(view, j, next.present);
        high[j] = high_word(next.score);
        low[j] = low_word(next.score);
        returns[j] = next.returns;
    }
    view
}
