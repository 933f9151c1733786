// What a change does to the accounts at the start of the counting of its round.
ghost use Rattle.std.specs.Prelude.{◌≡◌, ℕ, ◌^◌, ◌≤◌, ◌<◌, get_or};
ghost use Rattle.changes.specs.Adjust.{fitted, adjusted, adjusted_at, adjusted_of};

use crate::Pending;
use accounts::{Account, Counters};
use words::bits::{bit_at, pick};
use words::{array, bits};

// The penalty raised to at least p + 1 and cut to at most p + criticality.
fn fitted(p: u32, criticality: u32, penalty: u32) -> u32
    requires { (p < 2 ^ 28) × (criticality < 2 ^ 28) }
    ensures { result ≡ fitted p criticality penalty }
{
    let raised = pick(p + 1 <= penalty, penalty, p + 1);
    pick(raised <= p + criticality, raised, p + criticality)
}

// One module. In the view with a reward at or above r: zero counters; then over p it leaves. Outside: reward 0, the penalty fitted. No branch, so that
// modules are taken four at a time.
pub(crate) fn adjusted(a: Account, p: u32, r: u32, criticality: u32) -> Account
    requires { (p < 2 ^ 28) × (criticality < 2 ^ 28) }
    ensures { result ≡ adjusted p r criticality a }
{
    let cleared = a.present & (r <= a.reward);
    let penalty = pick(cleared, 0, a.penalty);
    let reward = pick(cleared, 0, a.reward);
    let present = a.present & (penalty <= p);
    let outside = fitted(p, criticality, penalty);
    Account {
        present,
        penalty: pick(present, penalty, outside),
        reward: pick(present, reward, 0),
        score: a.score,
        returns: a.returns,
    }
}

// The account of module j + 1.
fn adjusted_at(new: &Pending, c: &Counters, j: usize) -> Account
    requires { (j < 16) × (new.now.p < 2 ^ 28) × (get_or new.now.criticality j 0 < 2 ^ 28) }
    ensures { result ≡ adjusted_at new.now c.now j }
{
    let was = Account {
        present: bit_at(c.view, j),
        penalty: c.penalty[j],
        reward: c.reward[j],
        score: c.score[j],
        returns: c.returns[j],
    };
    adjusted(was, new.p, new.r, new.criticality[j])
}

// All n modules.
pub(crate) fn adjusted_counters(n: usize, new: Pending, c: Counters) -> Counters
    requires n_bound { (n ≤ 16) × (new.p < 2 ^ 28) }
    requires by_index { (j : ℕ) → j < n → get_or new.criticality j 0 < 2 ^ 28 }
    ensures { result ≡ adjusted_of n new c }
{
    Counters {
        view: bits::from_fn(n, |j| adjusted_at(&new, &c, j).present),
        penalty: array::from_fn(n, |j| adjusted_at(&new, &c, j).penalty),
        reward: array::from_fn(n, |j| adjusted_at(&new, &c, j).reward),
        ..c
    }
}
