// The counters of the modules of a setup that counts, kinds 13 and 14, and 15 of returns.rt: tested, read and written.
ghost use Rattle.std.specs.Prelude.{◌≡◌, ℕ, ◌+◌, ◌*◌, ◌^◌, ◌<◌, ◌≤◌, true, false, length, slice_index};
ghost use Rattle.words.specs.Word.{word_at, number_unit};
ghost use Rattle.words.specs.Array.{array};
ghost use Rattle.words.specs.Verdict.{all_right};
ghost use Rattle.words.specs.Runs.{put_run};
ghost use Rattle.setup.specs.Layout.{head_at, penalty_limit_at, reward_limit_at, front_words};
ghost use Rattle.setup.specs.Setup.{return_limit_in, limit_in, criticality_in};
ghost use Rattle.setup.specs.Limits.{most_return_limit, most_penalty_limit, most_reward_limit};
ghost use Rattle.image.specs.Layout.{own_at, accounts_at, rewards_at, returns_at, before_left};
ghost use Rattle.image.specs.Words.{view_in};
ghost use Rattle.image.specs.CounterSection.{counter_word, counter_of, basis_in, counter_test, values_in};
ghost use Rattle.image.specs.Returns.{return_counts};
ghost use Rattle.image.specs.Counters.{penalty_fits, penalties, reward_fits, rewards, counter_tests, zero_counters, counters_roomy};

use crate::Basis;
use crate::layout::{accounts_at, returns_at, rewards_at};
use crate::read::{criticality_in, limit_in, view_in};
use crate::returns::return_fits;
use accounts::Counters;
use doubles::array::clear_doubles;
use setup::layout::{PENALTY_LIMIT_AT, REWARD_LIMIT_AT};
use words::array::bounded;
use words::bits::bit_at;
use words::word::{KIND, NUMBER, field, gap, put_word, word_at};

// The largest counter that a word has room for.
const MOST: u32 = NUMBER - 1;

// A word of this kind, of module j + 1.
fn counter_of(kind: u32, j: usize, w: u32) -> bool
    requires { (kind < 16) × (j < 16) }
    ensures { result ≡ counter_of kind j w }
{
    w / NUMBER == kind * 32 + (j as u32 + 1)
}

// At most p and the criticality; in the view exactly where it is not over p.
fn penalty_fits(p: u32, criticality: u32, present: bool, penalty: u32) -> bool
    requires { (p < 2 ^ 28) × (criticality < 2 ^ 17) }
    ensures { result ≡ penalty_fits p criticality present penalty }
{
    (penalty <= p + criticality) & (present == (penalty <= p))
}

// Below the limit, and 0 where the penalty is 0.
fn reward_fits(limit: u32, penalty: u32, reward: u32) -> bool
    ensures { result ≡ reward_fits limit penalty reward }
{
    (reward < limit) & ((reward == 0) | (penalty != 0))
}

// What the counters of module j + 1 are tested by.
fn basis_in(s: &[u8], front: usize, n: usize, j: usize) -> Basis
    requires { (front ≤ 6) × (n ≤ 16) × (before_left front n ≤ length s.now) × (2 < front) × (j < n) }
    ensures { result ≡ basis_in (word_at s.now) front n j }
{
    Basis {
        p: limit_in(s, PENALTY_LIMIT_AT),
        r: limit_in(s, REWARD_LIMIT_AT),
        q: field(word_at(s, 0), 8, 20),
        criticality: criticality_in(s, front, j),
        present: bit_at(view_in(s, front, n), j),
        penalty: word_at(s, accounts_at(front, n) + j) % NUMBER,
    }
}

// Whether the penalty of module j + 1 is right.
pub fn penalty_right(s: &[u8], n: usize, j: usize) -> bool
    requires { (n ≤ 16) × (before_left (front_words false) n ≤ length s.now) × (j < n) }
    ensures { result ≡ counter_test penalties (word_at s.now) (front_words false) n j }
{
    let b = basis_in(s, 3, n, j);
    let w = word_at(s, accounts_at(3, n) + j);
    counter_of(13, j, w) & penalty_fits(b.p, b.criticality, b.present, w % NUMBER)
}

// Whether its reward is.
pub fn reward_right(s: &[u8], n: usize, j: usize) -> bool
    requires { (n ≤ 16) × (before_left (front_words false) n ≤ length s.now) × (j < n) }
    ensures { result ≡ counter_test rewards (word_at s.now) (front_words false) n j }
{
    let b = basis_in(s, 3, n, j);
    let w = word_at(s, rewards_at(3, n) + j);
    counter_of(14, j, w) & reward_fits(b.r, b.penalty, w % NUMBER)
}

// Whether its return count is, in either form.
pub fn return_right(s: &[u8], front: usize, n: usize, j: usize) -> bool
    requires { (front ≤ 6) × (n ≤ 16) × (before_left front n ≤ length s.now) × (2 < front) × (j < n) }
    ensures { result ≡ counter_test return_counts (word_at s.now) front n j }
{
    let b = basis_in(s, front, n, j);
    let w = word_at(s, returns_at(front, n) + j);
    counter_of(15, j, w) & return_fits(b.q, b.present, w % NUMBER)
}

// The counters in lent arrays, and whether their words are right, by what the words before them hold. A word's kind and number are tested with its
// counter, which is small where it fits; where a word is wrong the arrays hold nothing of use.
pub fn load_counters(
    s: &[u8],
    n: usize,
    q: u32,
    p: u32,
    limit: u32,
    criticality: &[u32; 16],
    view: u32,
    penalty: &mut [u32; 16],
    reward: &mut [u32; 16],
    returns: &mut [u32; 16],
) -> bool
    requires n_bound { (n ≤ 16) × (before_left (front_words false) n ≤ length s.now) }
    requires p_value { (p ≡ limit_in (word_at s.now penalty_limit_at)) × (limit ≡ limit_in (word_at s.now reward_limit_at)) × (view ≡ view_in (word_at s.now (own_at (front_words false) n)))
        × (criticality.now ≡ array n (λ j. criticality_in (word_at s.now (front_words false + j)))) × (q ≡ return_limit_in (word_at s.now head_at)) }
    requires p_le_most_penalty_limit { (p ≤ most_penalty_limit) × (limit ≤ most_reward_limit) × (q ≤ most_return_limit) }
    requires penalty_value { (penalty.old ≡ array 0 (λ _. 0)) × (reward.old ≡ array 0 (λ _. 0)) × (returns.old ≡ array 0 (λ _. 0)) }
    ensures { (result ≡ all_right (counter_tests false (word_at s.now) n))
        × (result ≡ true → (penalty.new ≡ values_in s.now (front_words false) n penalties) × (reward.new ≡ values_in s.now (front_words false) n rewards)
        × (returns.new ≡ values_in s.now (front_words false) n return_counts)) }
{
    let i = accounts_at(3, n);
    let k = rewards_at(3, n);
    let l = returns_at(3, n);
    let mut good = true;
    for j in 0..n {
        let x = gap(13, j, word_at(s, i + j));
        let y = gap(14, j, word_at(s, k + j));
        let z = gap(15, j, word_at(s, l + j));
        let present = bit_at(view, j);
        let a = penalty_fits(p, criticality[j], present, x);
        let b = reward_fits(limit, x, y);
        let c = return_fits(q, present, z);
        good = good & (a & (b & c));
        penalty[j] = x;
        reward[j] = y;
        returns[j] = z;
    }
    good
}

// The counters of a module that is opened.
pub fn zero_counters(view: u32) -> Counters
    ensures { result ≡ zero_counters view }
{
    let zeros = [0u32; 16];
    let score = [0.0; 16];
    Counters {
        view,
        penalty: zeros,
        reward: zeros,
        score,
        returns: zeros,
    }
}

// The word of a counter of module j + 1.
pub fn counter_word(kind: u32, j: usize, v: u32) -> u32
    requires { (kind < 16) × (j < 16) × (v < 2 ^ 23) }
    ensures { result ≡ counter_word kind j v }
{
    kind * KIND + (j as u32 + 1) * NUMBER + v
}

// Writes the counters, module by module.
pub fn save_counters(
    n: usize,
    penalty: &[u32; 16],
    reward: &[u32; 16],
    returns: &[u32; 16],
    out: &mut [u8],
)
    requires { (n ≤ 16) × (before_left (front_words false) n ≤ length out.old) × ((j : ℕ) → j < n → slice_index penalty.now j < number_unit)
        × ((j : ℕ) → j < n → slice_index reward.now j < number_unit) × ((j : ℕ) → j < n → slice_index returns.now j < number_unit) }
    ensures { out.new ≡ put_run (put_run (put_run out.old (accounts_at (front_words false) n) n (λ j. counter_word 13 j (slice_index penalty.now j)))
        (rewards_at (front_words false) n) n (λ j. counter_word 14 j (slice_index reward.now j))) (returns_at (front_words false) n) n (λ j. counter_word 15 j (slice_index returns.now j)) }
{
    let i = accounts_at(3, n);
    let k = rewards_at(3, n);
    let l = returns_at(3, n);
    for j in 0..n {
        put_word(out, i + j, counter_word(13, j, penalty[j]));
        put_word(out, k + j, counter_word(14, j, reward[j]));
        put_word(out, l + j, counter_word(15, j, returns[j]));
    }
}

// Whether every counter has room in its word, and nothing stands in what is not in use.
pub fn counters_roomy(fades: bool, n: usize, counters: Counters) -> bool
    ensures { result ≡ counters_roomy fades n counters }
{
    let penalty = counters.penalty;
    let reward = counters.reward;
    let returns = counters.returns;
    let score = counters.score;
    if fades {
        return (bounded(0, 0, penalty) & bounded(0, 0, reward))
            & (clear_doubles(n, score) & bounded(n, MOST, returns));
    }
    bounded(n, MOST, penalty)
        & (bounded(n, MOST, reward) & (bounded(n, MOST, returns) & clear_doubles(0, score)))
}
