// The words of a pending change at the end of a saved state: tested, read and written. The word of the rounds left stands at `at`.
ghost use Rattle.std.specs.Prelude.{◌≡◌, true, ℕ, ◌+◌, ◌*◌, ◌^◌, ◌≤◌, ◌<◌, length, get_or};
ghost use Rattle.words.specs.Word.{word_at};
ghost use Rattle.words.specs.Array.{array};
ghost use Rattle.words.specs.Verdict.{each, outcome, first_refusal};
ghost use Rattle.words.specs.Refusal.{told};
ghost use Rattle.words.specs.Runs.{put_run, put_runs};
ghost use Rattle.setup.specs.Setup.{criticality_in};
ghost use Rattle.changes.specs.Pending.{pending_roomy};
ghost use Rattle.changes.specs.Words.{new_count, left_ok, new_module_ok, new_test, change_tests, pending_in, new_word, change_runs};

use crate::Pending;
use crate::change::nothing;
use crate::frame::MOST_LEAD;
use crate::lent::load_criticality;
use setup::layout::{MOST_CRITICALITY, MOST_PENALTY_LIMIT, MOST_REWARD_LIMIT, PLACE};
use setup::write::module_word;
use setup::{Setup, limit_ok};
use words::bits::bit_at;
use words::check::{each, single};
use words::word::{KIND, put_word, word_at};
use words::{Number, Refusal};

// How many new words follow the rounds left.
pub fn new_count(n: usize, left: u32) -> usize
    requires { n ≤ 16 }
    ensures { result ≡ new_count n left }
{
    if left == 0 {
        return 0;
    }
    n + 2
}

// ---- tested

// At most 1,000 rounds left, and none where the setup fades.
fn left_ok(fades: bool, left: u32) -> bool
    ensures { result ≡ left_ok fades left }
{
    (left <= MOST_LEAD) & (!fades | (left == 0))
}

// Whether a new module word is the setup's own word but for a criticality in range.
fn new_module_ok(own: u32, new: u32) -> bool
    ensures { result ≡ new_module_ok own new }
{
    (new / PLACE == own / PLACE) & ((1 <= new % PLACE) & (new % PLACE <= MOST_CRITICALITY))
}

// Whether new word i is right.
fn new_right(s: &[u8], at: usize, i: usize) -> bool
    requires { (at < 2 ^ 16) × (i < 18) × ((at + 2 + i) * 4 ≤ length s.now) }
    ensures { result ≡ new_test (word_at s.now) at i }
{
    let w = word_at(s, at + 1 + i);
    if i == 0 {
        return limit_ok(2, MOST_PENALTY_LIMIT, w);
    }
    if i == 1 {
        return limit_ok(3, MOST_REWARD_LIMIT, w);
    }
    new_module_ok(word_at(s, 1 + i), w)
}

// Number 8 at the first of so many new words that is wrong.
fn check_new(s: &[u8], many: usize, at: usize) -> Result<(), Refusal>
    requires { (many ≤ 18) × (at < 2 ^ 16) × ((at + 1 + many) * 4 ≤ length s.now) }
    ensures { told result ≡ outcome (each many (new_test (word_at s.now) at) 8 (at + 1)) }
{
    each(many, |i| new_right(s, at, i), Number::Image, at + 1)
}

// Number 8.
pub fn check_change(s: &[u8], fades: bool, n: usize, at: usize) -> Result<(), Refusal>
    requires { (n ≤ 16) × (at < 2 ^ 16) × ((at + 1 + new_count n (word_at s.now at)) * 4 ≤ length s.now) }
    ensures { told result ≡ first_refusal (change_tests fades (word_at s.now) n at) }
{
    let left = word_at(s, at);
    single(left_ok(fades, left), Number::Image, at)?;
    check_new(s, new_count(n, left), at)
}

// ---- read

// The pending change, whatever its words are.
pub fn load_change(s: &[u8], n: usize, at: usize) -> Pending
    requires { (n ≤ 16) × (at < 2 ^ 16) × ((at + 1 + new_count n (word_at s.now at)) * 4 ≤ length s.now) }
    ensures { result ≡ pending_in s.now n at }
{
    let left = word_at(s, at);
    if left == 0 {
        return nothing();
    }
    let mut criticality = [0u32; 16];
    load_criticality(s, n, at, &mut criticality);
    Pending {
        left,
        p: word_at(s, at + 1) % KIND,
        r: word_at(s, at + 2) % KIND,
        criticality,
    }
}

// ---- written

// New word i.
fn new_word(setup: Setup, pending: Pending, i: usize) -> u32
    requires n_bound { (setup.n ≤ 16) × (i < setup.n + 2) × (pending.p < 2 ^ 28) × (pending.r < 2 ^ 28) }
    requires by_index { (j : ℕ) → j < setup.n → (get_or setup.places j 0 < 2 ^ 5) × (get_or pending.criticality j 0 < 2 ^ 17) }
    ensures { result ≡ new_word setup pending i }
{
    if i == 0 {
        return 2 * KIND + pending.p;
    }
    if i == 1 {
        return 3 * KIND + pending.r;
    }
    let j = i - 2;
    module_word(
        j,
        bit_at(setup.marks, j),
        setup.places[j],
        pending.criticality[j],
    )
}

// Writes the rounds left, and the new words where they are not 0.
pub fn save_change(setup: Setup, pending: Pending, out: &mut [u8], at: usize)
    requires n_bound { (setup.n ≤ 16) × (pending_roomy setup.n pending ≡ true) × (at < 2 ^ 16)
        × ((at + 1 + new_count setup.n pending.left) * 4 ≤ length out.old) }
    requires by_index { (j : ℕ) → j < setup.n → get_or setup.places j 0 < 2 ^ 5 }
    ensures { out.new ≡ put_runs out.old at (change_runs setup pending) }
{
    let many = new_count(setup.n, pending.left);
    put_word(out, at, pending.left);
    for i in 0..many {
        let w = new_word(setup, pending, i);
        put_word(out, at + 1 + i, w);
    }
}
