// The check of a saved state in lent bytes: numbers 1 to 8 and 22, each with the index of the first word that is wrong.
ghost use Rattle.std.specs.Prelude.{◌≡◌, ◌*◌, ◌<◌, ◌≤◌, true, false, [], ◌∷◌, length, ◌==◌};
ghost use Rattle.words.specs.Word.{word_at};
ghost use Rattle.words.specs.Verdict.{outcome, single, first_refusal};
ghost use Rattle.words.specs.Refusal.{told};
ghost use Rattle.setup.specs.Layout.{front_words};
ghost use Rattle.setup.specs.Setup.{partitionable_in};
ghost use Rattle.image.specs.Layout.{own_at, left_at, before_left, image_length};
ghost use Rattle.image.specs.Words.{own_number_ok, own_ok, syndrome_ok};
ghost use Rattle.image.specs.Rows.{row_tests};
ghost use Rattle.image.specs.CounterSection.{section_test};
ghost use Rattle.image.specs.Returns.{return_counts};
ghost use Rattle.image.specs.Scores.{score_tests};
ghost use Rattle.image.specs.Counters.{penalties, rewards, counter_tests};
ghost use Rattle.image.specs.Check.{before_accounts, check_tail, image_size, found_size, check_image};

use crate::counters::{penalty_right, return_right, reward_right};
use crate::layout::{
    accounts_at, earlier_at, image_length, latest_at, left_at, own_at, returns_at, rewards_at,
    rows_at,
};
use crate::rows::row_right;
use crate::scores::half_right;
use crate::torn::check_any_views;
use crate::word::{own_number_ok, own_ok, syndrome_ok};
use changes::section::check_change;
use setup::bounds::{fades_at, front_words};
use setup::check::{check_head, check_words, size_at};
use setup::head_ok;
use words::bits::bit_at;
use words::check::{each, single};
use words::word::{KIND, word_at};
use words::{Number, Refusal};

// Numbers 7 and 8 of the word of the own number and the view.
fn check_own(s: &[u8], front: usize, n: usize) -> Result<(), Refusal>
    requires { (front ≤ 6) × (n ≤ 16) × (before_left front n ≤ length s.now) }
    ensures { told result
        ≡ first_refusal (single (own_number_ok n (word_at s.now (own_at front n))) 7 (own_at front n)
        ∷ single (own_ok n (word_at s.now (own_at front n))) 8 (own_at front n)
        ∷ []) }
{
    let at = own_at(front, n);
    let w = word_at(s, at);
    single(own_number_ok(n, w), Number::Own, at)?;
    single(own_ok(n, w), Number::Image, at)
}

// Number 8 at the first wrong row of the previous read.
fn check_rows(s: &[u8], front: usize, n: usize) -> Result<(), Refusal>
    requires { (front ≤ 6) × (n ≤ 16) × (before_left front n ≤ length s.now) }
    ensures { told result ≡ outcome (row_tests (word_at s.now) front n) }
{
    let at = rows_at(front, n);
    each(n, |j| row_right(s, front, n, j), Number::Image, at)
}

// Number 8 for a wrong syndrome.
fn check_syndrome(s: &[u8], front: usize, n: usize, at: usize) -> Result<(), Refusal>
    requires { (front ≤ 6) × (n ≤ 16) × (before_left front n ≤ length s.now) × (at < left_at front n) }
    ensures { told result ≡ outcome (single (syndrome_ok n (word_at s.now at)) 8 at) }
{
    single(syndrome_ok(n, word_at(s, at)), Number::Image, at)
}

// Numbers 7 and 8 of the words between those of the setup and the accounts, section by section.
fn check_sections(s: &[u8], front: usize, n: usize) -> Result<(), Refusal>
    requires { (front ≤ 6) × (n ≤ 16) × (before_left front n ≤ length s.now) }
    ensures { told result ≡ first_refusal (before_accounts (word_at s.now) front n) }
{
    check_own(s, front, n)?;
    check_rows(s, front, n)?;
    check_syndrome(s, front, n, latest_at(front, n))?;
    check_syndrome(s, front, n, earlier_at(front, n))
}

// Number 8 at the first wrong penalty.
fn check_penalties(s: &[u8], n: usize) -> Result<(), Refusal>
    requires { (n ≤ 16) × (before_left (front_words false) n ≤ length s.now) }
    ensures { told result ≡ outcome (section_test (word_at s.now) (front_words false) n penalties) }
{
    let at = accounts_at(3, n);
    each(n, |j| penalty_right(s, n, j), Number::Image, at)
}

// Number 8 at the first wrong reward.
fn check_rewards(s: &[u8], n: usize) -> Result<(), Refusal>
    requires { (n ≤ 16) × (before_left (front_words false) n ≤ length s.now) }
    ensures { told result ≡ outcome (section_test (word_at s.now) (front_words false) n rewards) }
{
    let at = rewards_at(3, n);
    each(n, |j| reward_right(s, n, j), Number::Image, at)
}

// Number 8 at the first wrong return count.
fn check_returns(s: &[u8], front: usize, n: usize) -> Result<(), Refusal>
    requires { (front ≤ 6) × (n ≤ 16) × (before_left front n ≤ length s.now) × (2 < front) }
    ensures { told result ≡ outcome (section_test (word_at s.now) front n return_counts) }
{
    let at = returns_at(front, n);
    each(n, |j| return_right(s, front, n, j), Number::Image, at)
}

// Number 8 at the first wrong score.
fn check_scores(s: &[u8], n: usize) -> Result<(), Refusal>
    requires { (n ≤ 16) × (before_left (front_words true) n ≤ length s.now) }
    ensures { told result ≡ outcome (score_tests (word_at s.now) (front_words true) n) }
{
    let at = accounts_at(6, n);
    each(n + n, |i| half_right(s, n, i), Number::Image, at)
}

// Number 8 for the counters of a setup that counts.
fn check_counters(s: &[u8], n: usize) -> Result<(), Refusal>
    requires { (n ≤ 16) × (before_left (front_words false) n ≤ length s.now) }
    ensures { told result ≡ first_refusal (counter_tests false (word_at s.now) n) }
{
    check_penalties(s, n)?;
    check_rewards(s, n)?;
    check_returns(s, 3, n)
}

// Number 8 for the accounts, of a setup that fades or counts.
fn check_accounts(s: &[u8], fades: bool, n: usize) -> Result<(), Refusal>
    requires { (n ≤ 16) × (before_left (front_words fades) n ≤ length s.now) }
    ensures { told result ≡ first_refusal (counter_tests fades (word_at s.now) n) }
{
    if fades {
        check_scores(s, n)?;
        return check_returns(s, 6, n);
    }
    check_counters(s, n)
}

// Numbers 7 and 8.
pub fn check_tail(s: &[u8], fades: bool, n: usize) -> Result<(), Refusal>
    requires { (n ≤ 16) × (length s.now ≡ image_length (front_words fades) n (word_at s.now (left_at (front_words fades) n)) (partitionable_in (word_at s.now 0))) }
    ensures { told result ≡ check_tail fades (word_at s.now) n }
{
    let front = front_words(fades);
    check_sections(s, front, n)?;
    check_accounts(s, fades, n)?;
    check_change(s, fades, n, left_at(front, n))?;
    check_any_views(s, front, n)
}

// Whether the length is the one that the rounds left and the head ask for.
fn length_right(s: &[u8], front: usize, n: usize) -> bool
    requires { (front ≤ 6) × (n ≤ 16) }
    ensures { result ≡ ((length s.now) == image_length front n (word_at s.now (left_at front n)) (partitionable_in (word_at s.now 0))) }
{
    let at = left_at(front, n);
    if s.len() < (at + 1) * 4 {
        return false;
    }
    let left = word_at(s, at);
    s.len() == image_length(front, n, left, bit_at(word_at(s, 0), 5))
}

// N where head and length are right. Only whether they are counts: a right length is a whole number of words.
pub fn image_size(s: &[u8]) -> Option<usize>
    ensures { result ≡ found_size (image_size s.now) }
{
    if s.len() < 8 {
        return None;
    }
    if !head_ok(word_at(s, 0)) {
        return None;
    }
    let n = size_at(s);
    if !length_right(s, front_words(word_at(s, 1) / KIND == 0), n) {
        return None;
    }
    Some(n)
}

// Numbers 1 to 8 and 22.
pub fn check_image(s: &[u8]) -> Result<(), Refusal>
    ensures { told result ≡ check_image s.now }
{
    check_head(s)?;
    let n = size_at(s);
    let fades = fades_at(s);
    let whole = length_right(s, front_words(fades), n);
    single(whole, Number::Length, 0)?;
    check_words(s, fades, n)?;
    check_tail(s, fades, n)
}
