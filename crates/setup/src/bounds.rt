// The limits of a setup, counts or fading: tested, read and written. (A module `limits` could not stand beside the enum `Limits`.)
ghost use Rattle.std.specs.Prelude.{◌≡◌, ◌*◌, ◌%◌, ◌<◌, ◌≤◌, true, false, length, slice_index};
ghost use Rattle.words.specs.Word.{word_at, kind_unit};
ghost use Rattle.words.specs.Verdict.{first_refusal, all_right};
ghost use Rattle.words.specs.Refusal.{told};
ghost use Rattle.words.specs.Runs.{put_run};
ghost use Rattle.setup.specs.Layout.{form_at, limit_words, front_words};
ghost use Rattle.setup.specs.Limits.{fades as fades_of, factor_fits, limit_fits};
ghost use Rattle.setup.specs.Setup.{fades_in, limits_in, limit_list};
ghost use Rattle.setup.specs.Check.{limit_tests, limit_room};

use crate::Limits;
use crate::layout::{
    FACTOR_AT, FORM_AT, MOST_PENALTY_LIMIT, MOST_REWARD_LIMIT, PENALTY_LIMIT_AT, REWARD_LIMIT_AT,
    SCORE_LIMIT_AT,
};
use crate::word::limit_ok;
use doubles::{double_at, is_double, is_non_negative, put_double};
use words::check::single;
use words::word::{KIND, put_word, word_at};
use words::{Number, Refusal};

// ---- which form

// Whether limits are those of fading scores.
pub fn fades(limits: Limits) -> bool
    ensures { result ≡ fades_of limits }
{
    match limits {
        Limits::Counts(_, _) => false,
        Limits::Fading(_, _) => true,
    }
}

// Whether the second word is of kind 0; where there is none, as if it were 0.
pub fn fades_at(s: &[u8]) -> bool
    requires { length s.now % 4 ≡ 0 }
    ensures { result ≡ fades_in (word_at s.now) }
{
    if s.len() < 8 {
        return true;
    }
    word_at(s, FORM_AT) / KIND == 0
}

// How many words stand before those of the modules.
pub fn front_words(fades: bool) -> usize
    ensures { (result ≡ front_words fades) × (3 ≤ result) × (result ≤ 6) }
{
    if fades {
        return 6;
    }
    3
}

// ---- tested

// A factor from 0.0 to 1.0, minus zero not among them.
pub fn factor_fits(x: f64) -> bool
    ensures { result ≡ factor_fits x }
{
    is_non_negative(x) & (x <= 1.0)
}

// A limit above 0.0 and at most 1,000,000.0.
pub fn limit_fits(x: f64) -> bool
    ensures { result ≡ limit_fits x }
{
    is_non_negative(x) & ((0.0 < x) & (x <= 1000000.0))
}

// Whether the words of P and R are right.
pub(crate) fn counts_right(s: &[u8]) -> bool
    requires { 12 ≤ length s.now }
    ensures { result ≡ all_right (limit_tests false (word_at s.now)) }
{
    limit_ok(2, MOST_PENALTY_LIMIT, word_at(s, PENALTY_LIMIT_AT))
        & limit_ok(3, MOST_REWARD_LIMIT, word_at(s, REWARD_LIMIT_AT))
}

// Whether the kind 0 word, the factor and the limit are right.
pub(crate) fn fading_right(s: &[u8]) -> bool
    requires { 24 ≤ length s.now }
    ensures { result ≡ all_right (limit_tests true (word_at s.now)) }
{
    (word_at(s, FORM_AT) == 0)
        & (factor_fits(double_at(s, FACTOR_AT)) & limit_fits(double_at(s, SCORE_LIMIT_AT)))
}

// Whether the limits are right, of a setup that fades or counts.
pub fn limits_right(s: &[u8], fades: bool) -> bool
    requires { front_words fades * 4 ≤ length s.now }
    ensures { result ≡ all_right (limit_tests fades (word_at s.now)) }
{
    if fades {
        return fading_right(s);
    }
    counts_right(s)
}

// Number 4.
fn check_counts(s: &[u8]) -> Result<(), Refusal>
    requires { 12 ≤ length s.now }
    ensures { told result ≡ first_refusal (limit_tests false (word_at s.now)) }
{
    let penalty = limit_ok(2, MOST_PENALTY_LIMIT, word_at(s, PENALTY_LIMIT_AT));
    single(penalty, Number::Limit, PENALTY_LIMIT_AT)?;
    let reward = limit_ok(3, MOST_REWARD_LIMIT, word_at(s, REWARD_LIMIT_AT));
    single(reward, Number::Limit, REWARD_LIMIT_AT)
}

// Number 22.
fn check_fading(s: &[u8]) -> Result<(), Refusal>
    requires { 24 ≤ length s.now }
    ensures { told result ≡ first_refusal (limit_tests true (word_at s.now)) }
{
    single(word_at(s, FORM_AT) == 0, Number::Fading, FORM_AT)?;
    let factor = factor_fits(double_at(s, FACTOR_AT));
    single(factor, Number::Fading, FACTOR_AT)?;
    let limit = limit_fits(double_at(s, SCORE_LIMIT_AT));
    single(limit, Number::Fading, SCORE_LIMIT_AT)
}

// Number 4 or 22, of a setup that counts or fades.
pub(crate) fn check_limits(s: &[u8], fades: bool) -> Result<(), Refusal>
    requires { front_words fades * 4 ≤ length s.now }
    ensures { told result ≡ first_refusal (limit_tests fades (word_at s.now)) }
{
    if fades {
        return check_fading(s);
    }
    check_counts(s)
}

// Number 4 for P or R without room in its word.
fn counts_room(p: u32, r: u32) -> Result<(), Refusal>
    ensures { told result ≡ first_refusal (limit_room (Limits.Counts p r)) }
{
    single(p < KIND, Number::Limit, PENALTY_LIMIT_AT)?;
    single(r < KIND, Number::Limit, REWARD_LIMIT_AT)
}

// Number 22 for what is no double, which no value of the code is.
fn fading_room(factor: f64, limit: f64) -> Result<(), Refusal>
    ensures { told result ≡ first_refusal (limit_room (Limits.Fading factor limit)) }
{
    single(is_double(factor), Number::Fading, FACTOR_AT)?;
    single(is_double(limit), Number::Fading, SCORE_LIMIT_AT)
}

// Whether limits have room in their words.
pub fn limits_room(limits: Limits) -> Result<(), Refusal>
    ensures { told result ≡ first_refusal (limit_room limits) }
{
    match limits {
        Limits::Counts(p, r) => counts_room(p, r),
        Limits::Fading(factor, limit) => fading_room(factor, limit),
    }
}

// ---- read and written

// The limits that the words hold, of a setup that fades or counts.
pub fn limits_at(s: &[u8], fades: bool) -> Limits
    requires { front_words fades * 4 ≤ length s.now }
    ensures { result ≡ limits_in fades (word_at s.now) }
{
    if fades {
        return Limits::Fading(double_at(s, FACTOR_AT), double_at(s, SCORE_LIMIT_AT));
    }
    Limits::Counts(
        word_at(s, PENALTY_LIMIT_AT) % KIND,
        word_at(s, REWARD_LIMIT_AT) % KIND,
    )
}

// Writes P and R.
fn put_counts(p: u32, r: u32, out: &mut [u8])
    requires { (p < kind_unit) × (r < kind_unit) × (12 ≤ length out.old) }
    ensures { out.new ≡ put_run out.old form_at (limit_words false) (λ i. slice_index (limit_list (Limits.Counts p r)) i) }
{
    put_word(out, PENALTY_LIMIT_AT, 2 * KIND + p);
    put_word(out, REWARD_LIMIT_AT, 3 * KIND + r);
}

// Writes the kind 0 word, the factor and the limit.
fn put_fading(factor: f64, limit: f64, out: &mut [u8])
    requires { 24 ≤ length out.old }
    ensures { out.new ≡ put_run out.old form_at (limit_words true) (λ i. slice_index (limit_list (Limits.Fading factor limit)) i) }
{
    put_word(out, FORM_AT, 0);
    put_double(out, FACTOR_AT, factor);
    put_double(out, SCORE_LIMIT_AT, limit);
}

// Writes limits that have room in their words.
pub(crate) fn put_limits(limits: Limits, out: &mut [u8])
    requires { ((first_refusal (limit_room limits)).number ≡ 0) × (front_words (fades_of limits) * 4 ≤ length out.old) }
    ensures { out.new ≡ put_run out.old form_at (limit_words (fades_of limits)) (λ i. slice_index (limit_list limits) i) }
{
    match limits {
        Limits::Counts(p, r) => put_counts(p, r, out),
        Limits::Fading(factor, limit) => put_fading(factor, limit, out),
    }
}
