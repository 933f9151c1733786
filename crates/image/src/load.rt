// Reading an image in one pass: what a step needs of it, and whether all its words are right.
ghost use Rattle.std.specs.Prelude.{◌≡◌, ◌+◌, ◌≤◌, true, false, length};
ghost use Rattle.words.specs.Word.{word_at};
ghost use Rattle.words.specs.Array.{array};
ghost use Rattle.words.specs.Verdict.{all_right};
ghost use Rattle.setup.specs.Layout.{head_at, front_words};
ghost use Rattle.setup.specs.Limits.{most_return_limit, fades as fades_of};
ghost use Rattle.setup.specs.Setup.{size_in, partitionable_in, return_limit_in, criticality_in, fades_in, limits_in};
ghost use Rattle.setup.specs.Check.{limit_tests};
ghost use Rattle.image.specs.Layout.{own_at, left_at, before_left, image_length};
ghost use Rattle.image.specs.Words.{view_in};
ghost use Rattle.image.specs.CounterSection.{values_in};
ghost use Rattle.image.specs.Returns.{return_counts};
ghost use Rattle.image.specs.Counters.{counter_tests};
ghost use Rattle.image.specs.Part.{first_in, second_in, PartOf};
ghost use Rattle.image.specs.Check.{image_tests};

use crate::ImagePart;
use crate::counters::load_counters;
use crate::layout::left_at;
use crate::read::load_words;
use crate::rows::load_rows;
use crate::scores::load_scores;
use crate::torn::views_good;
use changes::section::check_change;
use setup::Limits;
use setup::bounds::{front_words, limits_at, limits_right};
use setup::modules::load_modules;
use words::bits::bit_at;
use words::word::{field, word_at};

// The accounts in three lent arrays, and whether their words are right: by counts the penalties, the rewards and the return counts, by scores their high
// halves, their low halves and the return counts. The limits are right, since the accounts are tested by them.
pub fn load_accounts(
    s: &[u8],
    limits: Limits,
    n: usize,
    q: u32,
    criticality: &[u32; 16],
    view: u32,
    first: &mut [u32; 16],
    second: &mut [u32; 16],
    returns: &mut [u32; 16],
) -> bool
    requires n_bound { (n ≤ 16) × (before_left (front_words (fades_of limits)) n ≤ length s.now) × (limits ≡ limits_in (fades_of limits) (word_at s.now))
        × (all_right (limit_tests (fades_of limits) (word_at s.now)) ≡ true) × (q ≡ return_limit_in (word_at s.now head_at)) × (q ≤ most_return_limit)
        × (criticality.now ≡ array n (λ j. criticality_in (word_at s.now (front_words (fades_of limits) + j))))
        × (view ≡ view_in (word_at s.now (own_at (front_words (fades_of limits)) n))) }
    requires first_value { (first.old ≡ array 0 (λ _. 0)) × (second.old ≡ array 0 (λ _. 0)) × (returns.old ≡ array 0 (λ _. 0)) }
    ensures { (result ≡ all_right (counter_tests (fades_of limits) (word_at s.now) n))
        × (result ≡ true → (first.new ≡ first_in (fades_of limits) s.now n) × (second.new ≡ second_in (fades_of limits) s.now n)
        × (returns.new ≡ values_in s.now (front_words (fades_of limits)) n return_counts)) }
{
    match limits {
        Limits::Counts(p, r) => {
            load_counters(s, n, q, p, r, criticality, view, first, second, returns)
        }
        Limits::Fading(_, limit) => load_scores(s, n, q, limit, view, first, second, returns),
    }
}

// Nothing of use, of an image whose words are wrong.
fn no_part() -> ImagePart
    ensures { result.good ≡ false }
{
    ImagePart {
        good: false,
        skew: false,
        q: 0,
        limits: Limits::Counts(0, 0),
        own: 0,
        view: 0,
        heard: 0,
        latest: 0,
        earlier: 0,
        left: 0,
    }
}

// An image whose head and length are right: whether all its words are, and then what they hold, the arrays lent as zeros. The limits are tested before
// the accounts, which are tested by them.
pub fn load_image(
    s: &[u8],
    fades: bool,
    n: usize,
    criticality: &mut [u32; 16],
    rows: &mut [u32; 16],
    first: &mut [u32; 16],
    second: &mut [u32; 16],
    returns: &mut [u32; 16],
) -> ImagePart
    requires n_bound { (n ≤ 16) × (length s.now ≡ image_length (front_words fades) n (word_at s.now (left_at (front_words fades) n)) (partitionable_in (word_at s.now 0))) × (n ≡ size_in (word_at s.now 0)) × (fades ≡ fades_in (word_at s.now))
        × (return_limit_in (word_at s.now 0) ≤ most_return_limit) }
    requires criticality_value { (criticality.old ≡ array 0 (λ _. 0)) × (rows.old ≡ array 0 (λ _. 0)) × (first.old ≡ array 0 (λ _. 0)) × (second.old ≡ array 0 (λ _. 0))
        × (returns.old ≡ array 0 (λ _. 0)) }
    ensures { (result.good ≡ all_right (image_tests s.now n))
        × (result.good ≡ true → PartOf s.now fades n result criticality.new rows.new first.new second.new returns.new) }
{
    let head = word_at(s, 0);
    let q = field(head, 8, 20);
    let front = front_words(fades);
    let modules = load_modules(s, front, n, criticality);
    let alone = load_words(s, front, n);
    let at = left_at(front, n);
    let left = word_at(s, at);
    let change = check_change(s, fades, n, at).is_ok();
    let views = views_good(s, bit_at(head, 5), front, n, alone.view, left);
    let read = load_rows(s, front, n, rows);
    if !limits_right(s, fades) {
        return no_part();
    }
    let limits = limits_at(s, fades);
    let right = load_accounts(
        s,
        limits,
        n,
        q,
        criticality,
        alone.view,
        first,
        second,
        returns,
    );
    ImagePart {
        good: modules.good & (alone.good & (read.good & (right & (change & views)))),
        skew: modules.skew,
        q,
        limits,
        own: alone.own,
        view: alone.view,
        heard: read.heard,
        latest: alone.latest,
        earlier: alone.earlier,
        left,
    }
}
