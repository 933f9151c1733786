// The words of the views at the end of a saved state: tested, read and written. They stand from `at` on.
ghost use Rattle.std.specs.Prelude.{◌≡◌, true, ◌+◌, ◌*◌, ◌^◌, ◌≤◌, ◌<◌, length};
ghost use Rattle.words.specs.Word.{word_at};
ghost use Rattle.words.specs.Verdict.{each, outcome, first_refusal, all_right};
ghost use Rattle.words.specs.Refusal.{told};
ghost use Rattle.words.specs.Runs.{put_runs};
ghost use Rattle.views.specs.Section.{views_count, view_ok, view_tests, views_in, view_runs, views_roomy};

use crate::lent::{adopted_at, load_view_words, save_view_words};
use crate::word::view_heard;
use crate::{Adopted, Views};
use words::array::bounded;
use words::bits::power;
use words::check::{each, single};
use words::word::word_at;
use words::{Number, Refusal};

// The most that a word holds, and one more than a vector does.
const MOST_WORD: u32 = 4294967295;

const VECTOR: u32 = 65536;

// How many words the views have, of a setup with and without head bit 5.
pub fn views_count(partitionable: bool, n: usize) -> usize
    requires { n ≤ 16 }
    ensures { result ≡ views_count partitionable n }
{
    if partitionable {
        return n + 4;
    }
    0
}

// ---- tested

// Whether a view word is 0, or one that is heard.
fn view_ok(n: usize, w: u32) -> bool
    requires { n ≤ 16 }
    ensures { result ≡ view_ok n w }
{
    (w == 0) | view_heard(n, w)
}

// Number 8 at the first view word that is wrong.
fn check_view_words(s: &[u8], n: usize, at: usize) -> Result<(), Refusal>
    requires { (n ≤ 16) × (at < 2 ^ 16) × ((at + n) * 4 ≤ length s.now) }
    ensures { told result ≡ outcome (each n (λ j. view_ok n (word_at s.now (at + j))) 8 at) }
{
    each(n, |j| view_ok(n, word_at(s, at + j)), Number::Image, at)
}

// Number 8; `view` is that of the kind 10 word.
pub fn check_views(s: &[u8], n: usize, view: u32, at: usize) -> Result<(), Refusal>
    requires { (n ≤ 16) × (at < 2 ^ 16) × ((at + n + 4) * 4 ≤ length s.now) }
    ensures { told result ≡ first_refusal (view_tests true (word_at s.now) n view at) }
{
    let size = power(n);
    check_view_words(s, n, at)?;
    single(word_at(s, at + n) == view, Number::Image, at + n)?;
    single(word_at(s, at + n + 1) < size, Number::Image, at + n + 1)?;
    single(word_at(s, at + n + 2) < size, Number::Image, at + n + 2)?;
    single(word_at(s, at + n + 3) <= 1, Number::Image, at + n + 3)
}

// Whether every word is right, in one pass.
pub fn views_right(s: &[u8], n: usize, view: u32, at: usize) -> bool
    requires { (n ≤ 16) × (at < 2 ^ 16) × ((at + n + 4) * 4 ≤ length s.now) }
    ensures { result ≡ all_right (view_tests true (word_at s.now) n view at) }
{
    let size = power(n);
    let mut good = true;
    for j in 0..n {
        good = good & view_ok(n, word_at(s, at + j));
    }
    let latest = word_at(s, at + n) == view;
    let earlier = word_at(s, at + n + 1) < size;
    let adopted = word_at(s, at + n + 2) < size;
    let last = word_at(s, at + n + 3) <= 1;
    good & (latest & (earlier & (adopted & last)))
}

// ---- read

// The views, whatever their words are.
pub fn load_views(s: &[u8], n: usize, at: usize) -> Views
    requires { (n ≤ 16) × (at < 2 ^ 16) × ((at + n + 4) * 4 ≤ length s.now) }
    ensures { result ≡ views_in true s.now n at }
{
    let mut words = [0u32; 16];
    load_view_words(s, n, at, &mut words);
    let adopted = adopted_at(s, n, at);
    Views {
        words,
        earlier: word_at(s, at + n + 1),
        adopted: adopted.view,
        out: adopted.out,
    }
}

// ---- written

// Writes the views; `latest` is the local view.
pub fn save_views(n: usize, latest: u32, views: &Views, out: &mut [u8], at: usize)
    requires { (n ≤ 16) × (at < 2 ^ 16) × ((at + n + 4) * 4 ≤ length out.old) }
    ensures { out.new ≡ put_runs out.old at (view_runs true n latest views.now) }
{
    let adopted = Adopted {
        view: views.adopted,
        out: views.out,
    };
    save_view_words(n, &views.words, latest, views.earlier, adopted, out, at);
}

// Whether the views have room in their words, and nothing stands in what no word shows.
pub fn views_roomy(partitionable: bool, n: usize, views: Views) -> bool
    requires { n ≤ 16 }
    ensures { result ≡ views_roomy partitionable n views }
{
    let words = views.words;
    if partitionable {
        return bounded(n, MOST_WORD, words) & ((views.earlier < VECTOR) & (views.adopted < VECTOR));
    }
    bounded(0, 0, words) & (((views.earlier == 0) & (views.adopted == 0)) & !views.out)
}
