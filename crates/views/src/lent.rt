// Views on lent arrays, from the words of one saved state to those of the next, as a step from C goes. The array and the numbers are handed on apart:
// with the struct `Views` in their place, lent, a step took 7 to 9 instructions more.
ghost use Rattle.std.specs.Prelude.{◌≡◌, true, cond, ◌+◌, ◌*◌, ◌^◌, ◌≤◌, ◌<◌, length, get_or, eqb, ltb};
ghost use Rattle.words.specs.Word.{word_at};
ghost use Rattle.words.specs.Bits.{full as full_of};
ghost use Rattle.words.specs.Array.{array};
ghost use Rattle.words.specs.Runs.{put_runs};
ghost use Rattle.views.specs.ViewWord.{views_read};
ghost use Rattle.views.specs.Views.{full_views, views_after};
ghost use Rattle.views.specs.Section.{views_in, view_runs};

use crate::Adopted;
use crate::read::{align_views, read_views};
use crate::word::view_word;
use words::array::filled;
use words::bits::flag;
use words::word::{put_word, word_at};

// The view words of a saved state, in an array that is lent as zeros.
pub(crate) fn load_view_words(s: &[u8], n: usize, at: usize, words: &mut [u32; 16])
    requires { (n ≤ 16) × (at < 2 ^ 16) × ((at + n) * 4 ≤ length s.now) × (words.old ≡ array 0 (λ _. 0)) }
    ensures { words.new ≡ array n (λ j. word_at s.now (at + j)) }
{
    for j in 0..n {
        words[j] = word_at(s, at + j);
    }
}

// The adopted view of a saved state, and whether the module is out.
pub(crate) fn adopted_at(s: &[u8], n: usize, at: usize) -> Adopted
    requires { (n ≤ 16) × (at < 2 ^ 16) × ((at + n + 4) * 4 ≤ length s.now) }
    ensures { (result.view ≡ word_at s.now (at + n + 2)) × (result.out ≡ eqb (word_at s.now (at + n + 3)) 1) }
{
    Adopted {
        view: word_at(s, at + n + 2),
        out: word_at(s, at + n + 3) == 1,
    }
}

// Writes the words of the views.
pub(crate) fn save_view_words(
    n: usize,
    words: &[u32; 16],
    latest: u32,
    earlier: u32,
    adopted: Adopted,
    out: &mut [u8],
    at: usize,
)
    requires { (n ≤ 16) × (at < 2 ^ 16) × ((at + n + 4) * 4 ≤ length out.old) }
    ensures { out.new
        ≡ put_runs out.old at (view_runs true n latest (record { words = words.entry.now; earlier = earlier; adopted = adopted.view; out = adopted.out })) }
{
    for j in 0..n {
        let w = words[j];
        put_word(out, at + j, w);
    }
    put_word(out, at + n, latest);
    put_word(out, at + n + 1, earlier);
    put_word(out, at + n + 2, adopted.view);
    put_word(out, at + n + 3, flag(adopted.out));
}

// Writes the words of full views, as at opening; `full` is the full view.
pub fn save_full(n: usize, full: u32, out: &mut [u8], at: usize)
    requires { (n ≤ 16) × (full ≡ full_of n) × (at < 2 ^ 16) × ((at + n + 4) * 4 ≤ length out.old) }
    ensures { out.new ≡ put_runs out.old at (view_runs true n full (full_views n)) }
{
    let words = filled(n, view_word(full));
    let adopted = Adopted {
        view: full,
        out: false,
    };
    save_view_words(n, &words, full, full, adopted, out, at);
}

// The views of a saved state, whose words stand from `at` on in s, after a step with this read, written from `to` on in `out`. `local` is the local view
// before the step, and `latest` the one after it.
pub fn agree(
    s: &[u8],
    n: usize,
    at: usize,
    split: u32,
    read: &[u8],
    controller: u32,
    local: u32,
    latest: u32,
    out: &mut [u8],
    to: usize,
)
    requires { (n ≤ 16) × (at < 2 ^ 16) × ((at + n + 4) * 4 ≤ length s.now) × ((n + n) * 4 ≤ length read.now)
        × (to < 2 ^ 16) × ((to + n + 4) * 4 ≤ length out.old) }
    ensures { out.new ≡ put_runs out.old to (view_runs true n latest
        (views_after n (views_in true s.now n at)
        (array n (λ j. cond (ltb j split) (get_or (views_in true s.now n at).words j 0) (get_or (views_read n read.now controller) j 0)))
        (views_read n read.now controller) local)) }
{
    let mut views = [0u32; 16];
    let mut this = [0u32; 16];
    load_view_words(s, n, at, &mut views);
    read_views(n, read, controller, &mut this);
    align_views(n, split, &mut views, &this);
    let adopted = adopted_at(s, n, at).after(n, &views);
    save_view_words(n, &this, latest, local, adopted, out, to);
}
