// The views of a partitionable setup, which stand at the end of a saved state: tested, where there are any.
ghost use Rattle.std.specs.Prelude.{◌≡◌, ◌≤◌, length};
ghost use Rattle.words.specs.Word.{word_at};
ghost use Rattle.words.specs.Verdict.{first_refusal, all_right};
ghost use Rattle.words.specs.Refusal.{told};
ghost use Rattle.setup.specs.Setup.{partitionable_in};
ghost use Rattle.views.specs.Section.{view_tests};
ghost use Rattle.image.specs.Layout.{own_at, left_at, views_at, image_length};
ghost use Rattle.image.specs.Words.{view_in};

use crate::layout::{left_at, views_at};
use crate::read::view_in;
use views::section::{check_views, views_right};
use words::Refusal;
use words::bits::bit_at;
use words::word::word_at;

// Number 8 for the views, of a setup that has them.
pub(crate) fn check_any_views(s: &[u8], front: usize, n: usize) -> Result<(), Refusal>
    requires { (front ≤ 6) × (n ≤ 16) × (length s.now ≡ image_length front n (word_at s.now (left_at front n)) (partitionable_in (word_at s.now 0))) }
    ensures { told result ≡ first_refusal (view_tests (partitionable_in (word_at s.now 0)) (word_at s.now) n
        (view_in (word_at s.now (own_at front n))) (views_at front n (word_at s.now (left_at front n)))) }
{
    if !bit_at(word_at(s, 0), 5) {
        return Ok(());
    }
    let view = view_in(s, front, n);
    let left = word_at(s, left_at(front, n));
    check_views(s, n, view, views_at(front, n, left))
}

// Whether the views are right, by head bit 5, the view and the rounds left that were read.
pub fn views_good(
    s: &[u8],
    partitionable: bool,
    front: usize,
    n: usize,
    view: u32,
    left: u32,
) -> bool
    requires { (front ≤ 6) × (n ≤ 16) × (length s.now ≡ image_length front n left partitionable) }
    ensures { result ≡ all_right (view_tests partitionable (word_at s.now) n view (views_at front n left)) }
{
    if !partitionable {
        return true;
    }
    views_right(s, n, view, views_at(front, n, left))
}
