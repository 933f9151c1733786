// The view words of a read, and their alignment.
ghost use Rattle.std.specs.Prelude.{◌≡◌, cond, ◌+◌, ◌*◌, ◌≤◌, length, get_or, ltb};
ghost use Rattle.words.specs.Array.{array, replaced};
ghost use Rattle.views.specs.ViewWord.{read_words, views_read, views_seen};

use crate::word::view_heard;
use words::bits::{bit_at, pick};
use words::word::word_at;

// How many words a read has, of a setup with and without head bit 5.
pub fn read_words(partitionable: bool, n: usize) -> usize
    requires { n ≤ 16 }
    ensures { result ≡ read_words partitionable n }
{
    if partitionable {
        return n + n;
    }
    n
}

// The view words of a read of 2n words, in an array that is lent as zeros; 0 where one is missing.
pub(crate) fn read_views(n: usize, read: &[u8], controller: u32, this: &mut [u32; 16])
    requires { (n ≤ 16) × ((n + n) * 4 ≤ length read.now) × (this.old ≡ array 0 (λ _. 0)) }
    ensures { this.new ≡ views_read n read.now controller }
{
    for j in 0..n {
        let w = word_at(read, n + j);
        this[j] = pick(bit_at(controller, j) & view_heard(n, w), w, 0);
    }
}

// The view words of a read of any setup: without head bit 5 there are none.
pub fn views_seen(partitionable: bool, n: usize, read: &[u8], controller: u32) -> [u32; 16]
    requires { (n ≤ 16) × (read_words partitionable n * 4 ≤ length read.now) }
    ensures { result ≡ views_seen partitionable n read.now controller }
{
    if partitionable {
        let mut this = [0u32; 16];
        read_views(n, read, controller, &mut this);
        return this;
    }
    [0u32; 16]
}

// The view words of the round that is voted on, in `views`, which holds those of the previous read: below `split` they stay, the others are of this
// read. In their place, so that a step from C needs no third array, as the rows have one (`rules::align::aligned_entries`).
pub(crate) fn align_views(n: usize, split: u32, views: &mut [u32; 16], this: &[u32; 16])
    requires { n ≤ 16 }
    ensures { views.new ≡ replaced n (λ j. cond (ltb j split) (get_or views.old j 0) (get_or this.now j 0)) views.old }
{
    for j in 0..n {
        views[j] = pick((j as u32) < split, views[j], this[j]);
    }
}
