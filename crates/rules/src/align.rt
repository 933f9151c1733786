// Rule 3: read alignment.
ghost use Rattle.std.specs.Prelude.{◌≡◌, cond, ◌≤◌, ◌<◌, ltb, get_or};
ghost use Rattle.words.specs.Array.{array};
ghost use Rattle.rules.specs.Alignment.{aligned_of};

use crate::Reading;
use crate::splice::aligned_heard;
use words::array::from_fn;
use words::bits::pick;

// The entries of the round that is voted on, rows or view words: below `split` those of the previous read, the others of this one.
fn aligned_entries(n: usize, split: u32, previous: &[u32; 16], this: &[u32; 16]) -> [u32; 16]
    requires { n ≤ 16 }
    ensures { result ≡ array n (λ j. cond (ltb j split) (get_or previous.now j 0) (get_or this.now j 0)) }
{
    from_fn(n, |j| pick((j as u32) < split, previous[j], this[j]))
}

// Who is heard and the rows in that round: below the read place from the previous read, if reads are skewed.
pub fn aligned(n: usize, skew: bool, place: u32, previous: Reading, this: Reading) -> Reading
    requires { (n ≤ 16) × (place < 31) }
    ensures { result ≡ aligned_of n skew place previous this }
{
    let split = pick(skew, place, 0);
    Reading {
        heard: aligned_heard(n, split, previous.heard, this.heard),
        rows: aligned_entries(n, split, &previous.rows, &this.rows),
    }
}
