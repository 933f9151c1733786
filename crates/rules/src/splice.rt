// What is made of two reads: who is heard in the round that is voted on, and its rows.
ghost use Rattle.std.specs.Prelude.{◌≡◌, cond, ◌*◌, ◌≤◌, ◌<◌, length, get_or, ltb};
ghost use Rattle.words.specs.Bits.{bit, pack};
ghost use Rattle.words.specs.Array.{array, Filled};
ghost use Rattle.rules.specs.Hearing.{reading_of};

use crate::hearing::received;
use words::bits::{pick, power, with_bit};

// Who is heard: the low `split` bits by the previous read, the others by this one.
pub fn aligned_heard(n: usize, split: u32, previous: u32, this: u32) -> u32
    requires { (n ≤ 16) × (split < 31) }
    ensures { result ≡ pack n (λ j. cond (ltb j split) (bit previous j) (bit this j)) }
{
    let size = power(n);
    let low = power(split as usize);
    (previous % low + this % size / low * low) % size
}

// All modules of a read, their rows in `this`; and in `rows`, which holds those of the previous read, the rows of the round that is voted on: below
// `split` they stay, the others are of this read. The answer is who is heard. (Rules 2 and 3 in one pass, so
// that a step has no array between.)
pub fn read_aligned(
    n: usize,
    read: &[u8],
    controller: u32,
    split: u32,
    rows: &mut [u32; 16],
    this: &mut [u32; 16],
) -> u32
    requires { (n ≤ 16) × (n * 4 ≤ length read.now) × Filled n rows.old × (this.old ≡ array 0 (λ _. 0)) }
    ensures { (result ≡ (reading_of n read.now controller).heard)
        × (this.new ≡ (reading_of n read.now controller).rows)
        × (rows.new ≡ array n (λ j. cond (ltb j split) (get_or rows.old j 0) (get_or (reading_of n read.now controller).rows j 0))) }
{
    let mut heard: u32 = 0;
    for j in 0..n {
        let r = received(n, read, controller, j);
        let row = r.unwrap_or(0);
        heard = with_bit(heard, j, r.is_ok());
        this[j] = row;
        rows[j] = pick((j as u32) < split, rows[j], row);
    }
    heard
}
