// Bit vectors, bit 0 leftmost.
ghost use Rattle.std.specs.Prelude.{◌≡◌, ◌+◌, ◌≤◌, ◌<◌, ◌++◌};
ghost use Rattle.arrayvec.specs.ArrayVec.{array_vec_len};
ghost use Rattle.words.specs.Bits.{b2n, bit};
ghost use Rattle.text.specs.Text.{vector};

use arrayvec::ArrayVec;
use words::bits::{bit_at, flag};

// Bit j of v as a digit.
fn digit(v: u32, j: usize) -> u8
    requires { j < 32 }
    ensures { result ≡ 48 + b2n (bit v j) }
{
    (48 + flag(bit_at(v, j))) as u8
}

// Adds the first n bits of v.
pub fn put_vector<const N: usize>(out: &mut ArrayVec<u8, N>, n: usize, v: u32)
    requires { (n ≤ 32) × (array_vec_len out.old + n ≤ N) }
    ensures { (out.new.items ≡ out.old.items ++ vector n v) × (array_vec_len out.new ≡ array_vec_len out.old + n) }
{
    for j in 0..n {
        out.push(digit(v, j));
    }
}
