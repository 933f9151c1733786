// Numbers in decimal.
ghost use Rattle.std.specs.Prelude.{◌≡◌, ◌+◌, ◌≤◌, ◌++◌, length};
ghost use Rattle.arrayvec.specs.ArrayVec.{array_vec_len};
ghost use Rattle.text.specs.Text.{decimal};

use crate::byte::put_text;
use arrayvec::ArrayVec;
use itoa::Buffer;

// Adds v in decimal. (Not by `write!`, whose contract says what it writes where it succeeds, and not that it does.)
pub fn put_number<const N: usize>(out: &mut ArrayVec<u8, N>, v: u32)
    requires { array_vec_len out.old + length (decimal v) ≤ N }
    ensures { (out.new.items ≡ out.old.items ++ decimal v) × (array_vec_len out.new ≡ array_vec_len out.old + length (decimal v)) }
{
    let mut digits = Buffer::new();
    put_text(out, digits.format(v).as_bytes());
}
