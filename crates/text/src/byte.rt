// Bytes as they are.
ghost use Rattle.std.specs.Prelude.{◌≡◌, ◌+◌, ◌≤◌, ◌++◌, length};
ghost use Rattle.arrayvec.specs.ArrayVec.{array_vec_len};

use arrayvec::ArrayVec;

// Adds the bytes of `text`, for which there must be room.
pub fn put_text<const N: usize>(out: &mut ArrayVec<u8, N>, text: &[u8])
    requires { array_vec_len out.old + length text.now ≤ N }
    ensures { (out.new.items ≡ out.old.items ++ text.now) × (array_vec_len out.new ≡ array_vec_len out.old + length text.now) }
{
    let _fits = out.try_extend_from_slice(text);
}
