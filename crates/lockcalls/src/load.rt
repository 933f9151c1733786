// Reading a saved scan lock.
ghost use Rattle.std.specs.Prelude.{◌≡◌, length};
ghost use Rattle.lockcalls.specs.LockImage.{axes_in, locks_of, read_locks, locks_told};

use crate::check::check_lock;
use crate::word::{VIEW, axis_in};
use scanlock::{Axis, Locks};
use words::Refusal;
use words::word::word_at;

// The eight axes of an image.
fn axes_in(image: &[u8]) -> [Axis; 8]
    requires { length image.now ≡ 36 }
    ensures { result ≡ axes_in image.now }
{
    let mut axes = Locks::blank().axes;
    for i in 0..8 {
        axes[i] = axis_in(word_at(image, i + 1));
    }
    axes
}

// The locks of an image that was accepted.
pub fn locks_in(image: &[u8]) -> Locks
    requires { length image.now ≡ 36 }
    ensures { result ≡ locks_of image.now }
{
    let head = word_at(image, 0);
    Locks {
        n: head / VIEW,
        view: head % VIEW,
        axes: axes_in(image),
    }
}

// Numbers 1, 2, 3 and 8, and the locks where none of them refuses the image.
pub fn read_locks(image: &[u8]) -> Result<Locks, Refusal>
    ensures { locks_told result ≡ read_locks image.now }
{
    check_lock(image)?;
    Ok(locks_in(image))
}
