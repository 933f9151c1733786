// The words of a saved scan lock: a head, then one word for each axis.
ghost use Rattle.std.specs.Prelude.{◌≡◌};
ghost use Rattle.lockcalls.specs.LockImage.{lock_head, lock_head_ok, axis_word, axis_in, axis_ok};

use scanlock::{Axis, axis_fits, view_fits};
use words::bits::flag;

// 2^16: N of the head is head / VIEW, and the view head % VIEW.
pub const VIEW: u32 = 65536;

// The head: N and the view.
pub fn head_word(n: u32, view: u32) -> u32
    ensures { result ≡ lock_head n view }
{
    n % VIEW * VIEW + view % VIEW
}

// Whether a word is a head: N is 2..16, and the view names no module above it.
pub fn head_ok(w: u32) -> bool
    ensures { result ≡ lock_head_ok w }
{
    let n = w / VIEW;
    (2 <= n) & (n <= 16) & view_fits(n, w % VIEW)
}

// The axis of a word, whatever its other bits are. (`From` both ways would have to stand in `scanlock`, which knows no words.)
pub fn axis_in(w: u32) -> Axis
    ensures { result ≡ axis_in w }
{
    Axis {
        holder: w / 256 % 32,
        depth: w / 16 % 16,
        moving: w / 2 % 2 == 1,
        stopping: w % 2 == 1,
    }
}

// The word of an axis.
pub fn axis_word(x: Axis) -> u32
    ensures { result ≡ axis_word x }
{
    x.holder % 32 * 256 + x.depth % 16 * 16 + flag(x.moving) * 2 + flag(x.stopping)
}

// Whether a word is an axis's, in its one form.
pub fn axis_ok(view: u32, w: u32) -> bool
    ensures { result ≡ axis_ok view w }
{
    let x = axis_in(w);
    (axis_word(x) == w) & axis_fits(view, x)
}
