// Which views and axes there can be after some history. (specs/SoundLocks.antt)
ghost use Rattle.std.specs.Prelude.{◌≡◌, ◌^◌, ltb};
ghost use Rattle.scanlock.specs.SoundLocks.{held_well, axis_fits};

use crate::Axis;
use crate::on_axis::is_present;
use words::bits::power;

// Whether a view names no module above n.
pub fn view_fits(n: u32, view: u32) -> bool
    ensures { result ≡ ltb view (2 ^ n) }
{
    if n < 32 {
        return view < power(n as usize);
    }
    true
}

// Held by a module of the view, or by nobody.
fn held_well(view: u32, x: Axis) -> bool
    ensures { result ≡ held_well view x }
{
    if x.depth == 0 {
        return x.holder == 0;
    }
    is_present(view, x.holder)
}

// Whether a history can leave such an axis under this view.
pub fn axis_fits(view: u32, x: Axis) -> bool
    ensures { result ≡ axis_fits view x }
{
    (x.depth <= 8) & held_well(view, x) & (x.moving | !x.stopping)
}
