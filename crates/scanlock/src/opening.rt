// The scan lock of a backplane of n modules, with a full view and nobody's lock.
ghost use Rattle.std.specs.Prelude.{◌≡◌, ◌≤◌};
ghost use Rattle.scanlock.specs.Locks.{fresh_locks, blank_locks, open_locks, event_told};

use crate::{Axis, Locks};
use words::Number;
use words::bits::full_of;

impl Locks {
    // Nothing told yet.
    fn fresh(n: u32) -> Locks
        requires { n ≤ 16 }
        ensures { result ≡ fresh_locks n }
    {
        Locks {
            n,
            view: full_of(n as usize),
            axes: [Axis::FREE; 8],
        }
    }

    // What is held where an opening or a reading is refused: no module is in its range.
    pub fn blank() -> Locks
        ensures { result ≡ blank_locks }
    {
        Locks {
            n: 0,
            view: 0,
            axes: [Axis::FREE; 8],
        }
    }

    // 2 for a number of modules that no backplane has.
    pub fn open(n: u32) -> Result<Locks, Number>
        ensures { event_told blank_locks result ≡ open_locks n }
    {
        if (2 <= n) & (n <= 16) {
            return Ok(Locks::fresh(n));
        }
        Err(Number::Head)
    }
}
