// The joystick is live exactly while nobody holds an axis and none is stopping.
ghost use Rattle.std.specs.Prelude.{◌≡◌};
ghost use Rattle.scanlock.specs.Locks.{joystick_of};

use crate::Locks;

impl Locks {
    // Asks every axis.
    pub fn joystick(self) -> bool
        ensures { result ≡ joystick_of self }
    {
        self.axes.iter().all(|x| x.is_idle())
    }
}
