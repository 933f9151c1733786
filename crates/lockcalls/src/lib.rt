// A scan lock as nine words, and what C calls: an image is read, told an event and written. (document 02, E2)
#![tactic(auto)]

// What a call from C answers, in the form that the C interface needs: joystick is 1 if the joystick is live after the call, and 0 where it is not or
// the locks could not be read.
#[repr(C)]
#[derive(Clone, Copy, Debug, PartialEq, Eq)]
pub struct LockAnswer {
    pub number: u32,
    pub index: u32,
    pub joystick: u32,
}

mod check;
mod load;
pub mod lock_calls;
mod save;
mod word;

// For a caller in Rattle, who holds the locks themselves.
pub use load::read_locks;
pub use save::save_locks;
