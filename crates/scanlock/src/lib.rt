// The scan lock of a stage, above the presence service: which module holds which axis, which moves are unfinished, and whether
// the joystick is live. (document 02, E2)
//
// It relies on one thing that the presence library states, the view after an accepted step (after_step.rt). A module is 1..N, an axis 1..8;
// the entry of axis a stands at a - 1.
#![tactic(auto)]

mod after_step;
mod events;
mod fits;
mod joystick;
mod on_axis;
mod opening;

// What the words of a saved scan lock are tested by.
pub use fits::{axis_fits, view_fits};

// What the scan lock is told: the view after a step; begin, end, start of a move and abort, by module and axis; the axis's reports
// that its move is finished or that it has stopped.
#[derive(Clone, Copy, Debug, PartialEq, Eq)]
pub enum Event {
    View(u32),
    Begin(u32, u32),
    End(u32, u32),
    Start(u32, u32),
    Abort(u32, u32),
    Finished(u32),
    Stopped(u32),
}

// One axis: the module that holds it (0 for none) and how deep, whether a move is unfinished, and whether it is stopping.
#[derive(Clone, Copy, Debug, PartialEq, Eq)]
pub struct Axis {
    pub holder: u32,
    pub depth: u32,
    pub moving: bool,
    pub stopping: bool,
}

// All that is held from event to event: how many modules there are, the view handed last, and the axes.
#[derive(Clone, Copy, Debug, PartialEq, Eq)]
pub struct Locks {
    pub n: u32,
    pub view: u32,
    pub axes: [Axis; 8],
}
