// One method for each event, and one for any event. (document 02, E2)
// The checks in their order: 19 for an axis or module out of range or a module not in the view, then 20 and 21 by the axis.
// A refusal changes nothing.
ghost use Rattle.std.specs.Prelude.{◌≡◌, ◌<◌, ℕ, Bool, Option, Some, Result, cond};
ghost use Rattle.scanlock.specs.Axis.{AxisAnswer, axis_told, on_axis};
ghost use Rattle.scanlock.specs.Locks.{index_of, admits, axis_at, seen_axes, event_told, refused_of, settled_of, set_view_of, begin_of, end_of, start_move_of, abort_of, finished_by, stopped_by, event_of};

use crate::fits::view_fits;
use crate::on_axis::is_present;
use crate::{Axis, Event, Locks};
use words::Number;

// Each axis under a view: whoever is not in it loses its locks. By index, since an array's `map` copies them all once more, in a call from C too.
fn seen_axes(axes: [Axis; 8], view: u32) -> [Axis; 8]
    ensures { result ≡ seen_axes view axes }
{
    let mut next = axes;
    for i in 0..8 {
        next[i] = next[i].seen(view);
    }
    next
}

// Where the axis of this number stands, if there is one.
fn index(axis: u32) -> Option<usize>
    ensures is { result ≡ index_of (on_axis axis) axis }
    ensures in_range { (i : ℕ) → result ≡ Some i → i < 8 }
{
    if (1 <= axis) & (axis <= 8) {
        return Some((axis - 1) as usize);
    }
    None
}

impl Locks {
    // The same for an event of a module, which must be there and in the view.
    fn index_for(self, by: u32, axis: u32) -> Option<usize>
        ensures is { result ≡ index_of (admits self by axis) axis }
        ensures in_range { (i : ℕ) → result ≡ Some i → i < 8 }
    {
        let i = index(axis)?;
        if (by <= self.n) & is_present(self.view, by) {
            return Some(i);
        }
        None
    }

    // The axis at this index takes an event, as it answers to it; the others are as they were. 19 where there is no index.
    fn told<F: FnOnce(Axis) -> Result<Axis, Number>>(
        mut self,
        index: Option<usize>,
        takes: F,
    ) -> Result<Locks, Number>
        requires in_range { (i : ℕ) → index ≡ Some i → i < 8 }
        requires callable { F.IsAlwaysCallable takes }
        ensures { (may : Bool) (a : ℕ) (t : AxisAnswer) → index ≡ index_of may a
            → ((r : _) → F.post takes (axis_at self a) r → axis_told (axis_at self a) r ≡ t)
            → event_told self result ≡ cond may (settled_of self a t) (refused_of self 19) }
    {
        let Some(i) = index else {
            return Err(Number::Absent);
        };
        self.axes[i] = takes(self.axes[i])?;
        Ok(self)
    }

    // The view after an accepted step. One that names a module above N is refused by 19.
    pub fn set_view(self, view: u32) -> Result<Locks, Number>
        ensures { event_told self result ≡ set_view_of self view }
    {
        if view_fits(self.n, view) {
            return Ok(Locks {
                view,
                axes: seen_axes(self.axes, view),
                ..self
            });
        }
        Err(Number::Absent)
    }

    // A module begins a lock.
    pub fn begin(self, by: u32, axis: u32) -> Result<Locks, Number>
        ensures { event_told self result ≡ begin_of self by axis }
    {
        self.told(self.index_for(by, axis), |x| x.begun(by))
    }

    // A module ends its innermost lock.
    pub fn end(self, by: u32, axis: u32) -> Result<Locks, Number>
        ensures { event_told self result ≡ end_of self by axis }
    {
        self.told(self.index_for(by, axis), |x| x.ended(by))
    }

    // The holder starts a move.
    pub fn start(self, by: u32, axis: u32) -> Result<Locks, Number>
        ensures { event_told self result ≡ start_move_of self by axis }
    {
        self.told(self.index_for(by, axis), |x| x.started(by))
    }

    // Any present module aborts the move.
    pub fn abort(self, by: u32, axis: u32) -> Result<Locks, Number>
        ensures { event_told self result ≡ abort_of self by axis }
    {
        self.told(self.index_for(by, axis), |x| Ok(x.aborted()))
    }

    // The axis reports its move finished.
    pub fn finished(self, axis: u32) -> Result<Locks, Number>
        ensures { event_told self result ≡ finished_by self axis }
    {
        self.told(index(axis), |x| Ok(x.finished()))
    }

    // The axis reports that it has stopped.
    pub fn stopped(self, axis: u32) -> Result<Locks, Number>
        ensures { event_told self result ≡ stopped_by self axis }
    {
        self.told(index(axis), |x| Ok(x.stopped()))
    }

    // Any event.
    pub fn handle(self, event: Event) -> Result<Locks, Number>
        ensures { event_told self result ≡ event_of self event }
    {
        match event {
            Event::View(view) => self.set_view(view),
            Event::Begin(by, axis) => self.begin(by, axis),
            Event::End(by, axis) => self.end(by, axis),
            Event::Start(by, axis) => self.start(by, axis),
            Event::Abort(by, axis) => self.abort(by, axis),
            Event::Finished(axis) => self.finished(axis),
            Event::Stopped(axis) => self.stopped(axis),
        }
    }
}
