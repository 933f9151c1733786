// What an event does to the axis that it names. (document 02, E2)
ghost use Rattle.std.specs.Prelude.{◌≡◌};
ghost use Rattle.scanlock.specs.Axis.{axis_told, present, barred, begun_of, ended_of, started_of, aborted_of, finished_of, stopped_of, lost_of, idle_axis};

use crate::Axis;
use words::Number;
use words::bits::{bit_at, pick};

// Whether a module is in a view.
pub fn is_present(view: u32, by: u32) -> bool
    ensures { result ≡ present view by }
{
    if (1 <= by) & (by <= 32) {
        return bit_at(view, (by - 1) as usize);
    }
    false
}

impl Axis {
    // Held by nobody, at rest.
    pub const FREE: Axis = Axis {
        holder: 0,
        depth: 0,
        moving: false,
        stopping: false,
    };

    // 20: held by another, or stopping.
    fn barred(self, by: u32) -> bool
        ensures { result ≡ barred self by }
    {
        ((self.holder != 0) & (self.holder != by)) | self.stopping
    }

    // One lock more.
    pub(crate) fn begun(self, by: u32) -> Result<Axis, Number>
        ensures { axis_told self result ≡ begun_of self by }
    {
        if self.barred(by) {
            return Err(Number::Barred);
        }
        if 8 <= self.depth {
            return Err(Number::Depth);
        }
        Ok(Axis {
            holder: by,
            depth: self.depth + 1,
            ..self
        })
    }

    // The innermost lock ends: the outer one is restored, or after the last the axis is held by nobody.
    pub(crate) fn ended(self, by: u32) -> Result<Axis, Number>
        ensures { axis_told self result ≡ ended_of self by }
    {
        if self.barred(by) {
            return Err(Number::Barred);
        }
        if self.depth == 0 {
            return Err(Number::Depth);
        }
        Ok(Axis {
            holder: pick(self.depth == 1, 0, self.holder),
            depth: self.depth - 1,
            ..self
        })
    }

    // A move is unfinished from now on; a start during one joins it.
    pub(crate) fn started(self, by: u32) -> Result<Axis, Number>
        ensures { axis_told self result ≡ started_of self by }
    {
        if self.barred(by) {
            return Err(Number::Barred);
        }
        if self.depth == 0 {
            return Err(Number::Depth);
        }
        Ok(Axis {
            moving: true,
            ..self
        })
    }

    // An abort: during an unfinished move the axis is stopping from now on.
    pub(crate) fn aborted(self) -> Axis
        ensures { result ≡ aborted_of self }
    {
        Axis {
            stopping: self.stopping | self.moving,
            ..self
        }
    }

    // The move is finished; on a stopping axis the report changes nothing.
    pub(crate) fn finished(self) -> Axis
        ensures { result ≡ finished_of self }
    {
        Axis {
            moving: self.moving & self.stopping,
            ..self
        }
    }

    // A stopping axis has stopped: that ends the move and every depth. On another the report changes nothing.
    pub(crate) fn stopped(self) -> Axis
        ensures { result ≡ stopped_of self }
    {
        if self.stopping { Axis::FREE } else { self }
    }

    // A holder that is not in the view loses its locks; the move and the stopping go on.
    pub(crate) fn seen(self, view: u32) -> Axis
        ensures { result ≡ lost_of view self }
    {
        if is_present(view, self.holder) {
            return self;
        }
        Axis {
            holder: 0,
            depth: 0,
            ..self
        }
    }

    // Whether nobody holds the axis and it is not stopping.
    pub(crate) fn is_idle(self) -> bool
        ensures { result ≡ idle_axis self }
    {
        (self.depth == 0) & !self.stopping
    }
}
