// The calls from C: a scan lock is its image, read from one slice and written to the output. A refused call writes nothing.
ghost use Rattle.std.specs.Prelude.{◌≡◌};
ghost use Rattle.scanlock.specs.declared.Event.TheVariants.{View, Begin, End, Start, Abort, Finished, Stopped};
ghost use Rattle.lockcalls.specs.LockCalls.{lock_told, lock_called, lock_open_call, event_call, joystick_call};

use crate::LockAnswer;
use crate::check::check_lock;
use crate::load::{locks_in, read_locks};
use crate::save::{answer_with, save_locks};
use scanlock::{Event, Locks};
use words::check::single;
use words::{Number, Refusal};

// Any event, from image to image: 1, 2, 3, 8 for the image, 9 for the output. Then the event's own numbers, with the joystick of the locks as they were.
fn told(image: &[u8], event: Event, out: &mut [u8]) -> Result<LockAnswer, Refusal>
    ensures { lock_called (lock_told result) out.new ≡ event_call image.now event out.old }
{
    check_lock(image)?;
    single(out.len() == 36, Number::Lent, 0)?;
    let locks = locks_in(image);
    match locks.handle(event) {
        Ok(next) => Ok(save_locks(next, out)),
        Err(number) => Ok(answer_with(locks, number.code())),
    }
}

// The same as C has it.
fn call(image: &[u8], event: Event, out: &mut [u8]) -> LockAnswer
    ensures { lock_called result out.new ≡ event_call image.now event out.old }
{
    told(image, event, out).unwrap_or_else(LockAnswer::from)
}

// The scan lock of a backplane of n modules: 2 for another n than 2..16, 9.
pub fn scanlock_open(n: u32, out: &mut [u8]) -> LockAnswer
    ensures { lock_called result out.new ≡ lock_open_call n out.old }
{
    match Locks::open(n) {
        Ok(locks) => save_locks(locks, out),
        Err(number) => number.at(0).into(),
    }
}

// The view after an accepted step.
pub fn scanlock_view(image: &[u8], view: u32, out: &mut [u8]) -> LockAnswer
    ensures { lock_called result out.new ≡ event_call image.now (View view) out.old }
{
    call(image, Event::View(view), out)
}

// A module begins a lock.
pub fn scanlock_begin(image: &[u8], by: u32, axis: u32, out: &mut [u8]) -> LockAnswer
    ensures { lock_called result out.new ≡ event_call image.now (Begin by axis) out.old }
{
    call(image, Event::Begin(by, axis), out)
}

// A module ends its innermost lock.
pub fn scanlock_end(image: &[u8], by: u32, axis: u32, out: &mut [u8]) -> LockAnswer
    ensures { lock_called result out.new ≡ event_call image.now (End by axis) out.old }
{
    call(image, Event::End(by, axis), out)
}

// The holder starts a move.
pub fn scanlock_start(image: &[u8], by: u32, axis: u32, out: &mut [u8]) -> LockAnswer
    ensures { lock_called result out.new ≡ event_call image.now (Start by axis) out.old }
{
    call(image, Event::Start(by, axis), out)
}

// A present module aborts the move.
pub fn scanlock_abort(image: &[u8], by: u32, axis: u32, out: &mut [u8]) -> LockAnswer
    ensures { lock_called result out.new ≡ event_call image.now (Abort by axis) out.old }
{
    call(image, Event::Abort(by, axis), out)
}

// The axis reports its move finished.
pub fn scanlock_finished(image: &[u8], axis: u32, out: &mut [u8]) -> LockAnswer
    ensures { lock_called result out.new ≡ event_call image.now (Finished axis) out.old }
{
    call(image, Event::Finished(axis), out)
}

// The axis reports that it has stopped.
pub fn scanlock_stopped(image: &[u8], axis: u32, out: &mut [u8]) -> LockAnswer
    ensures { lock_called result out.new ≡ event_call image.now (Stopped axis) out.old }
{
    call(image, Event::Stopped(axis), out)
}

// Whether the joystick is live: 1, 2, 3, 8.
pub fn scanlock_joystick(image: &[u8]) -> LockAnswer
    ensures { result ≡ joystick_call image.now }
{
    match read_locks(image) {
        Ok(locks) => answer_with(locks, 0),
        Err(refusal) => refusal.into(),
    }
}
