// The calls of `lockcalls` for C: each export makes the library's call, and has its clauses. include/scanlock.h declares them.
#![tactic(auto)]

ghost use Rattle.std.specs.Prelude.{◌≡◌};
ghost use Rattle.scanlock.specs.declared.Event.TheVariants.{View, Begin, End, Start, Abort, Finished, Stopped};
ghost use Rattle.lockcalls.specs.LockCalls.{lock_called, lock_open_call, event_call, joystick_call};

use lockcalls::{LockAnswer, lock_calls};

// The scan lock of a backplane of n modules: 2 for another n than 2..16, 9.
#[unsafe(no_mangle)]
pub extern "C" fn scanlock_open(n: u32, out: &mut [u8]) -> LockAnswer
    ensures { lock_called result out.new ≡ lock_open_call n out.old }
{
    lock_calls::scanlock_open(n, out)
}

// The view after an accepted step.
#[unsafe(no_mangle)]
pub extern "C" fn scanlock_view(image: &[u8], view: u32, out: &mut [u8]) -> LockAnswer
    ensures { lock_called result out.new ≡ event_call image.now (View view) out.old }
{
    lock_calls::scanlock_view(image, view, out)
}

// A module begins a lock.
#[unsafe(no_mangle)]
pub extern "C" fn scanlock_begin(image: &[u8], by: u32, axis: u32, out: &mut [u8]) -> LockAnswer
    ensures { lock_called result out.new ≡ event_call image.now (Begin by axis) out.old }
{
    lock_calls::scanlock_begin(image, by, axis, out)
}

// A module ends its innermost lock.
#[unsafe(no_mangle)]
pub extern "C" fn scanlock_end(image: &[u8], by: u32, axis: u32, out: &mut [u8]) -> LockAnswer
    ensures { lock_called result out.new ≡ event_call image.now (End by axis) out.old }
{
    lock_calls::scanlock_end(image, by, axis, out)
}

// The holder starts a move.
#[unsafe(no_mangle)]
pub extern "C" fn scanlock_start(image: &[u8], by: u32, axis: u32, out: &mut [u8]) -> LockAnswer
    ensures { lock_called result out.new ≡ event_call image.now (Start by axis) out.old }
{
    lock_calls::scanlock_start(image, by, axis, out)
}

// A present module aborts the move.
#[unsafe(no_mangle)]
pub extern "C" fn scanlock_abort(image: &[u8], by: u32, axis: u32, out: &mut [u8]) -> LockAnswer
    ensures { lock_called result out.new ≡ event_call image.now (Abort by axis) out.old }
{
    lock_calls::scanlock_abort(image, by, axis, out)
}

// The axis reports its move finished.
#[unsafe(no_mangle)]
pub extern "C" fn scanlock_finished(image: &[u8], axis: u32, out: &mut [u8]) -> LockAnswer
    ensures { lock_called result out.new ≡ event_call image.now (Finished axis) out.old }
{
    lock_calls::scanlock_finished(image, axis, out)
}

// The axis reports that it has stopped.
#[unsafe(no_mangle)]
pub extern "C" fn scanlock_stopped(image: &[u8], axis: u32, out: &mut [u8]) -> LockAnswer
    ensures { lock_called result out.new ≡ event_call image.now (Stopped axis) out.old }
{
    lock_calls::scanlock_stopped(image, axis, out)
}

// Whether the joystick is live: 1, 2, 3, 8.
#[unsafe(no_mangle)]
pub extern "C" fn scanlock_joystick(image: &[u8]) -> LockAnswer
    ensures { result ≡ joystick_call image.now }
{
    lock_calls::scanlock_joystick(image)
}
