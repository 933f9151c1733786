// Writing a scan lock.
ghost use Rattle.std.specs.Prelude.{◌≡◌, ◌<◌, length};
ghost use Rattle.lockcalls.specs.LockImage.{lock_word, lock_image};
ghost use Rattle.words.specs.Refusal.{refusal_told};
ghost use Rattle.lockcalls.specs.LockCalls.{answer_for, answer_by, lock_called, save_locks};

use crate::LockAnswer;
use crate::word::{axis_word, head_word};
use scanlock::Locks;
use words::bits::flag;
use words::word::put_word;
use words::{Number, Refusal};

// Word i of the image.
fn lock_word(locks: Locks, i: usize) -> u32
    requires { i < 9 }
    ensures { result ≡ lock_word locks i }
{
    if i == 0 {
        return head_word(locks.n, locks.view);
    }
    axis_word(locks.axes[i - 1])
}

// Writes all nine words.
fn save_words(locks: Locks, out: &mut [u8])
    requires { length out.old ≡ 36 }
    ensures { out.new ≡ lock_image locks }
{
    for i in 0..9 {
        let w = lock_word(locks, i);
        put_word(out, i, w);
    }
}

// A refusal answers its number and its index, and no joystick.
impl From<Refusal> for LockAnswer {
    ghost from_gives = { λ e a. a ≡ answer_by (refusal_told e) };

    fn from(e: Refusal) -> LockAnswer {
        LockAnswer {
            number: e.number.code(),
            index: e.index,
            joystick: 0,
        }
    }
}

// An answer with the joystick of these locks.
pub fn answer_with(locks: Locks, number: u32) -> LockAnswer
    ensures { result ≡ answer_for number locks }
{
    LockAnswer {
        number,
        index: 0,
        joystick: flag(locks.joystick()),
    }
}

// Writes the image, or refuses an output that is not of 9 words, by 9, and leaves it as it was.
pub fn save_locks(locks: Locks, out: &mut [u8]) -> LockAnswer
    ensures { lock_called result out.new ≡ save_locks locks out.old }
{
    if out.len() != 36 {
        return Number::Lent.at(0).into();
    }
    save_words(locks, out);
    answer_with(locks, 0)
}
