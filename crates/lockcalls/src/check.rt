// The check of a saved scan lock: 1, 2, 3, then 8 at the first wrong word of an axis.
ghost use Rattle.std.specs.Prelude.{◌≡◌};
ghost use Rattle.words.specs.Refusal.{told};
ghost use Rattle.lockcalls.specs.LockImage.{check_lock_image};

use crate::word::{VIEW, axis_ok, head_ok};
use words::check::{each, single};
use words::word::word_at;
use words::{Number, Refusal};

// The whole check.
pub fn check_lock(image: &[u8]) -> Result<(), Refusal>
    ensures { told result ≡ check_lock_image image.now }
{
    let whole = (image.len() != 0) & (image.len() % 4 == 0);
    single(whole, Number::Bytes, 0)?;
    let head = word_at(image, 0);
    single(head_ok(head), Number::Head, 0)?;
    single(image.len() == 36, Number::Length, 0)?;
    let view = head % VIEW;
    each(
        8,
        |i| axis_ok(view, word_at(image, i + 1)),
        Number::Image,
        1,
    )
}
