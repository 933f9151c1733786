// A change of limits from image to image, by words: there is no struct between, whose arrays were copied by calls of memcpy.
ghost use Rattle.std.specs.Prelude.{◌≡◌, true, ℕ, ◌+◌, ◌*◌, ◌/◌, ◌≤◌, ◌<◌, length, get_or, eqb};
ghost use Rattle.words.specs.Word.{word_at};
ghost use Rattle.words.specs.Count.{all};
ghost use Rattle.setup.specs.Setup.{partitionable_in, place_unit, setup_of};
ghost use Rattle.setup.specs.Check.{check_setup};
ghost use Rattle.changes.specs.Pending.{pending_of};
ghost use Rattle.changes.specs.Frame.{same_frame};
ghost use Rattle.image.specs.Layout.{left_at, image_length};
ghost use Rattle.image.specs.Check.{check_image};
ghost use Rattle.presence.specs.Image.{image_of, state_of};
ghost use Rattle.presence.specs.Change.{with_pending};

use image::left_at;
use setup::bounds::fades_at;
use setup::check::size_at;
use setup::layout::PLACE;
use words::bits::bit_at;
use words::word::{copy_run, put_word, word_at};

// Whether the words of n modules are the same in all that stands above the criticality: kind, number, send mark and read place.
fn same_modules(image: &[u8], bytes: &[u8], n: usize) -> bool
    requires { (n ≤ 16) × ((n + 3) * 4 ≤ length image.now) × ((n + 3) * 4 ≤ length bytes.now) }
    ensures { result ≡ all n (λ j. eqb (word_at image.now (3 + j) / place_unit) (word_at bytes.now (3 + j) / place_unit)) }
{
    (0..n).all(|j| word_at(image, 3 + j) / PLACE == word_at(bytes, 3 + j) / PLACE)
}

// Whether neither the image nor the new setup fades, and all but P, R and the criticalities is the same.
pub fn same_frame(image: &[u8], bytes: &[u8]) -> bool
    requires { ((check_image image.now).number ≡ 0) × ((check_setup bytes.now).number ≡ 0) }
    ensures { result ≡ same_frame (setup_of image.now) (setup_of bytes.now) }
{
    if fades_at(image) | fades_at(bytes) {
        return false;
    }
    if word_at(image, 0) != word_at(bytes, 0) {
        return false;
    }
    same_modules(image, bytes, size_at(image))
}

// Writes the image with the new words of a setup pending, and the views behind them.
pub fn save_changed(image: &[u8], bytes: &[u8], n: usize, lead: u32, out: &mut [u8])
    requires image_value { ((check_image image.now).number ≡ 0) × ((check_setup bytes.now).number ≡ 0) × (n ≡ (state_of image.now).setup.n)
        × (same_frame (setup_of image.now) (setup_of bytes.now) ≡ true) × (0 < lead) × (word_at image.now (left_at 3 n) ≡ 0)
        × (length out.old ≡ image_length 3 n lead (partitionable_in (word_at image.now 0))) }
    requires by_index { ((i : ℕ) → get_or image.now i 0 < 256) × ((i : ℕ) → get_or bytes.now i 0 < 256) }
    ensures { out.new ≡ image_of (with_pending (state_of image.now) (pending_of (setup_of bytes.now) lead)) }
{
    let at = left_at(3, n);
    copy_run(image, 0, at, out, 0);
    put_word(out, at, lead);
    copy_run(bytes, 1, n + 2, out, at + 1);
    if bit_at(word_at(image, 0), 5) {
        return copy_run(image, at + 1, n + 4, out, at + 3 + n);
    }
}
