// Opening and step of a module that has a page. A refused call writes neither image nor page.
ghost use Rattle.std.specs.Prelude.{◌≡◌, ◌+◌, ◌*◌, ◌≤◌, length};
ghost use Rattle.words.specs.Word.{word_at};
ghost use Rattle.words.specs.Bits.{pack};
ghost use Rattle.setup.specs.Setup.{size_in, front_in};
ghost use Rattle.image.specs.Layout.{left_at};
ghost use Rattle.image.specs.Check.{check_image};
ghost use Rattle.presence.specs.Step.{found_view};
ghost use Rattle.presence.specs.Shown.{shown_view};
ghost use Rattle.presence.specs.Image.{state_of};
ghost use Rattle.calls.specs.Calls.{called};
ghost use Rattle.page.specs.Turned.{turned_in};
ghost use Rattle.page.specs.Calls.{page_called, page_open_call, page_step_call};

use crate::registers::{open_page, step_page};
use calls::Answer;
use calls::calls::{presence_open, presence_step};
use image::{left_at, view_in, views_at};
use setup::bounds::{fades_at, front_words};
use setup::check::size_at;
use words::bits::{bit_at, from_fn};
use words::word::{KIND, NUMBER, word_at};

// Opens module `own` of a setup, and writes its image and its page: 1 to 6 and 22, 7, 9 for the output or the page.
pub fn presence_page_open(bytes: &[u8], own: u32, out: &mut [u8], page: &mut [u8]) -> Answer
    ensures { page_called (called result out.new) page.new
        ≡ page_open_call bytes.now own out.old page.old }
{
    if page.len() != 64 {
        // an output of no bytes is refused after all that goes before 9
        let none: usize = 0;
        return presence_open(bytes, own, &mut out[..none]);
    }
    let answer = presence_open(bytes, own, out);
    if answer.number != 0 {
        return answer;
    }
    let n = size_at(bytes);
    let view = shown_in(out, front_words(fades_at(bytes)), n);
    open_page(n, view, page);
    answer
}

// The view that is shown of an image: the adopted one where its setup is partitionable, else the local one.
fn shown_in(image: &[u8], front: usize, n: usize) -> u32
    requires { ((check_image image.now).number ≡ 0) × (front ≡ front_in (word_at image.now)) × (n ≡ size_in (word_at image.now 0)) }
    ensures { result ≡ shown_view (state_of image.now) }
{
    if bit_at(word_at(image, 0), 5) {
        let left = word_at(image, left_at(front, n));
        return word_at(image, views_at(front, n, left) + n + 2);
    }
    view_in(image, front, n)
}

// The view after a change that is due, of an image that counts: a module in the view stays where the new R clears its penalty, or where its penalty is
// not over the new P.
fn turned_view(image: &[u8], n: usize) -> u32
    requires { (n ≤ 16) × ((left_at 3 n + 3) * 4 ≤ length image.now) }
    ensures { result ≡ pack n (turned_in (word_at image.now) n) }
{
    let view = view_in(image, 3, n);
    let at = left_at(3, n);
    let p = word_at(image, at + 1) % KIND;
    let r = word_at(image, at + 2) % KIND;
    let stays = |j: usize| {
        let penalty = word_at(image, at - 3 * n + j) % NUMBER;
        let reward = word_at(image, at - 2 * n + j) % NUMBER;
        bit_at(view, j) & ((r <= reward) | (penalty <= p))
    };
    from_fn(n, stays)
}

// The view that rule 8 finds in a step from an image: the image's own, or, where a change is due, the one after it.
fn found_view(image: &[u8], front: usize, n: usize) -> u32
    requires { ((check_image image.now).number ≡ 0) × (front ≡ front_in (word_at image.now)) × (n ≡ size_in (word_at image.now 0)) }
    ensures { result ≡ found_view (state_of image.now) }
{
    if word_at(image, left_at(front, n)) == 1 {
        return turned_view(image, n);
    }
    view_in(image, front, n)
}

// One step, from image to image, with the page beside it: 1 to 8 and 22, 9 for the read, the output or the page, 10.
pub fn presence_page_step(
    image: &[u8],
    read: &[u8],
    controller: u32,
    out: &mut [u8],
    page: &mut [u8],
) -> Answer
    ensures { page_called (called result out.new) page.new
        ≡ page_step_call image.now read.now controller out.old page.old }
{
    if page.len() != 64 {
        let none: usize = 0;
        return presence_step(image, read, controller, &mut out[..none]);
    }
    let answer = presence_step(image, read, controller, out);
    if answer.number != 0 {
        return answer;
    }
    let n = size_at(image);
    let front = front_words(fades_at(image));
    let before = found_view(image, front, n);
    let after = shown_in(out, front, n);
    let causes = rules::hearing::causes(n, read, controller);
    step_page(n, before, answer.health, after, causes, page);
    answer
}
