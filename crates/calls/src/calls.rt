// The calls from C: a state is its saved image, read from one slice and written to the output. A refused call writes nothing.
ghost use Rattle.std.specs.Prelude.{◌≡◌, ◌≢◌, length};
ghost use Rattle.words.specs.Word.{word_at};
ghost use Rattle.words.specs.Refusal.{refusal_told, told};
ghost use Rattle.setup.specs.Setup.{size_in, front_in};
ghost use Rattle.image.specs.Check.{check_image};
ghost use Rattle.presence.specs.Step.{mark_of};
ghost use Rattle.presence.specs.Image.{state_of};
ghost use Rattle.calls.specs.Answers.{answer_of, answer_told, word_told, cause_told};
ghost use Rattle.calls.specs.Calls.{called, check_call, open_call, step_call, change_call, save_call, handed_out, outgoing_call, view_handed_out, outgoing_view_call, cause_call};

use crate::change::{same_frame, save_changed};
use crate::step::{left_after, played, turned};
use crate::{Answer, CauseAnswer, WordAnswer};
use changes::frame::MOST_LEAD;
use image::check::{check_image, image_size};
use image::{
    earlier_in, image_length, latest_in, left_at, load_image, own_in, save_accounts, save_sections,
    views_at,
};
use rules::Cause;
use rules::hearing::receive;
use setup::bounds::{fades_at, front_words};
use setup::check::{check, size_at};
use setup::layout::{LEAST_MODULES, MOST_MODULES, setup_words};
use views::lent::save_full;
use views::read::read_words;
use views::word::view_word;
use words::array::filled;
use words::bits::{bit_at, full_of, pick, power};
use words::check::single;
use words::word::{copy_run, put_word, word_at};
use words::{Number, Refusal};

// Numbers 1 to 6 and 22 of a setup.
#[tactic(auto, unfolding(crate::specs::Calls::check_call))]
pub fn presence_check_setup(bytes: &[u8]) -> Answer
    ensures { result ≡ check_call bytes.now }
{
    check(bytes).into()
}

// Opens module `own` of a setup, and writes its image: 1 to 6 and 22, 7, 9. There is no state between, whose arrays were copied by calls of memcpy.
// The words of the setup are copied: those of an accepted setup are in their one form.
fn open(bytes: &[u8], own: u32, out: &mut [u8]) -> Result<(), Refusal>
    ensures { called (answer_of (told result)) out.new ≡ open_call bytes.now own out.old }
{
    check(bytes)?;
    let n = size_at(bytes);
    let fades = fades_at(bytes);
    let front = front_words(fades);
    let member = (1 <= own) & (own as usize <= n);
    single(member, Number::Own, 0)?;
    let partitionable = bit_at(word_at(bytes, 0), 5);
    let room = out.len() == image_length(front, n, 0, partitionable);
    single(room, Number::Lent, 0)?;
    let full = full_of(n);
    let rows = filled(n, full);
    let zeros = [0u32; 16];
    copy_run(bytes, 0, setup_words(front, n), out, 0);
    save_sections(fades, n, own as usize, full, full, &rows, full, full, out);
    save_accounts(fades, n, &zeros, &zeros, &zeros, out);
    put_word(out, left_at(front, n), 0);
    if partitionable {
        save_full(n, full, out, views_at(front, n, 0));
    }
    Ok(())
}

// Opens module `own` of a setup, and writes its image: 1 to 6 and 22, 7, 9.
pub fn presence_open(bytes: &[u8], own: u32, out: &mut [u8]) -> Answer
    ensures { called result out.new ≡ open_call bytes.now own out.old }
{
    open(bytes, own, out).into()
}

// Why an image is refused. The whole check is made only where reading it at once has found that something is wrong: out of the way of a step that is
// accepted, which keeps its registers.
#[cold]
#[inline(never)]
fn refusal(image: &[u8]) -> Refusal
    requires { (check_image image.now).number ≢ 0 }
    ensures { refusal_told result ≡ check_image image.now }
{
    check_image(image).unwrap_err()
}

// One step, from image to image: 1 to 8 and 22, 9 for the read or the output, which has the length of the image after the step, 10.
// Compiled by itself: within the call it takes 7 to 30 instructions more.
#[inline(never)]
fn step(image: &[u8], read: &[u8], controller: u32, out: &mut [u8]) -> Result<u32, Refusal>
    ensures { called (answer_told result) out.new ≡ step_call image.now read.now controller out.old }
{
    let Some(n) = image_size(image) else {
        return Err(refusal(image));
    };
    let fades = fades_at(image);
    let mut criticality = [0u32; 16];
    let mut rows = [0u32; 16];
    let mut first = [0u32; 16];
    let mut second = [0u32; 16];
    let mut returns = [0u32; 16];
    let part = load_image(
        image,
        fades,
        n,
        &mut criticality,
        &mut rows,
        &mut first,
        &mut second,
        &mut returns,
    );
    if !part.good {
        return Err(refusal(image));
    }
    let partitionable = bit_at(word_at(image, 0), 5);
    let long = image_length(front_words(fades), n, left_after(part.left), partitionable);
    let lent = (out.len() == long) & (read.len() == read_words(partitionable, n) * 4);
    single(lent, Number::Lent, 0)?;
    single(controller < power(n), Number::Controller, 0)?;
    let held = part.limits;
    let limits = turned(
        image,
        fades,
        n,
        part.left,
        part.view,
        held,
        &mut criticality,
        &mut first,
        &mut second,
    );
    let health = played(
        image,
        fades,
        partitionable,
        n,
        part,
        limits,
        &criticality,
        &mut rows,
        &mut first,
        &mut second,
        &mut returns,
        read,
        controller,
        out,
    );
    Ok(health)
}

// One step, from image to image: 1 to 8 and 22, 9 for the read or the output, 10.
pub fn presence_step(image: &[u8], read: &[u8], controller: u32, out: &mut [u8]) -> Answer
    ensures { called result out.new ≡ step_call image.now read.now controller out.old }
{
    step(image, read, controller, out).into()
}

// Has a setup with new P, R and criticalities take the old one's place, `lead` rounds ahead, and writes the image with that change pending: 1 to 8 and
// 22 of the image, 1 to 6 and 22 of the new setup, 23, 24, 9.
fn change(image: &[u8], bytes: &[u8], lead: u32, out: &mut [u8]) -> Result<(), Refusal>
    ensures { called (answer_of (told result)) out.new ≡ change_call image.now bytes.now lead out.old }
{
    check_image(image)?;
    check(bytes)?;
    single(same_frame(image, bytes), Number::Frame, 0)?;
    let n = size_at(image);
    let left = word_at(image, left_at(3, n));
    let follows = (left == 0) & ((1 <= lead) & (lead <= MOST_LEAD));
    single(follows, Number::Pending, 0)?;
    let room = out.len() == image_length(3, n, lead, bit_at(word_at(image, 0), 5));
    single(room, Number::Lent, 0)?;
    save_changed(image, bytes, n, lead, out);
    Ok(())
}

// Has a setup with new P, R and criticalities take the old one's place, `lead` rounds ahead: 1 to 8 and 22 of the image, 1 to 6 and 22 of the new setup,
// 23, 24, 9.
pub fn presence_change(image: &[u8], bytes: &[u8], lead: u32, out: &mut [u8]) -> Answer
    ensures { called result out.new ≡ change_call image.now bytes.now lead out.old }
{
    change(image, bytes, lead, out).into()
}

// Copies a slice onto one of its length, byte by byte: std's copy calls memmove, and the library calls nothing that it does not have.
fn copy(from: &[u8], to: &mut [u8])
    requires { length from.now ≡ length to.old }
    ensures { to.new ≡ from.now }
{
    for j in 0..from.len() {
        to[j] = from[j];
    }
}

// Tests an image and writes it again, in its one form: 1 to 8 and 22, 9.
fn save(image: &[u8], out: &mut [u8]) -> Result<(), Refusal>
    ensures { called (answer_of (told result)) out.new ≡ save_call image.now out.old }
{
    check_image(image)?;
    single(out.len() == image.len(), Number::Lent, 0)?;
    copy(image, out);
    Ok(())
}

// Tests an image and writes it again, in its one form: 1 to 8 and 22, 9.
pub fn presence_save(image: &[u8], out: &mut [u8]) -> Answer
    ensures { called result out.new ≡ save_call image.now out.old }
{
    save(image, out).into()
}

// The send mark of the module itself, in its own word.
fn own_mark(image: &[u8], front: usize, n: usize) -> bool
    requires { ((check_image image.now).number ≡ 0) × (front ≡ front_in (word_at image.now)) × (n ≡ size_in (word_at image.now 0)) }
    ensures { result ≡ mark_of (state_of image.now) }
{
    let own = own_in(image, front, n);
    bit_at(word_at(image, front + own - 1), 22)
}

// The word handed out by the step or opening that wrote this image.
fn word_in(image: &[u8]) -> u32
    requires { (check_image image.now).number ≡ 0 }
    ensures { result ≡ handed_out (state_of image.now) }
{
    let n = size_at(image);
    let front = front_words(fades_at(image));
    let mark = own_mark(image, front, n);
    let earlier = earlier_in(image, front, n);
    let latest = latest_in(image, front, n);
    rules::judge::outgoing(mark, earlier, latest)
}

// The word to put on the bus, from an image: 1 to 8 and 22.
fn outgoing(image: &[u8]) -> Result<u32, Refusal>
    ensures { word_told result ≡ outgoing_call image.now }
{
    check_image(image)?;
    Ok(word_in(image))
}

// The word to put on the bus, from an image: 1 to 8 and 22.
pub fn presence_outgoing(image: &[u8]) -> WordAnswer
    ensures { result ≡ outgoing_call image.now }
{
    outgoing(image).into()
}

// The view word handed out by the step or opening that wrote this image.
fn view_word_in(image: &[u8]) -> u32
    requires { (check_image image.now).number ≡ 0 }
    ensures { result ≡ view_handed_out (state_of image.now) }
{
    if !bit_at(word_at(image, 0), 5) {
        return 0;
    }
    let n = size_at(image);
    let front = front_words(fades_at(image));
    let mark = own_mark(image, front, n);
    let at = views_at(front, n, word_at(image, left_at(front, n)));
    view_word(pick(mark, word_at(image, at + n + 1), word_at(image, at + n)))
}

// The second word to put on the bus, from an image, 0 where its setup is not partitionable: 1 to 8 and 22.
fn outgoing_view(image: &[u8]) -> Result<u32, Refusal>
    ensures { word_told result ≡ outgoing_view_call image.now }
{
    check_image(image)?;
    Ok(view_word_in(image))
}

// The second word to put on the bus, from an image, 0 where its setup is not partitionable: 1 to 8 and 22.
pub fn presence_outgoing_view(image: &[u8]) -> WordAnswer
    ensures { result ≡ outgoing_view_call image.now }
{
    outgoing_view(image).into()
}

// Reads one word of n modules, whose controller bit is 0 or 1: 2, 10.
fn read_cause(n: u32, controller: u32, word: u32) -> Result<Result<u32, Cause>, Refusal>
    ensures { cause_told result ≡ cause_call n controller word }
{
    let modules = (LEAST_MODULES <= n as usize) & (n as usize <= MOST_MODULES);
    single(modules, Number::Head, 0)?;
    single(controller <= 1, Number::Controller, 0)?;
    Ok(receive(n as usize, controller == 1, word))
}

// Reads one word of n modules, whose controller bit is 0 or 1: 2, 10.
pub fn presence_read_cause(n: u32, controller: u32, word: u32) -> CauseAnswer
    ensures { result ≡ cause_call n controller word }
{
    read_cause(n, controller, word).into()
}
