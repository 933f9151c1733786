// The round of an accepted image, from its words to those of the next state, with no state between: the arrays are lent, and filled in place.
// Each array is lent by itself: reading takes all of them, a change three, the vote one, rule 8 three or four, writing three, so a struct of them would be
// taken apart at almost every call.
ghost use Rattle.std.specs.Prelude.{◌≡◌, true, cond, List, ◌++◌, ℕ, ◌+◌, ◌-◌, ◌*◌, ◌^◌, ◌≤◌, ◌<◌, length, get_or, drop, ltb};
ghost use Rattle.words.specs.Array.{array, Filled};
ghost use Rattle.words.specs.Runs.{put_runs};
ghost use Rattle.setup.specs.Layout.{front_words, setup_length};
ghost use Rattle.setup.specs.Limits.{fades as fades_of};
ghost use Rattle.setup.specs.Setup.{front_of, setup_bytes};
ghost use Rattle.rules.specs.Hearing.{reading_of};
ghost use Rattle.changes.specs.Books.{turned as turned_of};
ghost use Rattle.changes.specs.Words.{change_runs};
ghost use Rattle.views.specs.ViewWord.{read_words, views_read, views_seen};
ghost use Rattle.views.specs.Views.{views_after};
ghost use Rattle.views.specs.Section.{views_in, view_runs};
ghost use Rattle.image.specs.Layout.{left_at, views_at, image_length};
ghost use Rattle.image.specs.Check.{check_image};
ghost use Rattle.presence.specs.Step.{judgement_for, books_of, after_round};
ghost use Rattle.presence.specs.Image.{state_of, image_of};
ghost use Rattle.calls.specs.Held.{HeldBy, CountedBy, LentRange, kept_view, kept_first, kept_second, kept_returns};

use accounts::round::{count, fade};
use changes::lent::turn;
use image::{ImagePart, left_at, place_in, save_accounts, save_sections, views_at};
use rules::judge::judged_read;
use setup::Limits;
use setup::bounds::front_words;
use setup::layout::setup_words;
use views::lent::agree;
use words::bits::pick;
use words::word::{copy_run, put_word};

// Rule 8 on the lent arrays, by the limits of the setup; the answer is the view.
fn kept(
    limits: Limits,
    n: usize,
    q: u32,
    health: u32,
    criticality: &[u32; 16],
    first: &mut [u32; 16],
    second: &mut [u32; 16],
    returns: &mut [u32; 16],
) -> u32
    requires n_bound { (n ≤ 16) × (health < 2 ^ n) × Filled n criticality.now × Filled n first.old × Filled n second.old × Filled n returns.old }
    requires by_index { (j : ℕ) → j < n → LentRange limits q criticality.now first.old second.old returns.old j }
    ensures { (result ≡ kept_view limits n q health criticality.now first.old second.old returns.old)
        × (first.new ≡ kept_first limits n q health criticality.now first.old second.old returns.old)
        × (second.new ≡ kept_second limits n q health criticality.now first.old second.old returns.old)
        × (returns.new ≡ kept_returns limits n q health criticality.now first.old second.old returns.old) }
{
    match limits {
        Limits::Counts(p, r) => { count(n, p, r, q, health, criticality, first, second, returns) }
        Limits::Fading(factor, limit) => {
            fade(n, factor, limit, q, health, first, second, returns)
        }
    }
}

// The limits by which rule 8 counts. A change that is due takes effect: the arrays hold the new criticalities and the adjusted counters.
pub fn turned(
    image: &[u8],
    fades: bool,
    n: usize,
    left: u32,
    view: u32,
    limits: Limits,
    criticality: &mut [u32; 16],
    first: &mut [u32; 16],
    second: &mut [u32; 16],
) -> Limits
    requires image_value { ((check_image image.now).number ≡ 0) × (n ≡ (state_of image.now).setup.n) × (fades ≡ fades_of (state_of image.now).setup.limits)
        × (left ≡ (state_of image.now).pending.left) × (view ≡ (state_of image.now).counters.view) }
    requires filled { Filled n criticality.old × Filled n first.old × Filled n second.old }
    ensures { (q : ℕ) (z : List ℕ) → CountedBy (books_of (state_of image.now)) limits q criticality.old first.old second.old z
        → CountedBy (turned_of (books_of (state_of image.now))) result q criticality.new first.new second.new z }
{
    if left == 1 {
        return turn(
            image,
            n,
            left_at(front_words(fades), n),
            view,
            criticality,
            first,
            second,
        );
    }
    limits
}

// How many rounds are left after a step.
pub fn left_after(left: u32) -> u32
    ensures { result ≡ left - 1 }
{
    if left == 0 {
        return 0;
    }
    left - 1
}

// Writes the words of the setup that holds after the round: where a change is due the new ones after the head, else its own. They are copied: those of
// an accepted image are in their one form.
fn save_setup(image: &[u8], front: usize, n: usize, left: u32, out: &mut [u8])
    requires { ((check_image image.now).number ≡ 0) × (n ≡ (state_of image.now).setup.n) × (front ≡ front_of (state_of image.now).setup)
        × (left ≡ (state_of image.now).pending.left) × (setup_length front n ≤ length out.old) }
    ensures { out.new
        ≡ setup_bytes (turned_of (books_of (state_of image.now))).setup ++ drop (setup_length front n) out.old }
{
    if left == 1 {
        copy_run(image, 0, 1, out, 0);
        return copy_run(image, left_at(front, n) + 1, n + 2, out, 1);
    }
    copy_run(image, 0, setup_words(front, n), out, 0)
}

// Writes the rounds left after the round, and the new words where a change is pending still.
fn save_pending(image: &[u8], front: usize, n: usize, left: u32, out: &mut [u8])
    requires { ((check_image image.now).number ≡ 0) × (n ≡ (state_of image.now).setup.n) × (front ≡ front_of (state_of image.now).setup)
        × (left ≡ (state_of image.now).pending.left) × (views_at front n (left - 1) * 4 ≤ length out.old) }
    ensures { out.new ≡ put_runs out.old (left_at front n)
        (change_runs (turned_of (books_of (state_of image.now))).setup (turned_of (books_of (state_of image.now))).pending) }
{
    let at = left_at(front, n);
    if left < 2 {
        return put_word(out, at, 0);
    }
    put_word(out, at, left - 1);
    copy_run(image, at + 1, n + 2, out, at + 1)
}

// Writes the views after the round, of a partitionable setup: their view words are aligned at `split`, the local view was `before` and is `after` now.
fn save_views(
    image: &[u8],
    front: usize,
    n: usize,
    left: u32,
    split: u32,
    read: &[u8],
    controller: u32,
    before: u32,
    after: u32,
    out: &mut [u8],
)
    requires { (front ≤ 6) × (n ≤ 16) × (length image.now ≡ image_length front n left true) × ((n + n) * 4 ≤ length read.now)
        × (length out.old ≡ image_length front n (left - 1) true) }
    ensures { out.new ≡ put_runs out.old (views_at front n (left - 1)) (view_runs true n after
        (views_after n (views_in true image.now n (views_at front n left))
        (array n (λ j. cond (ltb j split) (get_or (views_in true image.now n (views_at front n left)).words j 0) (get_or (views_read n read.now controller) j 0)))
        (views_read n read.now controller) before)) }
{
    agree(
        image,
        n,
        views_at(front, n, left),
        split,
        read,
        controller,
        before,
        after,
        out,
        views_at(front, n, left_after(left)),
    );
}

// Writes the image after the round, and answers the health vector.
pub fn played(
    image: &[u8],
    fades: bool,
    partitionable: bool,
    n: usize,
    part: ImagePart,
    limits: Limits,
    criticality: &[u32; 16],
    rows: &mut [u32; 16],
    first: &mut [u32; 16],
    second: &mut [u32; 16],
    returns: &mut [u32; 16],
    read: &[u8],
    controller: u32,
    out: &mut [u8],
) -> u32
    requires image_value { ((check_image image.now).number ≡ 0) × (n ≡ (state_of image.now).setup.n) × (fades ≡ fades_of (state_of image.now).setup.limits)
        × HeldBy (state_of image.now) part rows.old
        × CountedBy (turned_of (books_of (state_of image.now))) limits part.q criticality.now first.old second.old returns.old }
    requires partitionable_value { (partitionable ≡ (state_of image.now).setup.partitionable) × (length read.now ≡ read_words partitionable n * 4) × (controller < 2 ^ n)
        × (length out.old ≡ image_length (front_words fades) n (part.left - 1) partitionable) }
    ensures { (result ≡ (judgement_for (state_of image.now) (reading_of n read.now controller)).health)
        × (out.new ≡ image_of (after_round (state_of image.now) (reading_of n read.now controller)
        (views_seen partitionable n read.now controller))) }
{
    let front = front_words(fades);
    let place = place_in(image, front, part.own - 1);
    let own = pick(part.skew, part.earlier, part.latest);
    let mut this = [0u32; 16];
    let j = judged_read(
        n, part.view, part.skew, place, part.heard, own, read, controller, rows, &mut this,
    );
    let after = kept(
        limits,
        n,
        part.q,
        j.health,
        criticality,
        first,
        second,
        returns,
    );
    save_setup(image, front, n, part.left, out);
    save_sections(
        fades,
        n,
        part.own,
        after,
        j.heard,
        &this,
        j.syndrome,
        part.latest,
        out,
    );
    save_accounts(fades, n, first, second, returns, out);
    save_pending(image, front, n, part.left, out);
    if partitionable {
        let split = pick(part.skew, place, 0);
        save_views(
            image, front, n, part.left, split, read, controller, part.view, after, out,
        );
        return j.health;
    }
    j.health
}
