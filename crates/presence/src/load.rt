// Reading a saved state: one pass gives the state and whether all its words are right.
ghost use Rattle.std.specs.Prelude.{◌≡◌, ◌≤◌, Option, Some, None, if◌then◌else◌, length};
ghost use Rattle.words.specs.Word.{word_at};
ghost use Rattle.words.specs.Verdict.{is_accepted, all_right};
ghost use Rattle.setup.specs.Layout.{front_words};
ghost use Rattle.setup.specs.Limits.{most_return_limit};
ghost use Rattle.setup.specs.Setup.{size_in, partitionable_in, fades_in, return_limit_in};
ghost use Rattle.views.specs.Section.{views_in};
ghost use Rattle.image.specs.Layout.{left_at, views_at, image_length};
ghost use Rattle.image.specs.Check.{image_tests, check_image};
ghost use Rattle.presence.specs.Opening.{opened_told};
ghost use Rattle.presence.specs.Image.{state_of, load_of};

use crate::State;
use changes::section::{check_change, load_change};
use image::check::{check_image, image_size};
use image::{left_at, lent_counters, load_accounts, load_rows, load_words, views_at, views_good};
use rules::Reading;
use setup::bounds::{fades_at, front_words};
use setup::read::load_setup;
use views::Views;
use views::after::no_views;
use views::section::load_views;
use words::Refusal;
use words::word::word_at;

// The views of an image, by head bit 5.
fn views_of(s: &[u8], partitionable: bool, front: usize, n: usize, left: u32) -> Views
    requires { (front ≤ 6) × (n ≤ 16) × (length s.now ≡ image_length front n left partitionable) }
    ensures { result ≡ views_in partitionable s.now n (views_at front n left) }
{
    if partitionable {
        return load_views(s, n, views_at(front, n, left));
    }
    no_views()
}

// The state where all words are right, found in one pass, in an image whose head and length are.
fn load(s: &[u8], fades: bool, n: usize) -> Option<State>
    requires { (n ≤ 16) × (length s.now ≡ image_length (front_words fades) n (word_at s.now (left_at (front_words fades) n)) (partitionable_in (word_at s.now 0))) × (n ≡ size_in (word_at s.now 0)) × (fades ≡ fades_in (word_at s.now))
        × (return_limit_in (word_at s.now 0) ≤ most_return_limit) }
    ensures { result ≡ (if all_right (image_tests s.now n) then Some (state_of s.now) else None) }
{
    let first = load_setup(s, fades, n);
    if !first.good {
        return None;
    }
    let setup = first.setup;
    let front = front_words(fades);
    let alone = load_words(s, front, n);
    let mut rows = [0u32; 16];
    let mut x = [0u32; 16];
    let mut y = [0u32; 16];
    let mut returns = [0u32; 16];
    let read = load_rows(s, front, n, &mut rows);
    let right = load_accounts(
        s,
        setup.limits,
        n,
        setup.q,
        &setup.criticality,
        alone.view,
        &mut x,
        &mut y,
        &mut returns,
    );
    let at = left_at(front, n);
    let change = check_change(s, fades, n, at);
    let left = word_at(s, at);
    let agreed = views_good(s, setup.partitionable, front, n, alone.view, left);
    let good = alone.good & (read.good & (right & (change.is_ok() & agreed)));
    good.then_some(State {
        setup,
        own: alone.own,
        counters: lent_counters(fades, n, alone.view, x, y, returns),
        previous: Reading {
            heard: read.heard,
            rows,
        },
        latest: alone.latest,
        earlier: alone.earlier,
        pending: load_change(s, n, at),
        views: views_of(s, setup.partitionable, front, n, left),
    })
}

// The state of an image that is accepted.
fn accepted(image: &[u8]) -> Option<State>
    ensures { result ≡ (if is_accepted (check_image image.now) then Some (state_of image.now) else None) }
{
    let n = image_size(image)?;
    load(image, fades_at(image), n)
}

impl State {
    // Reads a saved state: numbers 1 to 8 and 22, and the state where none of them refuses it. Only of a refused image is it asked which word is wrong.
    pub fn load(image: &[u8]) -> Result<State, Refusal>
        ensures { opened_told result ≡ load_of image.now }
    {
        match accepted(image) {
            Some(state) => Ok(state),
            None => Err(check_image(image).unwrap_err()),
        }
    }
}
