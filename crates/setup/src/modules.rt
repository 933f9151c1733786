// The module words in one pass without a branch: their criticalities, and what the words say together.
ghost use Rattle.std.specs.Prelude.{◌≡◌, ◌+◌, ◌<◌, ◌≤◌, true, not, length, ◌==◌};
ghost use Rattle.words.specs.Word.{word_at};
ghost use Rattle.words.specs.Array.{array};
ghost use Rattle.words.specs.Count.{all, any};
ghost use Rattle.setup.specs.Layout.{setup_length};
ghost use Rattle.setup.specs.Setup.{place_in, criticality_in};
ghost use Rattle.setup.specs.Modules.{module_right, marked_place, place_mark_fits, fields_fit};

use crate::ModulesPart;
use crate::layout::{MOST_CRITICALITY, PLACE};
use std::num::wrapping_sub_u32;
use words::word::{gap, word_at};

// Send mark and read place of module j + 1 as one number; a word of another kind or number gives 64 or more.
fn marked_place(j: usize, w: u32) -> u32
    requires { j < 16 }
    ensures { result ≡ marked_place j w }
{
    gap(4, j, w) / PLACE
}

// A read place up to n without a send mark; with one, which adds 32, up to j on a module other than 1.
fn place_mark_fits(n: usize, j: usize, place: u32) -> bool
    requires { (n ≤ 16) × (j < 16) }
    ensures { result ≡ place_mark_fits n j place }
{
    (place <= n as u32) | ((0 < j) & (wrapping_sub_u32(place, 32) <= j as u32))
}

// A criticality from 1 to 100,000, a read place and send mark that fit.
fn fields_fit(n: usize, j: usize, place: u32, criticality: u32) -> bool
    requires { (n ≤ 16) × (j < 16) }
    ensures { result ≡ fields_fit n j place criticality }
{
    ((1 <= criticality) & (criticality <= MOST_CRITICALITY)) & place_mark_fits(n, j, place)
}

// The criticalities of the modules, which are put into an array of zeros, and what the words say together.
pub fn load_modules(s: &[u8], front: usize, n: usize, criticality: &mut [u32; 16]) -> ModulesPart
    requires { (front ≤ 6) × (n ≤ 16) × (setup_length front n ≤ length s.now) × (criticality.old ≡ array 0 (λ _. 0)) }
    ensures { (result.good ≡ all n (λ j. module_right n j (word_at s.now (front + j))))
        × (criticality.new ≡ array n (λ j. criticality_in (word_at s.now (front + j))))
        × (result.good ≡ true → result.skew ≡ any n (λ j. not (place_in (word_at s.now (front + j)) == n))) }
{
    let mut good = true;
    let mut skew = false;
    for j in 0..n {
        let w = word_at(s, front + j);
        let place = marked_place(j, w);
        let c = w % PLACE;
        good = good & fields_fit(n, j, place, c);
        skew = skew | (place != n as u32);
        criticality[j] = c;
    }
    ModulesPart { good, skew }
}
