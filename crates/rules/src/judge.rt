// Rules 4 to 7 together: what a module makes of the aligned rows, and the word that it hands out.
ghost use Rattle.std.specs.Prelude.{◌≡◌, ◌&&◌, ◌*◌, ◌^◌, ◌≤◌, ◌<◌, length};
ghost use Rattle.words.specs.Bits.{bit, pack};
ghost use Rattle.words.specs.Array.{array, Filled};
ghost use Rattle.rules.specs.Accusation.{accusations_of};
ghost use Rattle.rules.specs.Hearing.{reading_of};
ghost use Rattle.rules.specs.Alignment.{aligned_of};
ghost use Rattle.rules.specs.Syndrome.{syndrome_of, judgement_of, outgoing_of};

use crate::accuse::{accusations, clean};
use crate::hearing::bus_word;
use crate::splice::{aligned_heard, read_aligned};
use crate::{Judged, Judgement, Reading};
use vote::health::health;
use words::bits::{bit_at, from_fn, pick};

// Whose rows vote and can be accused: those present, of the modules in the view.
fn voters(n: usize, view: u32, heard: u32) -> u32
    requires { view < 2 ^ n }
    ensures { result ≡ pack n (λ j. bit view j && bit heard j) }
{
    view & heard
}

// Rule 6, from the comparison of rows and health vector and not from the accusations, which a caller may leave unused.
fn syndrome(n: usize, voters: u32, heard: u32, rows: &[u32; 16], health: u32) -> u32
    requires { n ≤ 16 }
    ensures { result ≡ syndrome_of n heard (accusations_of n voters rows.now health) }
{
    from_fn(
        n,
        |j| bit_at(heard, j) & clean(n, voters, rows[j], health, j),
    )
}

// Rules 4 to 6, by the view held at the end of the round before. An empty vote falls back on `own`.
pub fn judgement(n: usize, view: u32, aligned: Reading, own: u32) -> Judgement
    requires { (n ≤ 16) × (view < 2 ^ n) }
    ensures { result ≡ judgement_of n view aligned own }
{
    let voters = voters(n, view, aligned.heard);
    let rows = aligned.rows;
    let health = health(n, voters, &rows, own);
    let accusations = accusations(n, voters, rows, health);
    let syndrome = syndrome(n, voters, aligned.heard, &rows, health);
    Judgement {
        health,
        accusations,
        syndrome,
    }
}

// Rules 2 to 6 on lent arrays: the rows of this read in `this`, and those of the round that is voted on in `rows`, which holds those of the previous
// read, in which `before` were heard. What is lent is handed over piece by piece, and not in a struct: one caller would build it for this call alone.
pub fn judged_read(
    n: usize,
    view: u32,
    skew: bool,
    place: u32,
    before: u32,
    own: u32,
    read: &[u8],
    controller: u32,
    rows: &mut [u32; 16],
    this: &mut [u32; 16],
) -> Judged
    requires { (n ≤ 16) × (view < 2 ^ n) × (place < 31) × (n * 4 ≤ length read.now) × Filled n rows.old × (this.old ≡ array 0 (λ _. 0)) }
    ensures { (result.heard ≡ (reading_of n read.now controller).heard) × (this.new ≡ (reading_of n read.now controller).rows)
        × (result.health ≡ (judgement_of n view (aligned_of n skew place (record { heard = before; rows = rows.old }) (reading_of n read.now controller)) own).health)
        × (result.syndrome ≡ (judgement_of n view (aligned_of n skew place (record { heard = before; rows = rows.old }) (reading_of n read.now controller)) own).syndrome) }
{
    let split = pick(skew, place, 0);
    let heard = read_aligned(n, read, controller, split, rows, this);
    let aligned = aligned_heard(n, split, before, heard);
    let voters = voters(n, view, aligned);
    let health = health(n, voters, rows, own);
    let syndrome = syndrome(n, voters, aligned, rows, health);
    Judged {
        heard,
        health,
        syndrome,
    }
}

// Rule 7: the word handed out.
pub fn outgoing(mark: bool, latest: u32, syndrome: u32) -> u32
    requires { (latest < 2 ^ 28) × (syndrome < 2 ^ 28) }
    ensures { result ≡ outgoing_of mark latest syndrome }
{
    bus_word(pick(mark, latest, syndrome))
}
