// Rule 2: which modules are heard in a read, and with which rows, and why one is not heard. And how a row is sent.
ghost use Rattle.std.specs.Prelude.{◌≡◌, ◌+◌, ◌*◌, ◌^◌, ◌≤◌, ◌<◌, length};
ghost use Rattle.words.specs.Bits.{bit};
ghost use Rattle.words.specs.Word.{word_at};
ghost use Rattle.rules.specs.Hearing.{bus_word, cause_code, reception_of, cause_in, reading_of, causes_of};

use crate::{Cause, Reading};
use words::array::from_fn;
use words::bits::{bit_at, power, with_bit};
use words::word::{KIND, word_at};

impl Cause {
    // The code of the cause, as C and the page have it.
    pub fn code(self) -> u32
        ensures { result ≡ cause_code self }
    {
        self as u32
    }
}

// The bus word of a syndrome.
pub fn bus_word(v: u32) -> u32
    requires { v < 2 ^ 28 }
    ensures { result ≡ bus_word v }
{
    5 * KIND + v
}

// Reads a bus word: its controller bit is `on`. A word is heard, and then has a row, where this says so, and nowhere else is it decided.
// That it is heard is one test of three conditions, so that a step reads a word without a branch.
pub fn receive(n: usize, on: bool, w: u32) -> Result<u32, Cause>
    requires { n < 32 }
    ensures { result ≡ reception_of n on w }
{
    let row = w % KIND;
    let heard = on & (w / KIND == 5) & (row < power(n));
    if heard {
        return Ok(row);
    }
    if !on {
        return Err(Cause::ControllerLoss);
    }
    if w / KIND != 5 {
        return Err(Cause::WrongKind);
    }
    Err(Cause::StrayBits)
}

// Module j + 1 of a read.
pub(crate) fn received(n: usize, read: &[u8], controller: u32, j: usize) -> Result<u32, Cause>
    requires { (n < 32) × (j < 16) × (j * 4 + 4 ≤ length read.now) }
    ensures { result ≡ reception_of n (bit controller j) (word_at read.now j) }
{
    receive(n, bit_at(controller, j), word_at(read, j))
}

// The code of the cause for which a word is not heard, 0 where it is.
#[tactic(auto, unfolding(crate::specs::Hearing::cause_in))]
pub fn cause_in(reception: Result<u32, Cause>) -> u32
    ensures { result ≡ cause_in reception }
{
    match reception {
        Ok(_) => 0,
        Err(cause) => cause.code(),
    }
}

// All modules of a read.
pub fn reading(n: usize, read: &[u8], controller: u32) -> Reading
    requires { (n ≤ 16) × (n * 4 ≤ length read.now) }
    ensures { result ≡ reading_of n read.now controller }
{
    let mut heard: u32 = 0;
    let mut rows = [0u32; 16];
    for j in 0..n {
        let r = received(n, read, controller, j);
        heard = with_bit(heard, j, r.is_ok());
        rows[j] = r.unwrap_or(0);
    }
    Reading { heard, rows }
}

// The causes of a read, by their codes; 0 from n on. They are found apart from the reading: who needs none does not pay for them.
#[tactic(auto, unfolding(crate::specs::Hearing::causes_of))]
pub fn causes(n: usize, read: &[u8], controller: u32) -> [u32; 16]
    requires { (n ≤ 16) × (n * 4 ≤ length read.now) }
    ensures { result ≡ causes_of n read.now controller }
{
    from_fn(n, |j| cause_in(received(n, read, controller, j)))
}
