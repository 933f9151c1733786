// The check of a setup in lent bytes: numbers 1 to 6 and 22, each with the index of the first word that is wrong.
ghost use Rattle.std.specs.Prelude.{◌≡◌, ◌<◌, ◌≤◌, true, not, length};
ghost use Rattle.words.specs.Word.{word_at};
ghost use Rattle.words.specs.Verdict.{outcome};
ghost use Rattle.words.specs.Refusal.{told};
ghost use Rattle.setup.specs.Layout.{front_words, setup_length};
ghost use Rattle.setup.specs.Setup.{size_in, fades_in};
ghost use Rattle.setup.specs.Check.{module_test, module_tests, check_head, check_words, check_setup, check_front};

use crate::bounds::{check_limits, fades_at, front_words};
use crate::layout::setup_length;
use crate::word::{head_ok, mark_ok, module_ok};
use words::check::{each, single};
use words::word::word_at;
use words::{Number, Refusal};

// The N of the head word.
pub fn size_at(s: &[u8]) -> usize
    requires { 4 ≤ length s.now }
    ensures { result ≡ size_in (word_at s.now 0) }
{
    (word_at(s, 0) % 32) as usize
}

// Number 5, at the first module word that is wrong by it.
fn check_modules(s: &[u8], front: usize, n: usize) -> Result<(), Refusal>
    requires { (front ≤ 6) × (n ≤ 16) × (setup_length front n ≤ length s.now) }
    ensures { told result ≡ outcome (module_tests (word_at s.now) front n 5) }
{
    let right = |j: usize| module_ok(n, j, word_at(s, front + j));
    each(n, right, Number::Module, front)
}

// Number 6, at the first module word that is wrong by it.
fn check_marks(s: &[u8], front: usize, n: usize) -> Result<(), Refusal>
    requires { (front ≤ 6) × (n ≤ 16) × (setup_length front n ≤ length s.now) }
    ensures { told result ≡ outcome (module_tests (word_at s.now) front n 6) }
{
    let right = |j: usize| mark_ok(j, word_at(s, front + j));
    each(n, right, Number::Mark, front)
}

// Numbers 4 or 22, 5 and 6, of bytes that hold the words of n modules, whatever follows them.
pub fn check_words(s: &[u8], fades: bool, n: usize) -> Result<(), Refusal>
    requires { (n ≤ 16) × (setup_length (front_words fades) n ≤ length s.now) × (fades ≡ fades_in (word_at s.now)) }
    ensures { told result ≡ check_words s.now n }
{
    let front = front_words(fades);
    check_limits(s, fades)?;
    check_modules(s, front, n)?;
    check_marks(s, front, n)
}

// Numbers 1 and 2.
pub fn check_head(s: &[u8]) -> Result<(), Refusal>
    ensures { told result ≡ check_head s.now true }
{
    single((s.len() != 0) & (s.len() % 4 == 0), Number::Bytes, 0)?;
    single(head_ok(word_at(s, 0)), Number::Head, 0)
}

// Numbers 1 to 6 and 22 of a setup by itself.
pub fn check(s: &[u8]) -> Result<(), Refusal>
    ensures { told result ≡ check_setup s.now }
{
    check_head(s)?;
    let n = size_at(s);
    let fades = fades_at(s);
    let whole = s.len() == setup_length(front_words(fades), n);
    single(whole, Number::Length, 0)?;
    check_words(s, fades, n)
}

// Numbers 1 to 6 and 22 of the setup at the front of a run script.
pub fn check_front(s: &[u8]) -> Result<(), Refusal>
    ensures { told result ≡ check_front s.now }
{
    check_head(s)?;
    let n = size_at(s);
    let fades = fades_at(s);
    let room = setup_length(front_words(fades), n) <= s.len();
    single(room, Number::Length, 0)?;
    check_words(s, fades, n)
}
