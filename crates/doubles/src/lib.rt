// Doubles in lent bytes: two words each, high half first.
#![tactic(auto)]

pub mod array;

ghost use Rattle.std.specs.Prelude.{◌≡◌, true, false, not, ◌+◌, ◌*◌, ◌≤◌, ◌<◌, ◌^◌, length};
ghost use Rattle.std.specs.Float.{binary64};
ghost use Rattle.std.specs.Float.Ieee.{of_bits, to_bits};
ghost use Rattle.words.specs.Word.{word_at, put_word};
ghost use Rattle.doubles.specs.Double.{of_words, double_in, high_word, low_word, non_negative, is_double};

use words::word::{put_word, word_at};

// A word as a number of 64 bits.
fn wide(w: u32) -> u64
    ensures { result ≡ w }
{
    w as u64
}

// The double of a bit pattern, whatever the pattern.
pub fn double_of(bits: u64) -> f64
    ensures { result ≡ of_bits binary64 bits }
{
    if 0x7ff0000000000000 < bits % 0x8000000000000000 {
        return 0.0 / 0.0;
    }
    f64::from_bits(bits)
}

// The bit pattern of a double; of the NaNs one stands for all.
pub fn bits_of(x: f64) -> u64
    ensures { result ≡ to_bits binary64 x }
{
    if x != x {
        return 0x7ff8000000000000;
    }
    f64::to_bits(x)
}

// Every value of the type is a double of the format.
pub fn is_double(x: f64) -> bool
    ensures { result ≡ is_double x }
{
    true
}

// Whether x is a number from 0 up. Minus zero is not.
pub fn is_non_negative(x: f64) -> bool
    ensures { result ≡ non_negative x }
{
    bits_of(x) < 0x7ff0000000000000
}

// The double of two words, the high half first.
pub fn of_words(high: u32, low: u32) -> f64
    ensures { result ≡ of_words high low }
{
    double_of(wide(high) * 4294967296 + wide(low))
}

// The two words that a double is written as.
pub fn high_word(x: f64) -> u32
    ensures { result ≡ high_word x }
{
    (bits_of(x) / 4294967296) as u32
}

pub fn low_word(x: f64) -> u32
    ensures { result ≡ low_word x }
{
    (bits_of(x) % 4294967296) as u32
}

// The double in words i and i + 1.
pub fn double_at(s: &[u8], i: usize) -> f64
    requires { i * 4 + 8 ≤ length s.now }
    ensures { result ≡ double_in (word_at s.now) i }
{
    of_words(word_at(s, i), word_at(s, i + 1))
}

// Writes a double as words i and i + 1.
pub fn put_double(s: &mut [u8], i: usize, x: f64)
    requires { i * 4 + 8 ≤ length s.old }
    ensures { s.new ≡ put_word (put_word s.old i (high_word x)) (i + 1) (low_word x) }
{
    put_word(s, i, high_word(x));
    put_word(s, i + 1, low_word(x));
}
