// Where the words of a run script stand after its setup, and the limits of a script.
ghost use Rattle.std.specs.Prelude.{◌≡◌, ◌%◌, ◌≤◌, ◌<◌, length};
ghost use Rattle.script.specs.Words.{cast_at, events_at, is_partitionable};

use setup::bounds::{fades_at, front_words};
use setup::check::size_at;
use setup::layout::setup_words;
use words::bits::bit_at;
use words::word::word_at;

// How many bytes a script has at most.
pub const MOST_BYTES: usize = 65536;

// How many rounds one play has at most, and all plays together.
pub const MOST_OF_PLAY: u32 = 1000;

pub const MOST_ROUNDS: u32 = 100000;

// The cast.
pub fn cast_at(s: &[u8]) -> usize
    requires { (length s.now % 4 ≡ 0) × (4 ≤ length s.now) }
    ensures { (result ≡ cast_at s.now) × (result < 64) }
{
    setup_words(front_words(fades_at(s)), size_at(s))
}

// The first word after the cast.
pub fn events_at(s: &[u8]) -> usize
    requires { (length s.now % 4 ≡ 0) × (4 ≤ length s.now) }
    ensures { result ≡ events_at s.now }
{
    cast_at(s) + 1
}

// Whether the setup is partitionable.
pub fn partitionable_at(s: &[u8]) -> bool
    requires { 4 ≤ length s.now }
    ensures { result ≡ is_partitionable s.now }
{
    bit_at(word_at(s, 0), 5)
}
