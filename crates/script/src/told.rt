// Told words: the one or two words after a lie, which are taken as they are.
ghost use Rattle.std.specs.Prelude.{◌≡◌};
ghost use Rattle.script.specs.Words.{due_after, is_play, word_within};

use crate::Kind;
use words::bits::pick;
use words::word::word_at;

// How many told words are due after the word w, where `due` were due before it.
pub fn due_after(partitionable: bool, due: u32, w: u32) -> u32
    ensures { result ≡ due_after partitionable due w }
{
    if due != 0 {
        return due - 1;
    }
    pick(Kind::Lie.is(w), pick(partitionable, 2, 1), 0)
}

// Whether the word w is a play, and no told word.
pub fn is_play(due: u32, w: u32) -> bool
    ensures { result ≡ is_play due w }
{
    (due == 0) & Kind::Play.is(w)
}

// Word i, and 0 behind the last one.
pub fn word_within(s: &[u8], i: usize) -> u32
    ensures { result ≡ word_within s.now i }
{
    if i < s.len() / 4 { word_at(s, i) } else { 0 }
}
