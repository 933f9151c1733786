// The check of a run script in lent bytes: 16, then 1 to 6 and 22, then 12, 13 and 15 word by word, 14 last.
ghost use Rattle.std.specs.Prelude.{◌≡◌, ◌-◌, ◌/◌, ◌%◌, ◌≤◌, length};
ghost use Rattle.words.specs.Verdict.{single as single_of, outcome};
ghost use Rattle.words.specs.Refusal.{told};
ghost use Rattle.script.specs.Words.{most_bytes, most_rounds, cast_ok, event_ok, play_ok};
ghost use Rattle.script.specs.Check.{play_refusal, event_refusal, word_refusal, number_told, scanned, finished, scan, unscanned, check_play, check_script};

use crate::layout::{MOST_BYTES, MOST_OF_PLAY, MOST_ROUNDS, cast_at, partitionable_at};
use crate::told::{due_after, is_play};
use crate::{Kind, Scan};
use setup::check::{check_front, size_at};
use words::bits::{bit_at, pick, power};
use words::check::single;
use words::word::{KIND, NUMBER, field, word_at};
use words::{Number, Refusal};

// Kind 6, no bit at n or above.
fn cast_ok(n: usize, w: u32) -> bool
    requires { n ≤ 16 }
    ensures { result ≡ cast_ok n w }
{
    Kind::Cast.is(w) & (w % KIND < power(n))
}

// A sender from 1 to n; a mask that is not empty, without spare bits and bits at n or above.
fn event_ok(n: usize, w: u32) -> bool
    requires { n ≤ 16 }
    ensures { result ≡ event_ok n w }
{
    let sender = field(w, 23, 5) as usize;
    let receivers = w % NUMBER;
    (1 <= sender) & (sender <= n) & (0 < receivers) & (receivers < power(n))
}

// Kind 9, from 1 to 1,000 rounds.
fn play_ok(w: u32) -> bool
    ensures { result ≡ play_ok w }
{
    let rounds = w % KIND;
    Kind::Play.is(w) & ((1 <= rounds) & (rounds <= MOST_OF_PLAY))
}

// Number 12 of a play w that is wrong, then 15.
fn play_refusal(rounds: u32, w: u32) -> Result<(), Number>
    requires { rounds ≤ most_rounds }
    ensures { number_told result ≡ play_refusal rounds w }
{
    if !play_ok(w) {
        return Err(Number::Script);
    }
    if MOST_ROUNDS < rounds + w % KIND {
        return Err(Number::Rounds);
    }
    Ok(())
}

// Number 12 of a loss or a lie w that is wrong, then 13.
fn event_refusal(n: usize, cast: u32, w: u32) -> Result<(), Number>
    requires { n ≤ 16 }
    ensures { number_told result ≡ event_refusal n cast w }
{
    let loss = Kind::Loss.is(w);
    if !((loss | Kind::Lie.is(w)) & event_ok(n, w)) {
        return Err(Number::Script);
    }
    let sender = field(w, 23, 5) as usize;
    if !(loss | bit_at(cast, sender - 1)) {
        return Err(Number::Follower);
    }
    Ok(())
}

impl Scan {
    // The refusal of the word w. A told word that is due is taken as it is.
    fn word_refusal(self, n: usize, cast: u32, w: u32) -> Result<(), Number>
        requires { (n ≤ 16) × (self.rounds ≤ most_rounds) }
        ensures { number_told result ≡ word_refusal n cast self w }
    {
        if self.due != 0 {
            return Ok(());
        }
        if Kind::Play.is(w) {
            return play_refusal(self.rounds, w);
        }
        event_refusal(n, cast, w)
    }

    // What is known after the word w.
    fn scanned(self, partitionable: bool, w: u32) -> Scan
        requires { self.rounds ≤ most_rounds }
        ensures { result ≡ scanned partitionable self w }
    {
        let play = is_play(self.due, w);
        Scan {
            due: due_after(partitionable, self.due, w),
            pending: !play,
            rounds: pick(play, self.rounds + w % KIND, self.rounds),
        }
    }

    // No told word missing, every event played, at least one play.
    fn finished(self) -> bool
        ensures { result ≡ finished self }
    {
        (self.due == 0) & !self.pending & (0 < self.rounds)
    }

    // Number 14, at the word count.
    fn ended(self, count: usize) -> Result<(), Refusal>
        requires { count ≤ 16384 }
        ensures { told result ≡ outcome (single_of (finished self) 14 count) }
    {
        single(self.finished(), Number::Unplayed, count)
    }
}

// Numbers 12, 13 and 15 word by word from `from` on, then 14.
fn check_tail(s: &[u8], n: usize, cast: u32, from: usize) -> Result<(), Refusal>
    requires { (n ≤ 16) × (length s.now ≤ most_bytes) × (from ≤ length s.now / 4) × (4 ≤ length s.now) }
    ensures { told result ≡ scan s.now n cast (length s.now / 4 - from) from unscanned }
{
    let count = s.len() / 4;
    let partitionable = partitionable_at(s);
    let mut so_far = Scan {
        due: 0,
        pending: false,
        rounds: 0,
    };
    for at in from..count {
        let w = word_at(s, at);
        if let Err(number) = so_far.word_refusal(n, cast, w) {
            return Err(number.at(at));
        }
        let next = so_far.scanned(partitionable, w);
        so_far = next;
    }
    so_far.ended(count)
}

// From the cast on.
fn check_play(s: &[u8], n: usize) -> Result<(), Refusal>
    requires { (n ≤ 16) × (length s.now ≤ most_bytes) × (length s.now % 4 ≡ 0) × (4 ≤ length s.now) }
    ensures { told result ≡ check_play s.now n }
{
    let count = s.len() / 4;
    let place = cast_at(s);
    single(place < count, Number::Unplayed, count)?;
    let w = word_at(s, place);
    single(cast_ok(n, w), Number::Script, place)?;
    check_tail(s, n, w % KIND, place + 1)
}

// Numbers 16, 1 to 6 and 22, 12 to 15 of a run script.
pub fn check(s: &[u8]) -> Result<(), Refusal>
    ensures { told result ≡ check_script s.now }
{
    single(s.len() <= MOST_BYTES, Number::Long, 0)?;
    check_front(s)?;
    check_play(s, size_at(s))
}
