// How the rule-followers hear the senders of a round.
ghost use Rattle.std.specs.Prelude.{◌≡◌, ◌+◌, ◌*◌, ◌≤◌, ◌<◌, get_or};
ghost use Rattle.words.specs.Bits.{pack};
ghost use Rattle.agreement.specs.Fault.{follows_in, first_follower};
ghost use Rattle.bus.specs.Heard.{heard_word, heard_words, otherwise};
ghost use Rattle.bus.specs.Senders.{hearing_of};

use crate::{Bus, Hearing};
use rules::hearing::receive;
use words::bits::{bit_at, from_fn, pick};

// The word w where it is heard, else 0, which no heard word is.
fn heard_word(n: usize, on: bool, w: u32) -> u32
    requires { n ≤ 16 }
    ensures { result ≡ heard_word n on w }
{
    pick(receive(n, on, w).is_ok(), w, 0)
}

// The heard words of all receivers.
fn heard_words(n: usize, bits: &[u32; 16], words: &[u32; 256]) -> [u32; 256]
    requires { n ≤ 16 }
    ensures { result ≡ heard_words n bits.now words.now }
{
    let mut heard = [0u32; 256];
    for x in 0..256 {
        heard[x] = heard_word(n, bit_at(bits[x / 16], x % 16), words[x]);
    }
    heard
}

// The lowest rule-follower's number less one, or 0 where there is none.
pub fn first_follower(n: usize, cast: u32) -> usize
    requires { n ≤ 16 }
    ensures { result ≡ first_follower n (follows_in cast) }
{
    (0..n).find(|&i| !bit_at(cast, i)).unwrap_or(0)
}

// Whether a rule-follower has another word of sender j + 1 than w.
fn otherwise(n: usize, cast: u32, heard: &[u32; 256], j: usize, w: u32) -> bool
    requires { (n ≤ 16) × (j < 16) }
    ensures { result ≡ otherwise n cast heard.now j w }
{
    let mut some = false;
    for i in 0..n {
        some = some | (!bit_at(cast, i) & (heard[i * 16 + j] != w));
    }
    some
}

// The senders of which a rule-follower has another word than the rule-follower i + 1.
fn half_heard(n: usize, cast: u32, heard: &[u32; 256], i: usize) -> u32
    requires { (n ≤ 16) × (i < 16) }
    ensures { result ≡ pack n (λ j. otherwise n cast heard.now j (get_or heard.now (i * 16 + j) 0)) }
{
    from_fn(n, |j| otherwise(n, cast, heard, j, heard[i * 16 + j]))
}

// The senders that a rule-follower hears.
fn heard_senders(n: usize, cast: u32, heard: &[u32; 256]) -> u32
    requires { n ≤ 16 }
    ensures { result ≡ pack n (λ j. otherwise n cast heard.now j 0) }
{
    from_fn(n, |j| otherwise(n, cast, heard, j, 0))
}

// How the rule-followers hear the senders of a round.
pub fn hearing(n: usize, cast: u32, bus: Bus) -> Hearing
    requires { n ≤ 16 }
    ensures { result ≡ hearing_of n cast bus }
{
    let heard = heard_words(n, &bus.bits, &bus.words);
    let i = first_follower(n, cast);
    Hearing {
        half: half_heard(n, cast, &heard, i),
        heard: heard_senders(n, cast, &heard),
    }
}
