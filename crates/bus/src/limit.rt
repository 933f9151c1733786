// The fault limit.
ghost use Rattle.std.specs.Prelude.{◌≡◌, ◌≤◌};
ghost use Rattle.words.specs.Bits.{bit};
ghost use Rattle.agreement.specs.Fault.{follows_in, kept_over};
ghost use Rattle.bus.specs.Senders.{senders_in};

use crate::Hearing;
use words::bits::{bit_at, flag};

// Whether the limit is kept over a round and the round u + 1 before it: m, s and b count modules in the view, and a all modules.
pub fn kept_over(n: usize, cast: u32, view: u32, now: Hearing, then: Hearing) -> bool
    requires { n ≤ 16 }
    ensures { result ≡ kept_over n (follows_in cast) (bit view) (senders_in now) (senders_in then) }
{
    let mut m: u32 = 0;
    let mut a: u32 = 0;
    let mut s: u32 = 0;
    let mut b: u32 = 0;
    for j in 0..n {
        let counts = bit_at(view, j);
        let here = bit_at(now.heard, j);
        let there = bit_at(then.heard, j);
        let half = bit_at(now.half, j) | bit_at(then.half, j);
        let breaker = !half & (bit_at(cast, j) & (here | there));
        m += flag(counts);
        a += flag(half);
        s += flag(counts & breaker);
        b += flag(counts & (!half & (!breaker & (!here | !there))));
    }
    (a + s == 0) | ((a <= 1) & (2 * a + 2 * s + b + 1 < m))
}
