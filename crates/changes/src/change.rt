// What a pending change holds: made, and tested for room in its words.
ghost use Rattle.std.specs.Prelude.{◌≡◌, ◌≤◌};
ghost use Rattle.changes.specs.Pending.{nothing, penalty_limit_of, reward_limit_of, pending_of, pending_roomy};

use crate::Pending;
use setup::layout::PLACE;
use setup::{Limits, Setup};
use words::array::bounded;
use words::bits::pick;
use words::word::KIND;

// No change is pending.
pub fn nothing() -> Pending
    ensures { result ≡ nothing }
{
    Pending {
        left: 0,
        p: 0,
        r: 0,
        criticality: [0; 16],
    }
}

// P and R, or 0 and 0 where a setup fades.
fn counting_limits(limits: Limits) -> (u32, u32)
    ensures { (result.0 ≡ penalty_limit_of limits) × (result.1 ≡ reward_limit_of limits) }
{
    match limits {
        Limits::Counts(p, r) => (p, r),
        Limits::Fading(_, _) => (0, 0),
    }
}

// The new P, R and criticalities of a setup, so many rounds ahead.
pub fn pending_of(new: Setup, lead: u32) -> Pending
    ensures { result ≡ pending_of new lead }
{
    let (p, r) = counting_limits(new.limits);
    let criticality = new.criticality;
    Pending {
        left: lead,
        p,
        r,
        criticality,
    }
}

// Whether what is pending has room in its words, and nothing stands in what no word shows.
pub fn pending_roomy(n: usize, c: Pending) -> bool
    requires { n ≤ 16 }
    ensures { result ≡ pending_roomy n c }
{
    let none = c.left == 0;
    let room = pick(none, 1, KIND);
    let many = pick(none, 0, n as u32) as usize;
    ((c.p < room) & (c.r < room)) & bounded(many, PLACE - 1, c.criticality)
}
