// Which change may follow: numbers 23 and 24.
ghost use Rattle.std.specs.Prelude.{◌≡◌, ◌≤◌, get_or, eqb};
ghost use Rattle.words.specs.Count.{all};
ghost use Rattle.words.specs.Refusal.{told};
ghost use Rattle.changes.specs.Frame.{same_frame, may_follow, frame_verdict};

use crate::Pending;
use setup::Setup;
use setup::bounds::fades;
use words::check::single;
use words::{Number, Refusal};

// The most rounds ahead at which a change may take effect.
pub const MOST_LEAD: u32 = 1000;

// Whether the read places of n modules are the same.
fn same_places(n: usize, a: &[u32; 16], b: &[u32; 16]) -> bool
    requires { n ≤ 16 }
    ensures { result ≡ all n (λ j. eqb (get_or a.now j 0) (get_or b.now j 0)) }
{
    a[..n] == b[..n]
}

// Whether neither setup fades, and all but P, R and the criticalities is the same.
fn same_frame(setup: Setup, new: Setup) -> bool
    requires { setup.n ≤ 16 }
    ensures { result ≡ same_frame setup new }
{
    let count = !fades(setup.limits) & !fades(new.limits);
    let head = ((setup.n == new.n) & (setup.q == new.q))
        & (setup.partitionable == new.partitionable);
    let places = same_places(setup.n, &setup.places, &new.places);
    count & (head & ((setup.marks == new.marks) & places))
}

// Whether nothing is pending, and the lead is 1 to 1,000 rounds.
fn may_follow(pending: Pending, lead: u32) -> bool
    ensures { result ≡ may_follow pending lead }
{
    (pending.left == 0) & ((1 <= lead) & (lead <= MOST_LEAD))
}

// Number 23, then 24.
pub fn frame_verdict(setup: Setup, pending: Pending, new: Setup, lead: u32) -> Result<(), Refusal>
    requires { setup.n ≤ 16 }
    ensures { told result ≡ frame_verdict setup pending new lead }
{
    single(same_frame(setup, new), Number::Frame, 0)?;
    single(may_follow(pending, lead), Number::Pending, 0)
}
