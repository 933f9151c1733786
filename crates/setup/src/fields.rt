// The check of a setup that is already a struct: whether its words have room for it, then its words.
ghost use Rattle.std.specs.Prelude.{◌≡◌, ◌≤◌, length};
ghost use Rattle.words.specs.Refusal.{told};
ghost use Rattle.setup.specs.Layout.{setup_length};
ghost use Rattle.setup.specs.Setup.{front_of, setup_bytes};
ghost use Rattle.setup.specs.Check.{setup_roomy, room_verdict, check_words, setup_verdict};

use crate::Setup;
use crate::bounds::{fades, front_words, limits_room};
use crate::check::check_words;
use crate::layout::{PLACE, setup_length};
use crate::word::head_fits;
use crate::write::write_words;
use words::array::bounded;
use words::bits::power;
use words::check::single;
use words::{Number, Refusal};

// Whether read places and criticalities have room in their words, and nothing stands in the entries from n on.
fn roomy(setup: Setup) -> bool
    requires { setup.n ≤ 16 }
    ensures { result ≡ setup_roomy setup }
{
    (setup.marks < power(setup.n))
        & bounded(setup.n, 31, setup.places)
        & bounded(setup.n, PLACE - 1, setup.criticality)
}

// Number 2, 4, 22 or 5 where its words have no room for a setup.
fn room_verdict(setup: Setup) -> Result<(), Refusal>
    ensures { told result ≡ room_verdict setup }
{
    single(head_fits(setup.q, setup.n), Number::Head, 0)?;
    limits_room(setup.limits)?;
    single(roomy(setup), Number::Module, 0)
}

// Numbers 4 to 6 and 22 of its words, which are written to `out`.
fn words_verdict(setup: Setup, out: &mut [u8]) -> Result<(), Refusal>
    requires { ((room_verdict setup).number ≡ 0) × (length out.old ≡ setup_length (front_of setup) setup.n) }
    ensures { told result ≡ check_words (setup_bytes setup) setup.n }
{
    write_words(setup, out);
    check_words(out, fades(setup.limits), setup.n)
}

// Numbers 2, 4 to 6 and 22 of any setup.
pub fn verdict(setup: Setup) -> Result<(), Refusal>
    ensures { told result ≡ setup_verdict setup }
{
    room_verdict(setup)?;
    let mut out = [0u8; 88];
    let k = setup_length(front_words(fades(setup.limits)), setup.n);
    words_verdict(setup, &mut out[..k])
}
