// The setup of a run script as a part of the caller's bytes.
ghost use Rattle.std.specs.Prelude.{◌≡◌};
ghost use Rattle.setup.specs.Check.{setup_part};

use crate::bounds::{fades_at, front_words};
use crate::check::{check_front, size_at};
use crate::layout::setup_length;

// The first N + 3 words, or N + 6 where it fades, or nothing where the setup is refused.
pub fn part(s: &[u8]) -> &[u8]
    ensures { result.now ≡ setup_part s.now }
{
    if check_front(s).is_err() {
        return &s[..0];
    }
    let k = setup_length(front_words(fades_at(s)), size_at(s));
    &s[..k]
}
