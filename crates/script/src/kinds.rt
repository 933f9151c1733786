// The kinds of the words of a run script.
ghost use Rattle.std.specs.Prelude.{◌≡◌, eqb};
ghost use Rattle.script.specs.Words.{kind_of, kind_number};

use crate::Kind;
use words::word::KIND;

impl Kind {
    // Whether the word w is of this kind.
    pub fn is(self, w: u32) -> bool
        ensures { result ≡ eqb (kind_of w) (kind_number self) }
    {
        w / KIND == self as u32
    }
}
