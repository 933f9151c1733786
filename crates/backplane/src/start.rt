// The start of a run script, and its end.
ghost use Rattle.std.specs.Prelude.{◌≡◌};
ghost use Rattle.backplane.specs.Run.{start_of, start_told};

use crate::{Backplane, Run};
use script::check::check;
use script::{Cursor, cast_at};
use setup::part::part;
use setup::read::read;
use words::Refusal;
use words::word::{KIND, word_at};

impl Run {
    // Checks a run script, and starts it where it is accepted: its setup is accepted then.
    pub fn start(s: &[u8]) -> Result<Run, Refusal>
        ensures { start_told result ≡ start_of s.now }
    {
        check(s)?;
        let setup = read(part(s))?;
        let cast = word_at(s, cast_at(s)) % KIND;
        let cursor = Cursor::start(s);
        let backplane = Backplane::open(setup, cast);
        Ok(Run { cursor, backplane })
    }

    // Whether the script is over.
    pub fn over(self) -> bool
        ensures { result ≡ self.cursor.over }
    {
        self.cursor.over
    }
}
