// What is written of the output. Only this file writes to standard output, and only it can raise the count of parts: so a count of k means that
// part 0, part 1 and on to part k - 1 were handed to `write`, each in its turn.
ghost use Rattle.std.specs.Prelude.{◌≡◌, true, ◌+◌, ◌<◌};
ghost use Rattle.script.specs.Words.{most_rounds};
ghost use Rattle.backplane.specs.Output.{part_of};

// How many parts are written, and whether standard output took them whole.
#[derive(Clone, Copy)]
pub struct Written {
    parts: u32,
    whole: bool,
}

impl Written {
    // Nothing so far.
    pub fn nothing() -> Written
        ensures { (result.parts ≡ 0) × (result.whole ≡ true) }
    {
        Written {
            parts: 0,
            whole: true,
        }
    }

    // Writes the next part of what the bench writes for a script. A part that was not taken is not forgotten.
    pub fn with_part(self, script: &[u8], part: &[u8]) -> Written
        requires { (self.parts < most_rounds) × (part.now ≡ part_of script.now self.parts) }
        ensures { (result.parts ≡ self.parts + 1) × ((result.whole ≡ true → self.whole ≡ true)) }
    {
        let took = io::write_all(1, part);
        let parts = self.parts + 1;
        Written {
            parts,
            whole: self.whole & took,
        }
    }

    // Whether standard output took all that was written.
    pub fn is_whole(self) -> bool
        ensures { result ≡ self.whole }
    {
        self.whole
    }
}
