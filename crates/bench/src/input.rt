// What is read from standard input. Only this file reads it, and only it can make an `Input`.
//
// No contract can say which bytes a read brings: that an input's bytes are those that `read_full` brought, and that `got` is how many it says they
// are, is read off the three lines of `read`.
ghost use Rattle.std.specs.Prelude.{◌≡◌, length, take};
ghost use Rattle.io.specs.Counts.{IsPrefixLen};
ghost use Rattle.backplane.specs.Output.{read_most, parts_of};

use crate::play;
use crate::written::Written;

// Room for what is read, and how many bytes of it were read: two fields, since a read fills lent bytes and answers how many, and the contract of `read`
// promises something of both.
#[derive(Clone, Copy)]
pub struct Input {
    bytes: [u8; 65537],
    got: usize,
}

impl Input {
    // Reads standard input to its end, or as far as one byte more than a script may have: a longer one is then seen to be too long.
    pub fn read() -> Input
        ensures { (length result.bytes ≡ read_most) × IsPrefixLen result.got result.bytes }
    {
        let mut bytes = [0u8; 65537];
        let got = io::read_full(0, &mut bytes);
        Input { bytes, got }
    }

    // Plays what was read, and nothing else.
    pub fn play(&self) -> Written
        requires { IsPrefixLen self.now.got self.now.bytes }
        ensures { result.parts ≡ parts_of (take self.now.got self.now.bytes) }
    {
        play(&self.bytes[..self.got])
    }
}
