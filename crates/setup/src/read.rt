// Reading a setup from lent bytes.
ghost use Rattle.std.specs.Prelude.{◌≡◌, ◌≤◌, length};
ghost use Rattle.words.specs.Word.{word_at};
ghost use Rattle.words.specs.Verdict.{all_right};
ghost use Rattle.setup.specs.Layout.{front_words, setup_length};
ghost use Rattle.setup.specs.Setup.{size_in, fades_in, setup_of, blank_setup};
ghost use Rattle.setup.specs.Check.{word_tests, read_setup, read_told};

use crate::bounds::{fades_at, front_words, limits_at, limits_right};
use crate::check::{check, size_at};
use crate::layout::PLACE;
use crate::word::{mark_ok, module_ok};
use crate::{Limits, Setup, SetupPart};
use words::Refusal;
use words::bits::{bit_at, with_bit};
use words::word::{field, word_at};

// What is answered where no setup was accepted: all zeros.
pub fn blank() -> Setup
    ensures { result ≡ blank_setup }
{
    let places = [0u32; 16];
    let criticality = [0u32; 16];
    Setup {
        n: 0,
        q: 0,
        partitionable: false,
        limits: Limits::Counts(0, 0),
        marks: 0,
        places,
        criticality,
    }
}

// The setup that the words of n modules hold, and whether those after the head are right, in one pass.
pub fn load_setup(s: &[u8], fades: bool, n: usize) -> SetupPart
    requires { (n ≤ 16) × (setup_length (front_words fades) n ≤ length s.now) × (n ≡ size_in (word_at s.now 0)) × (fades ≡ fades_in (word_at s.now)) }
    ensures { (result.good ≡ all_right (word_tests s.now n)) × (result.setup ≡ setup_of s.now) }
{
    let head = word_at(s, 0);
    let front = front_words(fades);
    let right = limits_right(s, fades);
    let limits = limits_at(s, fades);
    let mut good = true;
    let mut marks: u32 = 0;
    let mut places = [0u32; 16];
    let mut criticality = [0u32; 16];
    for j in 0..n {
        let w = word_at(s, front + j);
        good = good & (module_ok(n, j, w) & mark_ok(j, w));
        marks = with_bit(marks, j, bit_at(w, 22));
        places[j] = field(w, 17, 5);
        criticality[j] = w % PLACE;
    }
    SetupPart {
        good: right & good,
        setup: Setup {
            n,
            q: field(head, 8, 20),
            partitionable: bit_at(head, 5),
            limits,
            marks,
            places,
            criticality,
        },
    }
}

// Numbers 1 to 6 and 22, and the setup where none of them refuses it.
pub fn read(s: &[u8]) -> Result<Setup, Refusal>
    ensures { read_told result ≡ read_setup s.now }
{
    check(s)?;
    let part = load_setup(s, fades_at(s), size_at(s));
    Ok(part.setup)
}
