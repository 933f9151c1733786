// Writing a setup as words.
ghost use Rattle.std.specs.Prelude.{◌≡◌, ◌^◌, ◌<◌, ◌≤◌, length, slice_index};
ghost use Rattle.words.specs.Bits.{bit};
ghost use Rattle.words.specs.Runs.{put_run};
ghost use Rattle.words.specs.Refusal.{told};
ghost use Rattle.setup.specs.Layout.{setup_length};
ghost use Rattle.setup.specs.Setup.{head_word, module_word, front_of, setup_bytes};
ghost use Rattle.setup.specs.Check.{room_verdict, write_verdict, written_setup};

use crate::Setup;
use crate::bounds::{fades, front_words, put_limits};
use crate::fields::verdict;
use crate::layout::{MARK, PARTITIONABLE, PLACE, RETURN, setup_length};
use words::bits::{bit_at, flag};
use words::check::single;
use words::word::{KIND, NUMBER, put_word};
use words::{Number, Refusal};

// The head.
fn head_word(q: u32, partitionable: bool, n: usize) -> u32
    requires { (q < 2 ^ 20) × (n ≤ 16) }
    ensures { result ≡ head_word q partitionable n }
{
    KIND + q * RETURN + flag(partitionable) * PARTITIONABLE + n as u32
}

// The word of module j + 1.
pub fn module_word(j: usize, mark: bool, place: u32, criticality: u32) -> u32
    requires { (j < 16) × (place < 2 ^ 5) × (criticality < 2 ^ 17) }
    ensures { result ≡ module_word j mark place criticality }
{
    4 * KIND + (j as u32 + 1) * NUMBER + flag(mark) * MARK + place * PLACE + criticality
}

// Writes the module words.
fn write_modules(setup: Setup, out: &mut [u8])
    requires { ((room_verdict setup).number ≡ 0) × (length out.old ≡ setup_length (front_of setup) setup.n) }
    ensures { out.new ≡ put_run out.old (front_of setup) setup.n
        (λ j. module_word j (bit setup.marks j) (slice_index setup.places j) (slice_index setup.criticality j)) }
{
    let n = setup.n;
    let front = front_words(fades(setup.limits));
    for j in 0..n {
        let w = module_word(
            j,
            bit_at(setup.marks, j),
            setup.places[j],
            setup.criticality[j],
        );
        put_word(out, front + j, w);
    }
}

// Writes all words of a setup that they have room for.
pub fn write_words(setup: Setup, out: &mut [u8])
    requires { ((room_verdict setup).number ≡ 0) × (length out.old ≡ setup_length (front_of setup) setup.n) }
    ensures { out.new ≡ setup_bytes setup }
{
    put_word(out, 0, head_word(setup.q, setup.partitionable, setup.n));
    put_limits(setup.limits, out);
    write_modules(setup, out);
}

// Writes a setup, or refuses it and leaves the output as it was.
pub fn write(setup: Setup, out: &mut [u8]) -> Result<(), Refusal>
    ensures { (told result ≡ write_verdict setup out.old) × (out.new ≡ written_setup setup out.old) }
{
    verdict(setup)?;
    let fits = out.len() == setup_length(front_words(fades(setup.limits)), setup.n);
    single(fits, Number::Lent, 0)?;
    write_words(setup, out);
    Ok(())
}
