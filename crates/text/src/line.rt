// The lines of a round, and the line of a refusal.
ghost use Rattle.std.specs.Prelude.{◌≡◌, ◌∷◌, ◌++◌, ◌+◌, ◌*◌, ◌≤◌, ◌<◌, length, get_or};
ghost use Rattle.arrayvec.specs.ArrayVec.{array_vec_len};
ghost use Rattle.text.specs.Text.{decimal, vector};
ghost use Rattle.text.specs.Lines.{limit_text, line_with, lines_of, refused_line};
ghost use Rattle.text.specs.Wrote.{Wrote};

use crate::byte::put_text;
use crate::number::put_number;
use crate::place::write_at;
use crate::vector::put_vector;
use arrayvec::ArrayVec;
use itoa::Buffer;

// Adds a space and the number of module i + 1.
fn put_module<const N: usize>(out: &mut ArrayVec<u8, N>, i: usize)
    requires { (i < 16) × (array_vec_len out.old + 3 ≤ N) }
    ensures { (out.new.items ≡ out.old.items ++ (32 ∷ decimal (i + 1))) × (array_vec_len out.new ≤ array_vec_len out.old + 3) }
{
    out.push(b' ');
    put_number(out, i as u32 + 1);
}

// Adds a space and the first n bits of v.
fn put_bits<const N: usize>(out: &mut ArrayVec<u8, N>, n: usize, v: u32)
    requires { (n ≤ 16) × (array_vec_len out.old + 17 ≤ N) }
    ensures { (out.new.items ≡ out.old.items ++ (32 ∷ vector n v)) × (array_vec_len out.new ≤ array_vec_len out.old + 17) }
{
    out.push(b' ');
    put_vector(out, n, v);
}

// Adds a space, and `in` where the limit was kept so far, else `out`.
fn put_limit<const N: usize>(out: &mut ArrayVec<u8, N>, kept: bool)
    requires { array_vec_len out.old + 4 ≤ N }
    ensures { (out.new.items ≡ out.old.items ++ (32 ∷ limit_text kept)) × (array_vec_len out.new ≤ array_vec_len out.old + 4) }
{
    if kept {
        put_text(out, b" in");
    } else {
        put_text(out, b" out");
    }
}

// Adds the line of module i + 1; `round` is the round's number as text.
fn put_line<const N: usize>(
    out: &mut ArrayVec<u8, N>,
    round: &[u8],
    n: usize,
    kept: bool,
    i: usize,
    health: u32,
    view: u32,
)
    requires { (n ≤ 16) × (i < 16) × (length round.now ≤ 10) × (array_vec_len out.old + 52 ≤ N) }
    ensures { (out.new.items ≡ out.old.items ++ line_with round.now n kept i health view)
        × (array_vec_len out.new ≤ array_vec_len out.old + 52) }
{
    put_text(out, round);
    put_module(out, i);
    put_bits(out, n, health);
    put_bits(out, n, view);
    put_limit(out, kept);
    out.push(b'\n');
}

// Adds the lines of all modules of a round; its number is the same text in each.
fn add_lines<const N: usize>(
    out: &mut ArrayVec<u8, N>,
    n: usize,
    round: u32,
    kept: bool,
    health: [u32; 16],
    view: [u32; 16],
)
    requires { (n ≤ 16) × (array_vec_len out.old + n * 52 ≤ N) }
    ensures { (out.new.items ≡ out.old.items ++ lines_of n round kept (λ i. get_or health i 0) (λ i. get_or view i 0) n)
        × (array_vec_len out.new ≤ array_vec_len out.old + n * 52) }
{
    let mut digits = Buffer::new();
    let round = digits.format(round).as_bytes();
    for i in 0..n {
        put_line(out, round, n, kept, i, health[i], view[i]);
    }
}

// Writes the lines of all modules of a round at a place of lent bytes, and answers the place after them.
pub fn put_lines(
    out: &mut [u8],
    at: usize,
    n: usize,
    round: u32,
    kept: bool,
    health: [u32; 16],
    view: [u32; 16],
) -> usize
    requires { (n ≤ 16) × (at + n * 52 ≤ length out.old) }
    ensures { Wrote out.old at (lines_of n round kept (λ i. get_or health i 0) (λ i. get_or view i 0) n) out.new result
        × (result ≤ at + n * 52) }
{
    let mut lines: ArrayVec<u8, 832> = ArrayVec::new();
    add_lines(&mut lines, n, round, kept, health, view);
    write_at(out, at, &lines)
}

// Adds the line of a refusal.
#[tactic(auto, using(crate::proofs::NumberLaws::decimal_ten))]
fn add_refusal<const N: usize>(out: &mut ArrayVec<u8, N>, number: u32, index: u32)
    requires { array_vec_len out.old + 33 ≤ N }
    ensures { (out.new.items ≡ out.old.items ++ refused_line number index)
        × (array_vec_len out.new ≤ array_vec_len out.old + 33) }
{
    put_text(out, b"refused ");
    put_number(out, number);
    put_text(out, b" at ");
    put_number(out, index);
    put_text(out, b"\n");
}

// Writes the line of a refusal at a place of lent bytes, and answers the place after it.
pub fn put_refusal(out: &mut [u8], at: usize, number: u32, index: u32) -> usize
    requires { at + 33 ≤ length out.old }
    ensures { Wrote out.old at (refused_line number index) out.new result × (result ≤ at + 33) }
{
    let mut line: ArrayVec<u8, 33> = ArrayVec::new();
    add_refusal(&mut line, number, index);
    write_at(out, at, &line)
}
