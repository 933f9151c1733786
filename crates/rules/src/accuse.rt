// Rule 5: who is accused, and by which number.
ghost use Rattle.std.specs.Prelude.{◌≡◌, not, ◌&&◌, ◌≤◌, ◌<◌};
ghost use Rattle.words.specs.Bits.{bit};
ghost use Rattle.words.specs.Count.{any, lowest, found_of};
ghost use Rattle.rules.specs.Accusation.{differs_at, accusation_of, accusations_of};

use words::array::from_fn;
use words::bits::{bit_at, power};
use words::mask::without;

// Whether the row of j differs from the health vector at h, which is not j.
fn differs(row: u32, health: u32, j: usize, h: usize) -> bool
    requires { h < 32 }
    ensures { result ≡ differs_at row health j h }
{
    (h != j) & (bit_at(row, h) != bit_at(health, h))
}

// The first module at which the row of j differs from the health vector.
fn first_difference(n: usize, row: u32, health: u32, j: usize) -> Option<usize>
    requires { n ≤ 32 }
    ensures { found_of result ≡ lowest n (differs_at row health j) }
{
    (0..n).find(|&h| differs(row, health, j, h))
}

// Whether the row of j is missing, or equals the health vector in all bits below n but bit j.
pub fn clean(n: usize, voters: u32, row: u32, health: u32, j: usize) -> bool
    requires { (n < 32) × (j < 32) }
    ensures { result ≡ not (bit voters j && any n (differs_at row health j)) }
{
    !bit_at(voters, j) | (without(row, j) % power(n) == without(health, j) % power(n))
}

// One module, by the number at which its row is wrong, or 0. Nothing is searched where the row is clean.
fn accused(n: usize, voters: u32, row: u32, health: u32, j: usize) -> u32
    requires { (n < 32) × (j < 32) }
    ensures { result ≡ accusation_of n voters row health j }
{
    if clean(n, voters, row, health, j) {
        return 0;
    }
    match first_difference(n, row, health, j) {
        Some(h) => h as u32 + 1,
        None => 0,
    }
}

// All modules.
#[tactic(auto, unfolding(crate::specs::Accusation::accusations_of))]
pub fn accusations(n: usize, voters: u32, rows: [u32; 16], health: u32) -> [u32; 16]
    requires { n ≤ 16 }
    ensures { result ≡ accusations_of n voters rows health }
{
    from_fn(n, |j| accused(n, voters, rows[j], health, j))
}
