// The votes on four modules at a time.
ghost use Rattle.std.specs.Prelude.{◌≡◌, ℕ, ◌+◌, ◌*◌, ◌%◌, ◌^◌, ◌≤◌, ◌<◌};
ghost use Rattle.words.specs.Bits.{pack};
ghost use Rattle.vote.specs.VoteTable.{vote_table};
ghost use Rattle.vote.specs.Lanes.{decided_by, Countable};

use crate::lanes::column;
use crate::vote_table::decide;
use words::bits::{bit_at, flag, from_fn};

// The vote on module j, one of the first four that the lanes count. The row of j is not counted.
fn vote_on(table: &[u8], present: u32, lanes: &[u32; 4], voters: u32, own: u32, j: usize) -> bool
    requires { (table.now ≡ vote_table) × (j < 4) × Countable present lanes.now voters j }
    ensures { result ≡ decided_by present lanes.now voters own j }
{
    decide(
        table,
        present - flag(bit_at(voters, j)),
        column(lanes[j], j),
        bit_at(own, j),
    )
}

// The votes on these four modules.
fn four_votes(table: &[u8], present: u32, lanes: [u32; 4], voters: u32, own: u32) -> u32
    requires { (table.now ≡ vote_table) × ((j : ℕ) → j < 4 → Countable present lanes voters j) }
    ensures { result ≡ pack 4 (decided_by present lanes voters own) }
{
    from_fn(4, |j| vote_on(table, present, &lanes, voters, own, j))
}

// The votes on the four modules from j = at on.
pub fn four_from(
    table: &[u8],
    present: u32,
    lanes: [u32; 4],
    voters: u32,
    own: u32,
    at: usize,
) -> u32
    requires { (table.now ≡ vote_table) × (at ≤ 12) × (at % 4 ≡ 0)
        × ((j : ℕ) → j < 4 → Countable present lanes voters (at + j)) }
    ensures { result ≡ pack 4 (λ j. decided_by present lanes voters own (at + j)) }
{
    let next = [
        lanes[0] >> at,
        lanes[1] >> at,
        lanes[2] >> at,
        lanes[3] >> at,
    ];
    four_votes(table, present, next, voters >> at, own >> at)
}

// The vector acc of `at` bits, with the four bits of `four` after them.
pub fn with_four(acc: u32, at: usize, four: u32) -> u32
    requires { (acc < 2 ^ at) × (at ≤ 12) × (four < 16) }
    ensures { result ≡ acc + four * 2 ^ at }
{
    acc + (four << at)
}
