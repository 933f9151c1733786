// The health vector: the votes on all modules.
ghost use Rattle.std.specs.Prelude.{◌≡◌, ◌^◌, ◌≤◌, ◌<◌};
ghost use Rattle.vote.specs.Vote.{health_of};
ghost use Rattle.vote.specs.VoteTable.{vote_table};

use crate::four::{four_from, with_four};
use crate::lanes::counted;
use crate::vote_table::VOTES;
use words::bits::power;

// The health vector, by a table that is lent once. Four modules are taken at a time, those past n among them, which are then cut off.
fn health_by(table: &[u8], n: usize, voters: u32, rows: &[u32; 16], own: u32) -> u32
    requires { (table.now ≡ vote_table) × (n ≤ 16) × (voters < 2 ^ n) }
    ensures { result ≡ health_of n voters rows.now own }
{
    let t = counted(n, voters, rows);
    let present = t.present;
    let lanes = t.ones;
    let mut acc: u32 = 0;
    for q in 0..(n + 3) / 4 {
        let four = four_from(table, present, lanes, voters, own, q * 4);
        acc = with_four(acc, q * 4, four);
    }
    acc % power(n)
}

// The health vector.
pub fn health(n: usize, voters: u32, rows: &[u32; 16], own: u32) -> u32
    requires { (n ≤ 16) × (voters < 2 ^ n) }
    ensures { result ≡ health_of n voters rows.now own }
{
    health_by(&VOTES, n, voters, rows, own)
}
