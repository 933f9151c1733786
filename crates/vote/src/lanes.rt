// The votes on all modules, counted at once: in four lanes of four counts.
ghost use Rattle.std.specs.Prelude.{◌≡◌, ◌≤◌, ◌<◌};
ghost use Rattle.words.specs.Bits.{bit, b2n};
ghost use Rattle.vote.specs.Lanes.{ballot_of, lane_of, column_in, tally_of};

use words::bits::{bit_at, flag, pick};
use words::mask::without;

// How many rows are present, and in four lanes how many vote 1 on each module.
#[derive(Clone, Copy)]
pub struct Tally {
    pub present: u32,
    pub ones: [u32; 4],
}

// The votes of module l as bits: none where its row is missing, and none on itself.
fn ballot(voters: u32, row: u32, l: usize) -> u32
    requires { l < 32 }
    ensures { result ≡ ballot_of voters row l }
{
    pick(bit_at(voters, l), without(row, l), 0)
}

// Every fourth bit from bit k on, each as the lowest of four bits.
fn lane(row: u32, k: u32) -> u32
    requires { k < 4 }
    ensures { (result ≡ lane_of k (λ j. b2n (bit row j))) × (result ≤ 4369) }
{
    (row >> k) & 4369
}

// Counts the votes on all modules. The four lanes are four numbers, and not an array that an inner loop goes through: the loop would be no shorter for
// who reads it, and each number stays in its register.
pub fn counted(n: usize, voters: u32, rows: &[u32; 16]) -> Tally
    requires { n ≤ 16 }
    ensures { result ≡ tally_of n voters rows.now }
{
    let mut a: u32 = 0;
    let mut b: u32 = 0;
    let mut c: u32 = 0;
    let mut d: u32 = 0;
    let mut present: u32 = 0;
    for l in 0..n {
        let row = ballot(voters, rows[l], l);
        a += lane(row, 0);
        b += lane(row, 1);
        c += lane(row, 2);
        d += lane(row, 3);
        present += flag(bit_at(voters, l));
    }
    Tally {
        present,
        ones: [a, b, c, d],
    }
}

// The count of module j in its lane.
pub fn column(lane: u32, j: usize) -> u32
    requires { j < 16 }
    ensures { result ≡ column_in lane j }
{
    (lane >> (j / 4 * 4)) % 16
}
