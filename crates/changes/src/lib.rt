// New limits without a stop: a change that is still to come, what it does when it takes effect, and its words in a saved state.
//
// This file has what a pending change holds. Entries and bits of module j + 1 stand at j; those from n on are 0.
#![tactic(auto)]

mod adjust;
pub mod change;
pub mod frame;
pub mod lent;
pub mod section;
pub mod turn;

use accounts::Counters;
use setup::Setup;

// A change that is still to come: the rounds left, and the new P, R and criticalities; all 0 where none is pending. No Option, since the definitions of
// a state have these fields, and its words have 0 rounds left.
#[derive(Clone, Copy)]
pub struct Pending {
    pub left: u32,
    pub p: u32,
    pub r: u32,
    pub criticality: [u32; 16],
}

// What rule 8 counts with and what it counts.
#[derive(Clone, Copy)]
pub struct Books {
    pub setup: Setup,
    pub counters: Counters,
    pub pending: Pending,
}
