// Rule 8: the account that is kept of each module, by counts or by fading scores, and the view that follows from it.
//
// This file has what an account holds. Entries and bits of module j + 1 stand at j; those from n on are 0.
#![tactic(auto)]

mod counts;
mod fading;
pub mod round;

// The account of one module, and whether it is in the view. Where account is kept by counts the score is 0.0, and where it is kept by scores penalty
// and reward are 0. `returns` counts the rounds towards its return.
#[derive(Clone, Copy)]
pub struct Account {
    pub present: bool,
    pub penalty: u32,
    pub reward: u32,
    pub score: f64,
    pub returns: u32,
}

// The accounts of all modules, and the view. An array for each counter, and not an array of accounts: an image has them so, and so a step takes them,
// four modules at a time.
#[derive(Clone, Copy)]
pub struct Counters {
    pub penalty: [u32; 16],
    pub score: [f64; 16],
    pub reward: [u32; 16],
    pub view: u32,
    pub returns: [u32; 16],
}
