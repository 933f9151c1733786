// Rules 1 to 7 of a step, each by itself, on numbers, vectors and arrays: no state. Rule 4, the vote, is the crate `vote`, rule 8 the crate
// `accounts`.
//
// This file has what the rules hand to one another. Entries and bits of module j + 1 stand at j; those from n on are 0.
#![tactic(auto)]

mod accuse;
pub mod align;
pub mod hearing;
pub mod judge;
pub mod lag;
mod splice;

// Why a word is not heard, the first that applies, by its code.
#[derive(Clone, Copy, Debug, PartialEq, Eq)]
pub enum Cause {
    // Its controller bit is 0.
    ControllerLoss = 1,
    // Its kind is another than 5.
    WrongKind = 2,
    // It has bits at N or above.
    StrayBits = 3,
}

// What a read holds: who is heard, and the rows, 0 where a module is not heard.
#[derive(Clone, Copy)]
pub struct Reading {
    pub heard: u32,
    pub rows: [u32; 16],
}

// What a module makes of the aligned rows: for each module the number at which its row is wrong, or 0, in `accusations`.
#[derive(Clone, Copy)]
pub struct Judgement {
    pub health: u32,
    pub accusations: [u32; 16],
    pub syndrome: u32,
}

// What a module makes of a read, where the rows are lent: who is heard in it, the health vector, and the syndrome.
#[derive(Clone, Copy)]
pub struct Judged {
    pub heard: u32,
    pub health: u32,
    pub syndrome: u32,
}
