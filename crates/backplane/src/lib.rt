// A whole backplane, played round by round from a run script.
//
// This file has what is held from round to round. The entry of module i + 1 stands at i.
#![tactic(auto)]

mod play;
mod rounds;
mod start;

use bus::{Bus, Hearing};
use presence::State;
use script::Cursor;
use setup::Setup;

// All modules after a round: their states, the health vectors that they answered, the round's bus, how it was heard and how the round before
// was, and whether the fault limit was kept in every round so far.
#[derive(Clone, Copy)]
struct Backplane {
    setup: Setup,
    cast: u32,
    round: u32,
    states: [State; 16],
    health: [u32; 16],
    bus: Bus,
    hearing: Hearing,
    before: Hearing,
    kept: bool,
}

// A run script as it is played: the place of the round, and the backplane after it.
#[derive(Clone, Copy)]
pub struct Run {
    cursor: Cursor,
    backplane: Backplane,
}

// The run after the rounds whose lines were written, and the place after the lines.
#[derive(Clone, Copy)]
pub struct Filled {
    pub run: Run,
    pub end: usize,
}
