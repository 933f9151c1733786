// A module of the backplane: opened from a setup and its own number, stepped once a round, given new limits, saved and read back.
//
// This file has what a module holds and what an accepted step of it answers. Entries and bits of module j + 1 stand at j;
// those from n on are 0.
#![tactic(auto)]

mod change;
pub mod load;
mod open;
pub mod save;
mod step;
mod verdict;
mod view;

use accounts::Counters;
use changes::Pending;
use rules::Reading;
use setup::Setup;
use views::Views;

// A module's state: its setup, its own number, its counters, its previous read, the last two syndromes that it computed, the change of limits that is
// pending, and, where the setup is partitionable, what it holds of views. The limits are no invariant of the type: a value outside them is a state too, and
// every call promises by which number it refuses one. So what is inside a step asks for `Valid`.
#[derive(Clone, Copy)]
pub struct State {
    setup: Setup,
    own: usize,
    counters: Counters,
    previous: Reading,
    latest: u32,
    earlier: u32,
    pending: Pending,
    views: Views,
}

// What an accepted step answers: the word and the second word, which holds the local view, are those handed out for the bus, the second 0 where the
// setup is not partitionable; the causes are the codes of this read, as it came (0 to 3).
#[derive(Clone, Copy)]
pub struct Round {
    pub health: u32,
    pub accusations: [u32; 16],
    pub word: u32,
    pub second: u32,
    pub causes: [u32; 16],
    pub state: State,
}
