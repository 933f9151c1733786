// Run scripts: their check, and the events and rounds that they tell.
#![tactic(auto)]

pub mod check;
mod event;
mod kinds;
mod layout;
mod play;
mod told;

// How many rounds a script has at most.
pub use layout::MOST_ROUNDS;

// Where its cast stands.
pub use layout::cast_at;

// What a word after the setup is: the cast, a loss, a lie or a play, each by the number of its kind.
#[derive(Clone, Copy)]
enum Kind {
    Cast = 6,
    Loss = 7,
    Lie = 8,
    Play = 9,
}

// How far a run script has been checked: how many told words are due, whether an event waits for a play, and the rounds so far.
#[derive(Clone, Copy)]
pub struct Scan {
    pub due: u32,
    pub pending: bool,
    pub rounds: u32,
}

// What becomes of the words of one round. The entry of receiver i + 1 and sender j + 1 stands at 16 * i + j: its fate is 0 where the word
// arrives as it was sent, and else the kind of its event: 7 where it is lost, 8 where the told word arrives in its place. Where the setup is
// partitionable a view word goes with it: the told view word arrives in place of that; elsewhere `views` is 0. They are three arrays, and the fate is a
// number, as EventsCount and Replaces (specs/Effect.antt) and SameRun (`renumbering`) have them, entry by entry.
#[derive(Clone, Copy)]
pub struct Events {
    pub fate: [u32; 256],
    pub told: [u32; 256],
    pub views: [u32; 256],
}

// The place of a round in a run script: the word to read next, the rounds left of the play, whether the script is over, and the events of
// this round. Every place has all four: PlaysAll (specs/Rounds.antt) says of each round, also of those after the last, whether the script is over.
#[derive(Clone, Copy)]
pub struct Cursor {
    pub at: usize,
    pub left: u32,
    pub over: bool,
    pub events: Events,
}
