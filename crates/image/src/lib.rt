// The words of a saved state: read, checked and written, with no state that holds them. Entries and bits of module j + 1 stand at j.
#![tactic(auto)]

// The words of an image that stand alone, and whether they are right. No Option: what they hold is promised where they are wrong too.
#[derive(Clone, Copy)]
pub struct WordsPart {
    pub good: bool,
    pub own: usize,
    pub view: u32,
    pub latest: u32,
    pub earlier: u32,
}

// Who is heard in the previous read of an image, and whether its words are right. No Option, for the same reason.
#[derive(Clone, Copy)]
pub struct RowsPart {
    pub good: bool,
    pub heard: u32,
}

// What the counters of a module are tested by: the limits P, R and Q, its criticality, its bit of the view and its penalty.
#[derive(Clone, Copy)]
pub struct Basis {
    pub p: u32,
    pub r: u32,
    pub q: u32,
    pub criticality: u32,
    pub present: bool,
    pub penalty: u32,
}

// What a step needs of an image besides the lent arrays, and whether its words are right: whether reads are skewed, the limits, the own number, the
// view, who was heard in the previous read, the two latest syndromes, and the rounds left until a pending change takes effect. No Option: whether all words
// are right is joined from the parts with no branch, and asked once, by the call.
#[derive(Clone, Copy)]
pub struct ImagePart {
    pub good: bool,
    pub skew: bool,
    pub q: u32,
    pub limits: Limits,
    pub own: usize,
    pub view: u32,
    pub heard: u32,
    pub latest: u32,
    pub earlier: u32,
    pub left: u32,
}

pub mod check;
mod counters;
mod layout;
mod lent;
mod load;
mod read;
mod returns;
mod rows;
mod save;
mod scores;
mod torn;
mod word;

use setup::Limits;

// What states are read, tested and written by, and where calls and pages find a word.
pub use counters::{counters_roomy, zero_counters};
pub use layout::{image_length, left_at, views_at};
pub use lent::{first_of, lent_counters, second_of};
pub use load::{load_accounts, load_image};
pub use read::{earlier_in, latest_in, load_words, own_in, place_in, view_in};
pub use rows::{load_rows, rows_roomy};
pub use save::{save_accounts, save_sections};
pub use torn::views_good;
pub use word::VECTOR;
