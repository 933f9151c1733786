// A setup: N, by which limits account is kept, and for each module its send mark, read place and criticality.
#![tactic(auto)]

// How account is kept: by counts, with the penalty limit P and the reward limit R, or by fading scores, with their factor and their limit.
#[derive(Clone, Copy)]
pub enum Limits {
    Counts(u32, u32),
    Fading(f64, f64),
}

// The entries of module j + 1 stand at j; bit j of `marks` is its send mark. Entries from n on are 0.
#[derive(Clone, Copy)]
pub struct Setup {
    pub n: usize,
    // The return limit Q.
    pub q: u32,
    // Whether modules send view words too, for stands whose cable may tear.
    pub partitionable: bool,
    pub limits: Limits,
    pub marks: u32,
    pub places: [u32; 16],
    pub criticality: [u32; 16],
}

// What the words of a setup hold, and whether those after the head are right: the setup of words that are wrong too, so it is no Option.
#[derive(Clone, Copy)]
pub struct SetupPart {
    pub good: bool,
    pub setup: Setup,
}

// What the words of the modules say together: whether they are right, and whether some read place is not n; two flags that a pass without a branch
// gathers, so no Option.
#[derive(Clone, Copy)]
pub struct ModulesPart {
    pub good: bool,
    pub skew: bool,
}

pub mod bounds;
pub mod check;
pub mod fields;
pub mod layout;
pub mod modules;
pub mod part;
pub mod read;
mod word;
pub mod write;

pub use word::{head_ok, limit_ok};
