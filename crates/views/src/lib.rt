// Stands with a torn cable: the view words that modules send beside their syndromes, the view that is adopted from them, and their words in a saved
// state.
//
// This file has what a module holds of views. Entries and bits of module j + 1 stand at j; those from n on are 0.
#![tactic(auto)]

mod adopt;
pub mod after;
pub mod lent;
pub mod read;
pub mod section;
pub mod word;

// The view words of the last read, kind and all, 0 where one is missing; the local view before the latest; the adopted view; and whether the module
// has taken itself out. All 0 where the setup is not partitionable: no Option, since the definitions of a state have these fields.
#[derive(Clone, Copy)]
pub struct Views {
    pub words: [u32; 16],
    pub earlier: u32,
    pub adopted: u32,
    pub out: bool,
}

// The adopted view, and whether the module has taken itself out.
#[derive(Clone, Copy)]
pub(crate) struct Adopted {
    view: u32,
    out: bool,
}
