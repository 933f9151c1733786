// The lines of the bench, made in a text of fixed room, which takes no heap, and written at a place of lent bytes. Every function asks for the
// room that it may need.
#![tactic(auto)]

mod byte;
pub mod line;
mod number;
mod place;
mod vector;
