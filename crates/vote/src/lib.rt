// Rule 4 of a step, by itself: the vote on each module, on numbers, vectors and arrays. The bits of module j + 1 stand at j.
#![tactic(auto)]

mod four;
pub mod health;
mod lanes;
mod vote_table;
