// The bus of a backplane: what reaches each receiver in a round, what each module reads of it, how the rule-followers hear it, and the fault limit.
//
// This file has what is held of a round. The entry of receiver i + 1 stands at i, that of receiver i + 1 and sender j + 1 at 16 * i + j.
#![tactic(auto)]

pub mod arrivals;
pub mod half_heard;
pub mod limit;

// A round as it reaches every receiver: its controller bits, the words, and the view words that go with them. Where the setup is not partitionable
// nobody reads the view words.
#[derive(Clone, Copy)]
pub struct Bus {
    pub bits: [u32; 16],
    pub words: [u32; 256],
    pub views: [u32; 256],
}

// How the rule-followers hear the senders of a round: which are half heard, and which are heard by one of them at least.
#[derive(Clone, Copy)]
pub struct Hearing {
    pub half: u32,
    pub heard: u32,
}
