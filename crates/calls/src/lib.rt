// What C calls: a module's opening, step, change of limits and saving, from image to image, the word that it hands out, and why a word is not heard.
#![tactic(auto)]

mod answers;
pub mod calls;
mod change;
mod step;

// What a call from C answers; health is 0 but after an accepted step.
#[repr(C)]
#[derive(Clone, Copy)]
pub struct Answer {
    pub number: u32,
    pub index: u32,
    pub health: u32,
}

// What a call from C answers that asks for a word; the word is 0 where the call is refused.
#[repr(C)]
#[derive(Clone, Copy)]
pub struct WordAnswer {
    pub number: u32,
    pub index: u32,
    pub word: u32,
}

// What reading one word answers to C: the cause by its code, 0 for heard, and the row of a heard word, else 0; both are 0 where the call is refused.
#[repr(C)]
#[derive(Clone, Copy)]
pub struct CauseAnswer {
    pub number: u32,
    pub index: u32,
    pub cause: u32,
    pub row: u32,
}
