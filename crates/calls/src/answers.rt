// What C is answered, by what a call gives in code: the value of an accepted call, or a refusal. The structs are flat: the C interface needs it.
ghost use Rattle.std.specs.Prelude.{◌≡◌};
ghost use Rattle.words.specs.Refusal.{told};
ghost use Rattle.calls.specs.Answers.{answer_of, answer_told, word_told, cause_told};

use crate::{Answer, CauseAnswer, WordAnswer};
use rules::Cause;
use rules::hearing::cause_in;
use words::Refusal;

impl From<Result<u32, Refusal>> for Answer {
    ghost from_gives = { λ found answer. answer ≡ answer_told found };

    // An accepted step tells the health vector.
    fn from(found: Result<u32, Refusal>) -> Answer {
        match found {
            Ok(health) => {
                Answer {
                    number: 0,
                    index: 0,
                    health,
                }
            }
            Err(e) => {
                Answer {
                    number: e.number.code(),
                    index: e.index,
                    health: 0,
                }
            }
        }
    }
}

impl From<Result<(), Refusal>> for Answer {
    ghost from_gives = { λ done answer. answer ≡ answer_of (told done) };

    // Another call has nothing to tell.
    fn from(done: Result<(), Refusal>) -> Answer {
        Answer::from(done.and(Ok(0)))
    }
}

impl From<Result<u32, Refusal>> for WordAnswer {
    ghost from_gives = { λ found answer. answer ≡ word_told found };

    // An accepted call tells the word.
    fn from(found: Result<u32, Refusal>) -> WordAnswer {
        match found {
            Ok(word) => {
                WordAnswer {
                    number: 0,
                    index: 0,
                    word,
                }
            }
            Err(e) => {
                WordAnswer {
                    number: e.number.code(),
                    index: e.index,
                    word: 0,
                }
            }
        }
    }
}

impl From<Result<Result<u32, Cause>, Refusal>> for CauseAnswer {
    ghost from_gives = { λ found answer. answer ≡ cause_told found };

    // An accepted call tells the row of a heard word, or the cause.
    fn from(found: Result<Result<u32, Cause>, Refusal>) -> CauseAnswer {
        match found {
            Ok(reception) => {
                CauseAnswer {
                    number: 0,
                    index: 0,
                    cause: cause_in(reception),
                    row: reception.unwrap_or(0),
                }
            }
            Err(e) => {
                CauseAnswer {
                    number: e.number.code(),
                    index: e.index,
                    cause: 0,
                    row: 0,
                }
            }
        }
    }
}
