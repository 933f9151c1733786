// Accounts as three lent arrays, and as a struct: penalties, rewards and return counts, or the halves of the scores and return counts.
ghost use Rattle.std.specs.Prelude.{◌≡◌, ◌≤◌, slice_index};
ghost use Rattle.words.specs.Array.{array};
ghost use Rattle.doubles.specs.Double.{of_words, high_word, low_word};
ghost use Rattle.doubles.specs.Array.{entry, doubles};
ghost use Rattle.image.specs.Part.{first_of, second_of, lent_counters};

use accounts::Counters;
use doubles::{high_word, low_word, of_words};
use words::array::from_fn;

// The high halves of the first n scores.
fn high_words(n: usize, score: [f64; 16]) -> [u32; 16]
    requires { n ≤ 16 }
    ensures { result ≡ array n (λ j. high_word (entry score j)) }
{
    from_fn(n, |j| high_word(score[j]))
}

// Their low halves.
fn low_words(n: usize, score: [f64; 16]) -> [u32; 16]
    requires { n ≤ 16 }
    ensures { result ≡ array n (λ j. low_word (entry score j)) }
{
    from_fn(n, |j| low_word(score[j]))
}

// The scores of such halves.
fn joined(n: usize, high: [u32; 16], low: [u32; 16]) -> [f64; 16]
    requires { n ≤ 16 }
    ensures { result ≡ doubles n (λ j. of_words (slice_index high j) (slice_index low j)) }
{
    let mut score = [0.0; 16];
    for j in 0..n {
        score[j] = of_words(high[j], low[j]);
    }
    score
}

// The first of the arrays.
pub fn first_of(fades: bool, n: usize, c: Counters) -> [u32; 16]
    requires { n ≤ 16 }
    ensures { result ≡ first_of fades n c }
{
    if fades {
        let score = c.score;
        return high_words(n, score);
    }
    c.penalty
}

// The second.
pub fn second_of(fades: bool, n: usize, c: Counters) -> [u32; 16]
    requires { n ≤ 16 }
    ensures { result ≡ second_of fades n c }
{
    if fades {
        let score = c.score;
        return low_words(n, score);
    }
    c.reward
}

// The struct of a view and the three arrays.
pub fn lent_counters(
    fades: bool,
    n: usize,
    view: u32,
    first: [u32; 16],
    second: [u32; 16],
    returns: [u32; 16],
) -> Counters
    requires { n ≤ 16 }
    ensures { result ≡ lent_counters fades n view first second returns }
{
    if fades {
        let zeros = [0u32; 16];
        let score = joined(n, first, second);
        return Counters {
            view,
            penalty: zeros,
            reward: zeros,
            score,
            returns,
        };
    }
    let score = [0.0; 16];
    Counters {
        view,
        penalty: first,
        reward: second,
        score,
        returns,
    }
}
