// The start of the counting of a round: a change that is due takes effect.
ghost use Rattle.std.specs.Prelude.{◌≡◌, ℕ, ◌^◌, ◌≤◌, ◌<◌, get_or};
ghost use Rattle.changes.specs.Pending.{renewed, counted_down};
ghost use Rattle.changes.specs.Books.{turned};

use crate::adjust::adjusted_counters;
use crate::change::nothing;
use crate::{Books, Pending};
use setup::{Limits, Setup};

// The setup that takes the old one's place.
fn renewed(setup: Setup, pending: Pending) -> Setup
    ensures { result ≡ renewed setup pending }
{
    let criticality = pending.criticality;
    Setup {
        limits: Limits::Counts(pending.p, pending.r),
        criticality,
        ..setup
    }
}

// What is pending after a step.
fn counted_down(c: Pending) -> Pending
    ensures { result ≡ counted_down c }
{
    if 2 <= c.left {
        return Pending {
            left: c.left - 1,
            ..c
        };
    }
    nothing()
}

// The limits, counters and pending change with which rule 8 counts.
pub fn turned(books: Books) -> Books
    requires n_bound { (books.setup.n ≤ 16) × (books.pending.p < 2 ^ 28) }
    requires by_index { (j : ℕ) → j < books.setup.n → get_or books.pending.criticality j 0 < 2 ^ 28 }
    ensures { result ≡ turned books }
{
    let setup = books.setup;
    let pending = books.pending;
    if pending.left == 1 {
        return Books {
            setup: renewed(setup, pending),
            counters: adjusted_counters(setup.n, pending, books.counters),
            pending: nothing(),
        };
    }
    Books {
        pending: counted_down(pending),
        ..books
    }
}
