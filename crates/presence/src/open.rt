// Opening a module from a setup and its own number.
ghost use Rattle.std.specs.Prelude.{◌≡◌, ◌≤◌};
ghost use Rattle.presence.specs.Opening.{fresh, blank, open_of, opened_told};

use crate::State;
use changes::change::nothing;
use image::zero_counters;
use rules::Reading;
use setup::Setup;
use views::after::{fresh_views, no_views};
use words::array::filled;
use words::bits::full_of;
use words::check::single;
use words::{Number, Refusal};

impl State {
    // A fresh module: all-ones syndromes and rows, all heard, zero counters, full view, no pending change, full views.
    fn fresh(setup: Setup, own: usize) -> State
        requires { setup.n ≤ 16 }
        ensures { result ≡ fresh setup own }
    {
        let full = full_of(setup.n);
        State {
            setup,
            own,
            counters: zero_counters(full),
            previous: Reading {
                heard: full,
                rows: filled(setup.n, full),
            },
            latest: full,
            earlier: full,
            pending: nothing(),
            views: fresh_views(setup.partitionable, setup.n),
        }
    }

    // What is held where nothing was opened: all zeros. No step of it is accepted. (Not derived: limits have no default.)
    pub fn blank() -> State
        ensures { result ≡ blank }
    {
        State {
            setup: setup::read::blank(),
            own: 0,
            counters: zero_counters(0),
            previous: Reading {
                heard: 0,
                rows: [0u32; 16],
            },
            latest: 0,
            earlier: 0,
            pending: nothing(),
            views: no_views(),
        }
    }

    // Opens module `own` of a setup: numbers 2, 4 to 6 and 22 of the setup, then 7.
    pub fn open(setup: Setup, own: usize) -> Result<State, Refusal>
        ensures { opened_told result ≡ open_of setup own }
    {
        setup::fields::verdict(setup)?;
        single((1 <= own) & (own <= setup.n), Number::Own, 0)?;
        Ok(State::fresh(setup, own))
    }
}
