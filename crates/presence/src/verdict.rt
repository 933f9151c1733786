// The check of a state that is already a struct: by its image, and by what no image shows.
ghost use Rattle.std.specs.Prelude.{◌≡◌, true, ◌≤◌, length};
ghost use Rattle.words.specs.Runs.{run_word};
ghost use Rattle.words.specs.Refusal.{told};
ghost use Rattle.setup.specs.Limits.{fades as fades_of};
ghost use Rattle.setup.specs.Check.{setup_verdict};
ghost use Rattle.image.specs.Check.{check_tail};
ghost use Rattle.presence.specs.Image.{image_runs, state_length};
ghost use Rattle.presence.specs.Valid.{roomy as roomy_of, state_verdict};

use crate::State;
use crate::save::save_words;
use changes::change::pending_roomy;
use image::check::check_tail;
use image::{VECTOR, counters_roomy, rows_roomy};
use setup::bounds::fades;
use setup::layout::MOST_MODULES;
use views::section::views_roomy;
use words::check::single;
use words::{Number, Refusal};

// Whether every field has room in its word, and nothing stands in the entries from n on.
fn roomy(state: State) -> bool
    requires { state.setup.n ≤ 16 }
    ensures { result ≡ roomy_of state }
{
    let n = state.setup.n;
    let own = (state.own <= MOST_MODULES) & (state.counters.view < VECTOR);
    let alone = own & ((state.latest < VECTOR) & (state.earlier < VECTOR));
    let counters = counters_roomy(fades(state.setup.limits), n, state.counters);
    let views = views_roomy(state.setup.partitionable, n, state.views);
    let held = counters & (pending_roomy(n, state.pending) & views);
    alone & (rows_roomy(n, state.previous) & held)
}

// Numbers 7 and 8 of a state's image, which is written to `out`.
fn image_verdict(state: State, out: &mut [u8]) -> Result<(), Refusal>
    requires { ((setup_verdict state.setup).number ≡ 0) × (roomy_of state ≡ true) × (length out.old ≡ state_length state state.pending.left) }
    ensures { told result ≡ check_tail (fades_of state.setup.limits) (run_word (image_runs state)) state.setup.n }
{
    save_words(state, out);
    check_tail(out, fades(state.setup.limits), state.setup.n)
}

impl State {
    // Numbers 2, 4 to 8 and 22 of any state.
    pub fn verdict(self) -> Result<(), Refusal>
        ensures { told result ≡ state_verdict self }
    {
        setup::fields::verdict(self.setup)?;
        single(roomy(self), Number::Image, 0)?;
        // room for the longest image
        let mut out = [0u8; 512];
        image_verdict(self, &mut out[..self.length()])
    }
}
