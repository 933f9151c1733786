// Writing a state as words.
ghost use Rattle.std.specs.Prelude.{◌≡◌, true, ◌≤◌, ◌++◌, length, drop};
ghost use Rattle.words.specs.Runs.{put_runs};
ghost use Rattle.words.specs.Refusal.{told};
ghost use Rattle.setup.specs.Layout.{setup_length};
ghost use Rattle.setup.specs.Limits.{fades as fades_of};
ghost use Rattle.setup.specs.Setup.{front_of, setup_bytes};
ghost use Rattle.setup.specs.Check.{setup_verdict};
ghost use Rattle.changes.specs.Words.{change_runs};
ghost use Rattle.image.specs.Layout.{own_at, left_at};
ghost use Rattle.image.specs.Sections.{section_runs};
ghost use Rattle.presence.specs.Image.{image_of, state_length};
ghost use Rattle.presence.specs.Valid.{roomy, save_verdict, saved_out};

use crate::State;
use changes::section::save_change;
use image::{first_of, image_length, left_at, save_accounts, save_sections, second_of, views_at};
use setup::bounds::{fades, front_words};
use setup::layout::setup_length;
use setup::write::write_words;
use views::section::save_views;
use words::check::single;
use words::{Number, Refusal};

// Writes the words of a state that stand before its views.
fn save_front(state: State, out: &mut [u8])
    requires { ((setup_verdict state.setup).number ≡ 0) × (roomy state ≡ true) × (length out.old ≡ state_length state state.pending.left) }
    ensures { out.new ≡ put_runs (put_runs (setup_bytes state.setup ++ drop (setup_length (front_of state.setup) state.setup.n) out.old)
        (own_at (front_of state.setup) state.setup.n)
        (section_runs (fades_of state.setup.limits) state.setup.n state.own state.counters state.previous state.latest state.earlier))
        (left_at (front_of state.setup) state.setup.n) (change_runs state.setup state.pending) }
{
    let form = fades(state.setup.limits);
    let n = state.setup.n;
    let front = front_words(form);
    let k = setup_length(front, n);
    let first = first_of(form, n, state.counters);
    let second = second_of(form, n, state.counters);
    write_words(state.setup, &mut out[..k]);
    save_sections(
        form,
        n,
        state.own,
        state.counters.view,
        state.previous.heard,
        &state.previous.rows,
        state.latest,
        state.earlier,
        out,
    );
    save_accounts(form, n, &first, &second, &state.counters.returns, out);
    save_change(state.setup, state.pending, out, left_at(front, n));
}

// Writes all words of a state.
pub(crate) fn save_words(state: State, out: &mut [u8])
    requires { ((setup_verdict state.setup).number ≡ 0) × (roomy state ≡ true) × (length out.old ≡ state_length state state.pending.left) }
    ensures { out.new ≡ image_of state }
{
    save_front(state, out);
    let setup = state.setup;
    if setup.partitionable {
        let front = front_words(fades(setup.limits));
        return save_views(
            setup.n,
            state.counters.view,
            &state.views,
            out,
            views_at(front, setup.n, state.pending.left),
        );
    }
}

impl State {
    // How many bytes its image has.
    pub(crate) fn length(self) -> usize
        requires { self.setup.n ≤ 16 }
        ensures { result ≡ state_length self self.pending.left }
    {
        let setup = self.setup;
        let front = front_words(fades(setup.limits));
        image_length(front, setup.n, self.pending.left, setup.partitionable)
    }

    // Saves a state, or refuses it and leaves the output as it was.
    pub fn save(self, out: &mut [u8]) -> Result<(), Refusal>
        ensures { (told result ≡ save_verdict self out.old) × (out.new ≡ saved_out self out.old) }
    {
        self.verdict()?;
        single(out.len() == self.length(), Number::Lent, 0)?;
        save_words(self, out);
        Ok(())
    }
}
