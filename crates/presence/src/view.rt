// What a module tells of its state.
ghost use Rattle.std.specs.Prelude.{◌≡◌};
ghost use Rattle.presence.specs.Shown.{shown_view};

use crate::State;
use words::bits::pick;

impl State {
    // The local view, by which the rules go: bit j is set while module j + 1 is present.
    pub fn view(self) -> u32
        ensures { result ≡ self.counters.view }
    {
        self.counters.view
    }

    // The view that page, bench and scan lock take: the adopted one where the setup is partitionable, else the local one.
    pub fn shown(self) -> u32
        ensures { result ≡ shown_view self }
    {
        let local = self.counters.view;
        pick(self.setup.partitionable, self.views.adopted, local)
    }

    // The syndrome computed last, which the module sends in the next round, with the send mark or without it (rule 7).
    pub fn latest(self) -> u32
        ensures { result ≡ self.latest }
    {
        self.latest
    }
}
