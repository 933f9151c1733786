// What the scan lock takes from the presence service: the view that is shown after an accepted step, by the contract of State::shown.
ghost use Rattle.std.specs.Prelude.{◌≡◌};
ghost use Rattle.presence.specs.Shown.{shown_view};
ghost use Rattle.scanlock.specs.Locks.{event_told, set_view_of};

use crate::Locks;
use presence::State;
use words::Number;

impl Locks {
    // The locks after a step of this card that left it in `card`.
    pub fn after_step(self, card: State) -> Result<Locks, Number>
        ensures { event_told self result ≡ set_view_of self (shown_view card) }
    {
        self.set_view(card.shown())
    }
}
