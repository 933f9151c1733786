// New limits without a stop.
ghost use Rattle.std.specs.Prelude.{◌≡◌};
ghost use Rattle.words.specs.Refusal.{told};
ghost use Rattle.presence.specs.Valid.{Valid};
ghost use Rattle.presence.specs.Change.{new_verdict, change_verdict, change_of, changed_told};

use crate::State;
use changes::change::pending_of;
use changes::frame::frame_verdict;
use setup::Setup;
use words::Refusal;

impl State {
    // The numbers of the new setup, then 23 and 24.
    fn new_verdict(self, new: Setup, lead: u32) -> Result<(), Refusal>
        requires { Valid self }
        ensures { told result ≡ new_verdict self new lead }
    {
        setup::fields::verdict(new)?;
        frame_verdict(self.setup, self.pending, new, lead)
    }

    // Numbers 2, 4 to 8 and 22 of the state, those of the new setup, 23 and 24.
    fn change_verdict(self, new: Setup, lead: u32) -> Result<(), Refusal>
        ensures { told result ≡ change_verdict self new lead }
    {
        self.verdict()?;
        self.new_verdict(new, lead)
    }

    // Has a setup with new P, R and criticalities take the old one's place, 1 to 1,000 rounds ahead, or refuses that; the state then stays as it was.
    pub fn change(self, new: Setup, lead: u32) -> Result<State, Refusal>
        ensures { changed_told self result ≡ change_of self new lead }
    {
        self.change_verdict(new, lead)?;
        Ok(State {
            pending: pending_of(new, lead),
            ..self
        })
    }
}
