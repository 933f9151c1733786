// The events of a round: losses and lies.
ghost use Rattle.std.specs.Prelude.{◌≡◌, ◌<◌};
ghost use Rattle.script.specs.Events.{none, concerns, with_event};

use crate::Events;
use words::bits::{bit_at, pick};
use words::word::{KIND, NUMBER, field};

// Whether the event w is about the receiver and the sender whose entry stands at x.
fn concerns(w: u32, x: usize) -> bool
    requires { x < 256 }
    ensures { result ≡ concerns w x }
{
    (field(w, 23, 5) as usize == x % 16 + 1) & bit_at(w % NUMBER, x / 16)
}

impl Events {
    // Every word arrives as it was sent.
    pub fn none() -> Events
        ensures { result ≡ none }
    {
        Events {
            fate: [0; 256],
            told: [0; 256],
            views: [0; 256],
        }
    }

    // One more event, a loss or a lie with its told word and its told view word.
    pub fn with(self, w: u32, told_word: u32, told_view: u32) -> Events
        ensures { result ≡ with_event self w told_word told_view }
    {
        let kind = w / KIND;
        let mut fate = [0u32; 256];
        let mut told = [0u32; 256];
        let mut views = [0u32; 256];
        for x in 0..256 {
            let here = concerns(w, x);
            let old_fate = self.fate[x];
            let old_told = self.told[x];
            let old_view = self.views[x];
            fate[x] = pick(here, kind, old_fate);
            told[x] = pick(here, told_word, old_told);
            views[x] = pick(here, told_view, old_view);
        }
        Events { fate, told, views }
    }
}
