// The place of a round in a run script.
ghost use Rattle.std.specs.Prelude.{◌≡◌, ◌-◌, ◌/◌, ◌%◌, ◌≤◌, ◌<◌, length};
ghost use Rattle.script.specs.Words.{rounds_in};
ghost use Rattle.script.specs.Events.{none};
ghost use Rattle.script.specs.Cursor.{told_view_of, events_after, gather, start, advanced};

use crate::layout::{events_at, partitionable_at};
use crate::told::{due_after, is_play, word_within};
use crate::{Cursor, Events, Kind};
use words::word::{KIND, word_at};

// The told view word of the lie at `at`, or 0.
fn told_view_of(s: &[u8], at: usize) -> u32
    requires { at < length s.now / 4 }
    ensures { result ≡ told_view_of s.now at }
{
    if partitionable_at(s) {
        word_within(s, at + 2)
    } else {
        0
    }
}

// The events after the word at `at`, which is no play.
fn events_after(s: &[u8], due: u32, at: usize, events: Events) -> Events
    requires { at < length s.now / 4 }
    ensures { result ≡ events_after s.now due at events }
{
    let w = word_at(s, at);
    if due != 0 {
        return events;
    }
    if Kind::Loss.is(w) {
        return events.with(w, 0, 0);
    }
    if Kind::Lie.is(w) {
        return events.with(w, word_within(s, at + 1), told_view_of(s, at));
    }
    events
}

// How many rounds are left of the play w after its first.
fn rounds_left(w: u32) -> u32
    ensures { result ≡ rounds_in w - 1 }
{
    (w % KIND).saturating_sub(1)
}

// The first round of the next play, with the events that the words from `from` on tell before it.
fn next_play(s: &[u8], from: usize) -> Cursor
    ensures { result ≡ gather s.now (length s.now / 4 - from) from 0 none }
{
    let count = s.len() / 4;
    let mut due: u32 = 0;
    let mut events = Events::none();
    for at in from..count {
        let w = word_at(s, at);
        if is_play(due, w) {
            return Cursor {
                at: at + 1,
                left: rounds_left(w),
                over: false,
                events,
            };
        }
        let more = events_after(s, due, at, events);
        events = more;
        due = due_after(partitionable_at(s), due, w);
    }
    let nothing = Events::none();
    Cursor {
        at: from.max(count),
        left: 0,
        over: true,
        events: nothing,
    }
}

impl Cursor {
    // Before round 1 of a script.
    pub fn start(s: &[u8]) -> Cursor
        requires { (length s.now % 4 ≡ 0) × (4 ≤ length s.now) }
        ensures { result ≡ start s.now }
    {
        let at = events_at(s);
        let events = Events::none();
        Cursor {
            at,
            left: 0,
            over: false,
            events,
        }
    }

    // The place of the next round.
    pub fn advance(self, s: &[u8]) -> Cursor
        ensures { result ≡ advanced s.now self }
    {
        if self.left == 0 {
            return next_play(s, self.at);
        }
        let at = self.at;
        let left = self.left - 1;
        let quiet = Events::none();
        Cursor {
            at,
            left,
            over: false,
            events: quiet,
        }
    }
}
