// One round at a module: rules 1 to 8 in their order.
ghost use Rattle.std.specs.Prelude.{◌≡◌, ◌^◌, ◌<◌};
ghost use Rattle.changes.specs.Books.{turned as turned_of};
ghost use Rattle.presence.specs.Valid.{Valid};
ghost use Rattle.presence.specs.Step.{place_of, mark_of, judgement_for, outgoing_for, books_of, views_for, outgoing_view, after_round, accepted_step, read_step, step_of, round_told, stepped_told};

use crate::{Round, State};
use changes::Books;
use changes::turn::turned;
use rules::{Judgement, Reading};
use views::Views;
use views::after::{no_views, views_after};
use views::read::{read_words, views_seen};
use views::word::view_word;
use words::bits::{bit_at, pick, power};
use words::check::single;
use words::{Number, Refusal};

impl State {
    // The module's own read place.
    fn place(self) -> u32
        requires { Valid self }
        ensures { result ≡ place_of self }
    {
        self.setup.places[self.own - 1]
    }

    // Whether the module has the send mark.
    fn marked(self) -> bool
        requires { Valid self }
        ensures { result ≡ mark_of self }
    {
        bit_at(self.setup.marks, self.own - 1)
    }

    // Rules 1 and 3 to 6: what the module makes of this read.
    fn judged(self, this: Reading) -> Judgement
        requires { Valid self }
        ensures { result ≡ judgement_for self this }
    {
        let n = self.setup.n;
        let skew = rules::lag::is_skewed(n, self.setup.places);
        let aligned = rules::align::aligned(n, skew, self.place(), self.previous, this);
        let own = pick(skew, self.earlier, self.latest);
        rules::judge::judgement(n, self.counters.view, aligned, own)
    }

    // Rule 7: the word handed out.
    fn outgoing(self, this: Reading, j: Judgement) -> u32
        requires valid { Valid self }
        requires j_value { j ≡ judgement_for self this }
        ensures { result ≡ outgoing_for self this }
    {
        rules::judge::outgoing(self.marked(), self.latest, j.syndrome)
    }

    // What rule 8 counts with and what it counts, after a change that is due has taken effect.
    fn turned(self) -> Books
        requires { Valid self }
        ensures { result ≡ turned_of (books_of self) }
    {
        turned(Books {
            setup: self.setup,
            counters: self.counters,
            pending: self.pending,
        })
    }

    // What is held of views after the round, from the view words of this read.
    fn agreed(self, seen: [u32; 16]) -> Views
        requires { Valid self }
        ensures { result ≡ views_for self seen }
    {
        if !self.setup.partitionable {
            return no_views();
        }
        let n = self.setup.n;
        let skew = rules::lag::is_skewed(n, self.setup.places);
        let split = pick(skew, self.place(), 0);
        views_after(n, split, self.views, seen, self.counters.view)
    }

    // The view word handed out, with the local view after the round.
    fn outgoing_view(self, view: u32) -> u32
        requires { Valid self × (view < 2 ^ 28) }
        ensures { result ≡ outgoing_view self view }
    {
        if !self.setup.partitionable {
            return 0;
        }
        view_word(pick(self.marked(), self.counters.view, view))
    }

    // Rule 8, and what the next step needs.
    fn after(self, this: Reading, seen: [u32; 16], j: Judgement) -> State
        requires valid { Valid self }
        requires j_value { j ≡ judgement_for self this }
        ensures { result ≡ after_round self this seen }
    {
        let books = self.turned();
        State {
            setup: books.setup,
            own: self.own,
            counters: accounts::round::counters(books.setup, j.health, books.counters),
            previous: this,
            latest: j.syndrome,
            earlier: self.latest,
            pending: books.pending,
            views: self.agreed(seen),
        }
    }

    // A round. The causes are handed on.
    fn played(self, this: Reading, seen: [u32; 16], causes: [u32; 16]) -> Round
        requires { Valid self }
        ensures { round_told result ≡ accepted_step self this seen causes }
    {
        let j = self.judged(this);
        let word = self.outgoing(this, j);
        let accusations = j.accusations;
        let state = self.after(this, seen, j);
        Round {
            health: j.health,
            accusations,
            word,
            second: self.outgoing_view(state.counters.view),
            causes,
            state,
        }
    }

    // 9 for a read of other than N words, or 2N where the setup is partitionable, 10 for a controller bit at N or above, then the round. A refusal leaves
    // the state as it was.
    pub fn stepped(self, read: &[u8], controller: u32) -> Result<Round, Refusal>
        requires { Valid self }
        ensures { stepped_told self result ≡ read_step self read.now controller }
    {
        let n = self.setup.n;
        let partitionable = self.setup.partitionable;
        let whole = read.len() == read_words(partitionable, n) * 4;
        single(whole, Number::Lent, 0)?;
        single(controller < power(n), Number::Controller, 0)?;
        let causes = rules::hearing::causes(n, read, controller);
        let seen = views_seen(partitionable, n, read, controller);
        let this = rules::hearing::reading(n, read, controller);
        Ok(self.played(this, seen, causes))
    }

    // One step of any state: one outside the limits is refused first.
    pub fn step(self, read: &[u8], controller: u32) -> Result<Round, Refusal>
        ensures { stepped_told self result ≡ step_of self read.now controller }
    {
        self.verdict()?;
        self.stepped(read, controller)
    }
}
