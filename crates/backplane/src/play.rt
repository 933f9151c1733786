// A whole backplane, round by round.
ghost use Rattle.std.specs.Prelude.{◌≡◌, ℕ, ◌≤◌, ◌<◌, ◌^◌};
ghost use Rattle.presence.specs.Valid.{Valid};
ghost use Rattle.presence.specs.Step.{stepped_told};
ghost use Rattle.backplane.specs.Play.{state_at, Sound, step_in, opened_states, opened, sent_words, sent_views, stepped_states, answered_health, earlier, followers_view, counting_view, played};

use crate::Backplane;
use bus::arrivals::{arrived, faultless, put_read, read_bits};
use bus::half_heard::{first_follower, hearing};
use bus::limit::kept_over;
use bus::{Bus, Hearing};
use presence::{Round, State};
use rules::hearing::bus_word;
use rules::lag::is_skewed;
use script::Events;
use setup::Setup;
use views::read::read_words;
use views::word::view_word;
use words::Refusal;
use words::array::{filled, from_fn};
use words::bits::full_of;
use words::word::KIND;

// What the steps of a round give: the states, and the health vectors answered.
#[derive(Clone, Copy)]
struct Steps {
    states: [State; 16],
    health: [u32; 16],
}

// Every module opened with its own number.
fn opened_states(setup: Setup) -> [State; 16]
    requires { setup.n ≤ 16 }
    ensures { result ≡ opened_states setup }
{
    let mut states = [State::open(setup, 1).unwrap_or(State::blank()); 16];
    for i in 0..setup.n {
        states[i] = State::open(setup, i + 1).unwrap_or(State::blank());
    }
    states
}

// The words sent in the next round: all hold the syndromes of this one.
fn sent_words(n: usize, states: &[State; 16]) -> [u32; 16]
    requires { n ≤ 16 }
    ensures { result ≡ sent_words n states.now }
{
    from_fn(n, |j| bus_word(states[j].latest() % KIND))
}

// The view words sent in the next round: all hold the local views of this one.
fn sent_views(n: usize, states: &[State; 16]) -> [u32; 16]
    requires { n ≤ 16 }
    ensures { result ≡ sent_views n states.now }
{
    from_fn(n, |j| view_word(states[j].view() % KIND))
}

// The step of module i + 1 on its read, of N words or with the view words of 2N.
fn step_one(
    state: State,
    setup: &Setup,
    i: usize,
    this: &Bus,
    before: &Bus,
) -> Result<Round, Refusal>
    requires { (setup.now.n ≤ 16) × (i < 16) × Valid state }
    ensures { stepped_told state result ≡ step_in state setup.now this.now before.now i }
{
    let n = setup.n;
    let place = setup.places[i];
    let mut read = [0u8; 128];
    let k = read_words(setup.partitionable, n) * 4;
    put_read(
        setup.partitionable,
        n,
        place,
        i,
        &this.words,
        &before.words,
        &this.views,
        &before.views,
        &mut read[..k],
    );
    state.stepped(
        &read[..k],
        read_bits(n, place, this.bits[i], before.bits[i]),
    )
}

// The steps of all modules in the round whose bus is `this`. One that is refused leaves its state as it was, and its health vector is 0.
fn step_all(setup: &Setup, held: [State; 16], this: &Bus, before: &Bus) -> Steps
    requires { (setup.now.n ≤ 16) × ((i : ℕ) → i < setup.now.n → Valid (state_at held i)) }
    ensures { (result.states ≡ stepped_states setup.now held this.now before.now) × (result.health ≡ answered_health setup.now held this.now before.now) }
{
    let mut states = held;
    let mut health = [0u32; 16];
    for i in 0..setup.n {
        if let Ok(round) = step_one(states[i], setup, i, this, before) {
            states[i] = round.state;
            health[i] = round.health;
        }
    }
    Steps { states, health }
}

// The rule-followers' view: the local view of the lowest of them.
fn followers_view(n: usize, cast: u32, states: &[State; 16]) -> u32
    requires { n ≤ 16 }
    ensures { result ≡ followers_view n cast states.now }
{
    states[first_follower(n, cast)].view()
}

impl Backplane {
    // Before round 1.
    pub fn open(setup: Setup, cast: u32) -> Backplane
        requires { setup.n ≤ 16 }
        ensures { result ≡ opened setup cast }
    {
        let n = setup.n;
        let states = opened_states(setup);
        let health = filled(n, full_of(n));
        let bus = faultless(n);
        let heard = hearing(n, cast, bus);
        Backplane {
            setup,
            cast,
            round: 0,
            states,
            health,
            bus,
            hearing: heard,
            before: heard,
            kept: true,
        }
    }

    // How the round u + 1 before the next one was heard.
    fn earlier(self) -> Hearing
        requires { self.setup.n ≤ 16 }
        ensures { result ≡ earlier self }
    {
        if is_skewed(self.setup.n, self.setup.places) {
            self.before
        } else {
            self.hearing
        }
    }

    // The view by which the rows of the next round are counted, where `after` are the states after it.
    fn counting(self, after: &[State; 16]) -> u32
        requires { self.setup.n ≤ 16 }
        ensures { result ≡ counting_view self after.now }
    {
        let n = self.setup.n;
        if is_skewed(n, self.setup.places) {
            followers_view(n, self.cast, after)
        } else {
            followers_view(n, self.cast, &self.states)
        }
    }

    // The next round with these events.
    pub fn play(self, events: Events) -> Backplane
        requires { Sound self × (self.round < 2 ^ 31) }
        ensures { result ≡ played self events }
    {
        let n = self.setup.n;
        let sent = sent_words(n, &self.states);
        let views = sent_views(n, &self.states);
        let bus = arrived(n, sent, views, events);
        let steps = step_all(&self.setup, self.states, &bus, &self.bus);
        let heard = hearing(n, self.cast, bus);
        let view = self.counting(&steps.states);
        let then = self.earlier();
        let kept = self.kept & kept_over(n, self.cast, view, heard, then);
        Backplane {
            round: self.round + 1,
            states: steps.states,
            health: steps.health,
            bus,
            hearing: heard,
            before: self.hearing,
            kept,
            ..self
        }
    }
}
