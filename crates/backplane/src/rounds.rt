// A run script, played round by round, with the lines of many rounds put into a buffer to be written at once.
ghost use Rattle.std.specs.Prelude.{◌≡◌, ◌+◌, ◌≤◌, ◌<◌, length};
ghost use Rattle.words.specs.Array.{array};
ghost use Rattle.presence.specs.Shown.{shown_view};
ghost use Rattle.text.specs.Wrote.{Wrote};
ghost use Rattle.backplane.specs.Play.{state_at, Sound};
ghost use Rattle.backplane.specs.Run.{next_of, later, printed};
ghost use Rattle.backplane.specs.Output.{round_lines, next_lines};

use crate::{Filled, Run};
use presence::State;
use script::MOST_ROUNDS;
use text::line::put_lines;
use words::array::from_fn;

// The views of the modules that their lines show.
fn views(n: usize, states: &[State; 16]) -> [u32; 16]
    requires { n ≤ 16 }
    ensures { result ≡ array n (λ i. shown_view (state_at states.now i)) }
{
    from_fn(n, |i| states[i].shown())
}

// Writes the lines of the round that a run has come to, if the script is not over.
fn put_round(run: Run, out: &mut [u8], at: usize) -> usize
    requires { (run.backplane.setup.n ≤ 16) × (at + 832 ≤ length out.old) }
    ensures { Wrote out.old at (round_lines run) out.new result × (result ≤ at + 832) }
{
    if run.over() {
        return at;
    }
    run.put_lines(out, at)
}

impl Run {
    // Plays the next round, if the script has one.
    fn next(self, s: &[u8]) -> Run
        requires { Sound self.backplane }
        ensures { result ≡ next_of s.now self }
    {
        let last = self.cursor;
        let backplane = self.backplane;
        let cursor = last.advance(s);
        if !cursor.over & (backplane.round < MOST_ROUNDS) {
            let events = cursor.events;
            let played = backplane.play(events);
            return Run {
                cursor,
                backplane: played,
            };
        }
        Run { cursor, backplane }
    }

    // Writes the lines of the round at a place of the output, and answers the place after them.
    fn put_lines(self, out: &mut [u8], at: usize) -> usize
        requires { (self.backplane.setup.n ≤ 16) × (at + 832 ≤ length out.old) }
        ensures { Wrote out.old at (printed self.backplane) out.new result × (result ≤ at + 832) }
    {
        let b = self.backplane;
        let n = b.setup.n;
        let view = views(n, &b.states);
        put_lines(out, at, n, b.round, b.kept, b.health, view)
    }

    // Plays 64 rounds, or as many as are left, and writes their lines to the front of the output. (64 times 832 bytes is 53,248.)
    pub fn fill(self, s: &[u8], out: &mut [u8]) -> Filled
        requires { Sound self.backplane × (53248 ≤ length out.old) }
        ensures { (result.run ≡ later s.now self 64)
            × Wrote out.old 0 (next_lines s.now self 64) out.new result.end }
    {
        let mut run = self;
        let mut at = 0;
        for _ in 0..64u32 {
            run = run.next(s);
            at = put_round(run, out, at);
        }
        Filled { run, end: at }
    }
}
