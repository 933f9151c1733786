// The bench: plays a run script from standard input, and writes the lines of every round to standard output.
//
// The output is written in parts. Every part is proved to be the next part of the whole before it is written, and none is left out.
#![tactic(auto)]

mod input;
mod written;

ghost use Rattle.std.specs.Prelude.{◌≡◌};
ghost use Rattle.words.specs.Refusal.{refusal_told};
ghost use Rattle.script.specs.Check.{check_script};
ghost use Rattle.backplane.specs.Run.{begun};
ghost use Rattle.backplane.specs.Output.{parts_of};

use backplane::Run;
use input::Input;
use text::line::put_refusal;
use words::Refusal;
use written::Written;

// Plays an accepted script, and writes all its parts.
fn write_rounds(run: Run, script: &[u8]) -> Written
    requires { ((check_script script.now).number ≡ 0) × (run ≡ begun script.now) }
    ensures { result.parts ≡ parts_of script.now }
{
    let mut out = [0u8; 53248];
    let mut now = run;
    let mut written = Written::nothing();
    while !now.over() {
        let filled = now.fill(script, &mut out);
        written = written.with_part(script, &out[..filled.end]);
        now = filled.run;
    }
    written
}

// Writes the line of a refusal, the only part that a refused script has.
fn write_refusal(script: &[u8], refusal: &Refusal) -> Written
    requires { refusal_told refusal.now ≡ check_script script.now }
    ensures { result.parts ≡ parts_of script.now }
{
    let mut out = [0u8; 33];
    let end = put_refusal(&mut out, 0, refusal.number.code(), refusal.index);
    Written::nothing().with_part(script, &out[..end])
}

// Plays the script, or says by what number and at which word it is refused.
fn play(script: &[u8]) -> Written
    ensures { result.parts ≡ parts_of script.now }
{
    match Run::start(script) {
        Ok(run) => write_rounds(run, script),
        Err(refusal) => write_refusal(script, &refusal),
    }
}

// `main` can have no contract: that it reads once and plays what was read is read off its first two lines.
fn main() {
    let input = Input::read();
    let written = input.play();
    if !written.is_whole() {
        io::write_all(
            2,
            b"bench: standard output failed, so the lines are not whole\n",
        );
    }
}
