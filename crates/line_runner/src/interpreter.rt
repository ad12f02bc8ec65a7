//! What runs the lines of a source, one by one.

ghost use Rattle.std.specs.Prelude.{◌≡◌};
ghost use Rattle.line_runner.specs.Play.{ended_by};

use game_sheet::NoMemory;
use std::alloc::Global;

/// Why a line wasn't run.
#[derive(Clone, Copy)]
pub enum LineNo {
    /// It is in no form.
    BadLine,
    /// There was no memory.
    NoMemory,
}

/// Runs lines, each of which makes something of what the lines before it have come to, and prints something.
pub trait Interpreter {
    ghost use Rattle.line_runner.specs.Play.{Doing, IsPlay, Play, RunsLine};

    /// What the lines themselves leave open, as whether there was memory.
    ghost Mark: { Type 0 };

    /// What a line in form asks for.
    ghost Step: { Type 0 };

    /// What lines come to.
    ghost State: { Type 0 };

    /// Which lines are in form, and what they make of a state and print.
    ghost play: { Play Mark Step State };

    /// Which state it stands for, and what one step makes of a state and prints.
    ghost doing: { Doing Mark Step State Self };

    /// Runs a line, and adds what it prints to a text.
    ///
    /// After `NoMemory` the line may have been run in part, and what is known then is the play's: the run ends.
    fn run_line(&mut self, alloc: Global, line: &[u8], text: &mut Vec<u8>) -> Result<(), LineNo>
        requires { (s : State) × doing.Stands self.old s }
        ensures { (s : State) → doing.Stands self.old s → RunsLine play doing s line.now self.new text.old.items text.new.items result };

    /// Lines are run one by one.
    ghost one_by_one: { IsPlay play doing };
}

/// What a line comes to where its step was done, or there was no memory for it.
pub fn ended(done: Result<(), NoMemory>) -> Result<(), LineNo>
    ensures { result ≡ ended_by done }
{
    match done {
        Ok(()) => Ok(()),
        Err(_) => Err(LineNo::NoMemory),
    }
}
