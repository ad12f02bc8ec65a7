//! The answers that a bot's link has given, kept so that it can tell them.

ghost use Rattle.std.specs.Prelude.{◌≡◌, ◌++◌, ◌∷◌, [], OnErr, OnOk};
ghost use Rattle.board_links.specs.declared.link.Came.TheVariants as came;
ghost use Rattle.board_bots.specs.Runs.{came_of, told_of};

use game_sheet::NoMemory;
use std::alloc::Global;
use std::marker::Model;

/// What was answered after some silences.
#[derive(Drop)]
pub(crate) enum Spoken {
    /// A line.
    Line(Vec<u8>),
    /// An end.
    Ended,
}

/// So many silences, and what was answered then.
#[derive(Drop)]
pub(crate) struct Run {
    quiet: u64,
    spoken: Spoken,
}

/// The answers that a link has given, in order, a run of silences as one number. Contracts see the answers.
pub(crate) struct Answers {
    runs: Vec<Run>,
    quiet: u64,
}

impl Drop for Answers {
    fn drop(self) {
        let Answers { runs, quiet: _ } = self;
        drop(runs);
    }
}

impl Model for Answers {
    ghost use Rattle.std.specs.Prelude.{List};
    ghost use Rattle.board_links.specs.declared.link.Came.{Came};
    ghost use Rattle.board_bots.specs.Runs.{told_of};

    ghost Value = { List Came };

    ghost view = { λ a. told_of a.runs.items a.quiet };
}

impl Answers {
    /// No answer. It takes no memory.
    pub(crate) fn none(alloc: Global) -> Self
        ensures { result ≡ [] }
    {
        Answers {
            runs: Vec::new(alloc),
            quiet: 0,
        }
    }

    /// A line was answered, of which this is a copy.
    pub(crate) fn line(&mut self, line: Vec<u8>) -> Result<(), NoMemory>
        ensures ok { OnOk result (self.new ≡ self.old ++ came.Line line.items ∷ []) }
        ensures err { OnErr result (self.new ≡ self.old) }
    {
        keep(&mut self.runs, self.quiet, Spoken::Line(line))?;
        self.quiet = 0;
        Ok(())
    }

    /// An end was answered.
    pub(crate) fn ended(&mut self) -> Result<(), NoMemory>
        ensures ok { OnOk result (self.new ≡ self.old ++ came.Ended ∷ []) }
        ensures err { OnErr result (self.new ≡ self.old) }
    {
        keep(&mut self.runs, self.quiet, Spoken::Ended)?;
        self.quiet = 0;
        Ok(())
    }

    /// A silence was answered. It takes no memory, and has none only after 2^64 silences in a row.
    #[tactic(auto, using(crate::proofs::Told::one_silence))]
    pub(crate) fn quiet(&mut self) -> Result<(), NoMemory>
        ensures ok { OnOk result (self.new ≡ self.old ++ came.Quiet ∷ []) }
        ensures err { OnErr result (self.new ≡ self.old) }
    {
        if self.quiet == u64::MAX {
            return Err(NoMemory);
        }
        self.quiet += 1;
        Ok(())
    }
}

/// Keeps what was answered after so many silences.
fn keep(runs: &mut Vec<Run>, quiet: u64, spoken: Spoken) -> Result<(), NoMemory>
    ensures ok { OnOk result (told_of runs.new.items 0 ≡ told_of runs.old.items quiet ++ came_of spoken ∷ []) }
    ensures err { OnErr result (runs.new.items ≡ runs.old.items) }
{
    push(runs, Run { quiet, spoken })
}

fn push(runs: &mut Vec<Run>, run: Run) -> Result<(), NoMemory>
    ensures ok { OnOk result (runs.new.items ≡ runs.old.items ++ run ∷ []) }
    ensures err { OnErr result (runs.new.items ≡ runs.old.items) }
{
    match runs.push(run) {
        Ok(()) => Ok(()),
        Err(_) => Err(NoMemory),
    }
}
