//! The steps of a workload.

ghost use Rattle.std.specs.Prelude.{◌≡◌, ◌<◌, ◌≤◌, ◌+◌, ◌*◌, ◌^◌, ◌∷◌, ℕ, List, OnOk, Some, length, slice_get};
ghost use Rattle.any_game.specs.AnyRules.{any_rules, named};
ghost use Rattle.any_game.specs.GameKind.{GameKind};
ghost use Rattle.any_game.specs.declared.any_g.AnyG.{AnyG};
ghost use Rattle.dice_words.specs.Dice.{Rolled};
ghost use Rattle.dice_words.specs.Strip.{Follows};
ghost use Rattle.world_history.specs.World.{Acts};
ghost use Rattle.world_history.specs.Workload.{Workload, after_step, begins_round, choice, choice_words, goes, step_of, steps_from, takes_step};
ghost use Rattle.wire_json.specs.Asking.{IsAskable};
ghost use Rattle.workload.specs.IsLoad.{IsLoad, deed_words, draws, round_lines, step_lines};

use super::Load;
use dice_words::Tape;
use game_sheet::{EventKind, NoMemory};
use wire_json::{Asked, AskedTo};

/// How many steps a round has.
const ROUND_STEPS: u32 = 1_000;

/// How many clients there are.
const CLIENTS: u32 = 14;

/// How many faces the die has that says what a client does.
const DEEDS: u32 = 16;

impl Load {
    /// Runs so many steps, in rounds.
    pub(crate) fn run(&mut self, steps: u32) -> Result<(), NoMemory>
        ensures { (tape words : ℕ → List ℕ) (l : Workload GameKind AnyG) → IsLoad tape words 0 self.old l
            → OnOk result (IsLoad tape words (step_lines steps) self.new (steps_from named any_rules tape words 0 steps (begins_round named any_rules tape l))) }
    {
        self.begin_round()?;
        for done in 0..steps {
            self.take_step()?;
            self.after_step(done + 1, steps - done - 1)?;
        }
        Ok(())
    }

    /// Begins a new round after the last step of one, unless no step is left.
    fn after_step(&mut self, done: u32, left: u32) -> Result<(), NoMemory>
        ensures { (tape words : ℕ → List ℕ) (lines : ℕ) (l : Workload GameKind AnyG) → lines + round_lines ≤ 2 ^ 64 → IsLoad tape words lines self.old l
            → OnOk result (IsLoad tape words (lines + round_lines) self.new (after_step named any_rules tape words done left l)) }
    {
        if done % ROUND_STEPS == 0 && left != 0 {
            self.end_round()?;
            self.begin_round()?;
        }
        Ok(())
    }

    /// Takes a step: by two words a client, and what it does.
    fn take_step(&mut self) -> Result<(), NoMemory>
        ensures { (tape words : ℕ → List ℕ) (lines : ℕ) (l : Workload GameKind AnyG) → lines < 2 ^ 64 → IsLoad tape words lines self.old l
            → OnOk result (IsLoad tape words (lines + 1) self.new (takes_step named any_rules tape words l)) }
    {
        self.tape.begin();
        let client = face(&mut self.tape, CLIENTS) - 1;
        let deed = face(&mut self.tape, DEEDS);
        self.go(client as u8, deed)
    }

    /// A client does what a number from 1 to 16 says.
    fn go(&mut self, client: u8, deed: u32) -> Result<(), NoMemory>
        requires client { client < 32 }
        requires word { 0 < length self.old.tape.left }
        ensures { (tape words : ℕ → List ℕ) (lines : ℕ) (l : Workload GameKind AnyG) (word : ℕ) → lines < 2 ^ 64 → IsLoad tape words lines self.old l
            → slice_get self.old.tape.left 0 ≡ Some word
            → OnOk result (IsLoad tape words (lines + 1) self.new (goes named any_rules tape (step_of any_rules l.world client deed word) (draws (deed_words l.world client deed) l))) }
    {
        if deed <= 2 {
            self.choose(client)
        } else if deed == 3 {
            let end_turn = Asked::Event {
                kind: EventKind::EndTurn,
                to: AskedTo::Nothing,
            };
            self.act_as(client, end_turn)
        } else if deed == 4 {
            self.act_as(client, Asked::Undo)
        } else if deed <= 8 {
            self.arrive(client)
        } else if deed <= 11 {
            self.take(client)
        } else {
            self.read(client)
        }
    }

    /// A client takes one of the moves that it is offered, by a word.
    fn choose(&mut self, client: u8) -> Result<(), NoMemory>
        requires client { client < 32 }
        requires word { 0 < length self.old.tape.left }
        ensures { (tape words : ℕ → List ℕ) (lines : ℕ) (l : Workload GameKind AnyG) (word : ℕ) → lines < 2 ^ 64 → IsLoad tape words lines self.old l
            → slice_get self.old.tape.left 0 ≡ Some word
            → OnOk result (IsLoad tape words (lines + 1) self.new (goes named any_rules tape (Acts client (choice any_rules (l.world.clients client) word))
            (draws (choice_words any_rules (l.world.clients client)) l))) }
    {
        let asked = self.world.choose(client, &mut self.tape)?;
        self.act_as(client, asked)
    }

    /// A client acts.
    fn act_as(&mut self, client: u8, asked: Asked) -> Result<(), NoMemory>
        requires client { client < 32 }
        requires form { IsAskable asked }
        ensures { (tape words : ℕ → List ℕ) (lines : ℕ) (l : Workload GameKind AnyG) → lines < 2 ^ 64 → IsLoad tape words lines self.old l
            → OnOk result (IsLoad tape words (lines + 1) self.new (goes named any_rules tape (Acts client asked) l)) }
    {
        let acted = self.act(client, &asked);
        drop(asked);
        acted
    }
}

/// The face of a die that the step's next word gives.
fn face(tape: &mut Tape, faces: u32) -> u32
    requires faces { 1 ≤ faces }
    requires word { 0 < length tape.old.left }
    ensures rolled { Rolled faces result tape.old.left tape.new.left }
    ensures at_least { 1 ≤ result }
    ensures at_most { result ≤ faces }
    ensures counted { tape.new.used ≡ tape.old.used + 1 }
    ensures follows { Follows tape.old tape.new }
{
    let Ok(face) = tape.die(faces) else {
        unreachable!();
    };
    face
}
