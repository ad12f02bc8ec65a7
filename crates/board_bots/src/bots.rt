//! Three bots.

ghost use Rattle.std.specs.Prelude.{◌≡◌, ◌+◌, ◌<◌, ◌≤◌, ◌∷◌, ◌++◌, [], IfOk, IfSome, IsSome, OnErr, OnOk, length};

use crate::bot::Bot;
use crate::glance::Glance;
use dice_words::Tape;
use game_sheet::{Args, MoveId, NoMemory};
use std::alloc::Global;

/// What a bot was shown and answered.
#[derive(Drop)]
struct Memory {
    seen: Vec<Glance>,
    chosen: Vec<Option<u32>>,
}

impl Memory {
    fn none(alloc: Global) -> Self
        ensures { (result.seen.items ≡ []) × (result.chosen.items ≡ []) }
    {
        Memory {
            seen: Vec::new(alloc),
            chosen: Vec::new(alloc),
        }
    }

    /// Keeps a glance and an answer, or neither.
    fn keep(&mut self, glance: Glance, choice: Option<u32>) -> Result<(), NoMemory>
        ensures saw { OnOk result (self.new.seen.items ≡ self.old.seen.items ++ glance ∷ []) }
        ensures answered { OnOk result (self.new.chosen.items ≡ self.old.chosen.items ++ choice ∷ []) }
        ensures unseen { OnErr result (self.new.seen.items ≡ self.old.seen.items) }
        ensures unanswered { OnErr result (self.new.chosen.items ≡ self.old.chosen.items) }
    {
        if self.chosen.reserve(1).is_err() {
            drop(glance);
            return Err(NoMemory);
        }
        match self.seen.push(glance) {
            Ok(()) => {
                self.chosen.push_reserved(choice);
                Ok(())
            }
            Err(_) => Err(NoMemory),
        }
    }
}

/// Chooses the first option.
#[derive(Drop)]
pub struct FirstBot {
    memory: Memory,
}

/// Chooses an option by a die.
#[derive(Drop)]
pub struct DiceBot {
    tape: Tape,
    memory: Memory,
    ghost live: { IsSome tape.source },
}

/// Chooses nothing.
#[derive(Drop)]
pub struct PassBot {
    memory: Memory,
}

impl FirstBot {
    /// A bot that was shown nothing. It takes no memory.
    pub fn new(alloc: Global) -> FirstBot
        ensures { (⟦<FirstBot as Bot>⟧.seen result ≡ []) × (⟦<FirstBot as Bot>⟧.chosen result ≡ []) }
    {
        FirstBot {
            memory: Memory::none(alloc),
        }
    }
}

impl DiceBot {
    /// A bot that was shown nothing, with a live tape of its own. It takes no memory.
    pub fn new(alloc: Global, tape: Tape) -> DiceBot
        requires { IsSome tape.source }
        ensures { (⟦<DiceBot as Bot>⟧.seen result ≡ []) × (⟦<DiceBot as Bot>⟧.chosen result ≡ []) }
    {
        DiceBot {
            tape,
            memory: Memory::none(alloc),
        }
    }
}

impl PassBot {
    /// A bot that was shown nothing. It takes no memory.
    pub fn new(alloc: Global) -> PassBot
        ensures { (⟦<PassBot as Bot>⟧.seen result ≡ []) × (⟦<PassBot as Bot>⟧.chosen result ≡ []) }
    {
        PassBot {
            memory: Memory::none(alloc),
        }
    }
}

impl Bot for FirstBot {
    ghost seen = { λ b. b.memory.seen.items };

    ghost chosen = { λ b. b.memory.chosen.items };

    fn choose(
        &mut self,
        glance: Glance,
        _options: &[(MoveId, Args)],
    ) -> Result<Option<u32>, NoMemory> {
        self.memory.keep(glance, Some(0))?;
        Ok(Some(0))
    }
}

impl Bot for DiceBot {
    ghost seen = { λ b. b.memory.seen.items };

    ghost chosen = { λ b. b.memory.chosen.items };

    fn choose(
        &mut self,
        glance: Glance,
        options: &[(MoveId, Args)],
    ) -> Result<Option<u32>, NoMemory> {
        self.tape.begin();
        let Ok(face) = self.tape.die(options.len() as u32) else {
            unreachable!();
        };
        let choice = Some(face - 1);
        self.memory.keep(glance, choice)?;
        Ok(choice)
    }
}

impl Bot for PassBot {
    ghost seen = { λ b. b.memory.seen.items };

    ghost chosen = { λ b. b.memory.chosen.items };

    fn choose(
        &mut self,
        glance: Glance,
        _options: &[(MoveId, Args)],
    ) -> Result<Option<u32>, NoMemory> {
        self.memory.keep(glance, None)?;
        Ok(None)
    }
}
