//! The workload's world, and the single lines of it.

ghost use Rattle.std.specs.Prelude.{◌≡◌, ◌<◌, ◌+◌, ◌^◌, ℕ, List, [], IfOk, OnOk, replicate};
ghost use Rattle.any_game.specs.AnyRules.{any_rules, named};
ghost use Rattle.any_game.specs.GameKind.{GameKind};
ghost use Rattle.any_game.specs.declared.any_g.AnyG.{AnyG};
ghost use Rattle.world_history.specs.World.{Acts, Arrives, Reads, Takes, new_world};
ghost use Rattle.world_history.specs.Workload.{Workload, goes};
ghost use Rattle.session_hall.specs.Held.{tape_of};
ghost use Rattle.wire_json.specs.Asking.{IsAskable};
ghost use Rattle.workload.specs.IsLoad.{IsLoad};

mod round;
mod steps;

use crate::counts::{Counts, more};
use crate::place::Place;
use client_world::ClientWorld;
use dice_words::Tape;
use game_sheet::NoMemory;
use std::alloc::Global;
use std::marker::Model;
use wire_json::Asked;

/// How many rooms a workload has.
const ROOMS: u8 = 8;

/// The workload's world, the seats of its round, the tape of its steps, and what it has counted.
///
/// Contracts see what it holds, and that it stands for a workload as `world_history` has it. After `NoMemory` a run is at its end, and
/// no more is said of it.
pub struct Load {
    alloc: Global,
    world: ClientWorld,
    places: Vec<Place>,
    tape: Tape,
    counts: Counts,
}

impl Drop for Load {
    fn drop(self) {
        let Load {
            alloc: _,
            world,
            places,
            tape,
            counts,
        } = self;
        drop(world);
        drop(places);
        drop(tape);
        drop(counts);
    }
}

impl Model for Load {
    ghost use Rattle.std.specs.Prelude.{◌≤◌, IsSome, length};
    ghost use Rattle.workload.specs.IsLoad.{HeldLoad};

    ghost Value = { HeldLoad };

    ghost view = { λ l. record { world = l.world; places = l.places.items; tape = l.tape; counts = l.counts } };

    ghost invariant = { λ l. (length l.places.items ≤ 14) × IsSome l.tape.source };
}

impl Load {
    /// A world in which nothing has happened, with the words of a seed for its steps.
    pub(crate) fn new(alloc: Global, seed: [u8; 32]) -> Result<Self, NoMemory>
        ensures { IfOk result (λ load. IsLoad (tape_of (replicate 32 0)) (tape_of seed) 0 load
            (record { world = new_world 8; places = []; drawn = 0; held = 0; read = 0 })) }
    {
        let world = ClientWorld::new(alloc, ROOMS, [0; 32])?;
        Ok(Load {
            alloc,
            world,
            places: Vec::new(alloc),
            tape: Tape::live(seed, 0, 0),
            counts: Counts::new(),
        })
    }

    /// What it has counted.
    pub(crate) fn counts(&self) -> Counts
        ensures { result ≡ self.now.counts }
    {
        self.counts
    }

    /// A client acts: the line of its action goes on its up link.
    fn act(&mut self, client: u8, asked: &Asked) -> Result<(), NoMemory>
        requires client { client < 32 }
        requires form { IsAskable asked.now }
        ensures goes { (tape words : ℕ → List ℕ) (lines : ℕ) (l : Workload GameKind AnyG) → lines < 2 ^ 64 → IsLoad tape words lines self.old l
            → OnOk result (IsLoad tape words (lines + 1) self.new (goes named any_rules tape (Acts client asked.now) l)) }
        ensures keeps { OnOk result (self.new.places ≡ self.old.places) }
    {
        let held = self.world.act_counted(client, asked)?;
        self.counts.held = more(self.counts.held, u64::from(held));
        Ok(())
    }

    /// The oldest line of a client's up link reaches its session.
    fn arrive(&mut self, client: u8) -> Result<(), NoMemory>
        requires { client < 32 }
        ensures goes { (tape words : ℕ → List ℕ) (lines : ℕ) (l : Workload GameKind AnyG) → lines < 2 ^ 64 → IsLoad tape words lines self.old l
            → OnOk result (IsLoad tape words (lines + 1) self.new (goes named any_rules tape (Arrives client) l)) }
        ensures keeps { OnOk result (self.new.places ≡ self.old.places) }
    {
        let tally = self.world.arrive_counted(client)?;
        self.counts.accepted = more(self.counts.accepted, u64::from(tally.accepted));
        self.counts.refused = more(self.counts.refused, u64::from(tally.refused));
        Ok(())
    }

    /// What waits for a client's session goes on its down link.
    fn take(&mut self, client: u8) -> Result<(), NoMemory>
        requires { client < 32 }
        ensures goes { (tape words : ℕ → List ℕ) (lines : ℕ) (l : Workload GameKind AnyG) → lines < 2 ^ 64 → IsLoad tape words lines self.old l
            → OnOk result (IsLoad tape words (lines + 1) self.new (goes named any_rules tape (Takes client) l)) }
        ensures keeps { OnOk result (self.new.places ≡ self.old.places) }
    {
        let bytes = self.world.take_counted(client)?;
        self.counts.bytes = more(self.counts.bytes, bytes);
        Ok(())
    }

    /// A client reads the oldest line of its down link.
    fn read(&mut self, client: u8) -> Result<(), NoMemory>
        requires { client < 32 }
        ensures goes { (tape words : ℕ → List ℕ) (lines : ℕ) (l : Workload GameKind AnyG) → lines < 2 ^ 64 → IsLoad tape words lines self.old l
            → OnOk result (IsLoad tape words (lines + 1) self.new (goes named any_rules tape (Reads client) l)) }
        ensures keeps { OnOk result (self.new.places ≡ self.old.places) }
    {
        let read = self.world.read_counted(client)?;
        self.counts.read = more(self.counts.read, u64::from(read));
        Ok(())
    }
}
