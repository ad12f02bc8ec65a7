//! What a client keeps of its part in a match.

ghost use Rattle.std.specs.Prelude.{◌≡◌, ◌≤◌, ◌<◌, ◌+◌, ◌++◌, ◌∷◌, [], length, take, IfOk, OnOk, OnErr};
ghost use Rattle.std.specs.List.{remove};
ghost use Rattle.std.specs.Vec.{vec_capacity};
ghost use Rattle.client_predict.specs.Acting.{next_ticket};
ghost use Rattle.client_predict.specs.Reading.{begun, settled_by};
ghost use Rattle.client_predict.specs.Stack.{after, playing_of, snapshot_of, KeepsRoom, StaysSettled};

use crate::change::Change;
use crate::guess::Guess;
use crate::predict::shown_after;
use crate::shown::Shown;
use crate::waiting::Waiting;
use game_sheet::{MatchName, NoMemory, Number, Seat};
use player_sight::Snapshot;
use std::alloc::Global;

/// At most so many actions wait for their verdicts.
pub(crate) const MOST_WAITING: usize = 32;

/// A client's part in a match since its last sync.
pub(crate) struct Part<G> {
    /// Which match.
    pub(crate) name: MatchName,
    /// The viewer's seat; none for a spectator.
    pub(crate) seat: Option<Seat>,
    /// The last snapshot that the server settled.
    pub(crate) settled: Snapshot<G>,
    /// The actions that wait for their verdicts, the oldest first.
    pub(crate) waiting: Vec<Waiting>,
    /// For each of them what was guessed of it, where it counted.
    pub(crate) guesses: Vec<Option<Guess<G>>>,
    /// The next ticket.
    pub(crate) ticket: u32,
}

impl<G: Drop> Drop for Part<G> {
    fn drop(self) {
        let Part {
            name: _,
            seat: _,
            settled,
            waiting,
            guesses,
            ticket: _,
        } = self;
        drop(settled);
        drop(waiting);
        drop(guesses);
    }
}

impl<G: Drop> Part<G> {
    /// The part of a session that begins.
    pub(crate) fn new(
        alloc: Global,
        name: MatchName,
        seat: Option<Seat>,
        settled: Snapshot<G>,
    ) -> Result<Self, NoMemory>
        ensures begun { IfOk result (λ p. playing_of p ≡ begun name seat settled) }
        ensures guesses { IfOk result (λ p. p.guesses.items ≡ []) }
        ensures room { IfOk result (λ p. (32 ≤ vec_capacity p.waiting) × (32 ≤ vec_capacity p.guesses)) }
    {
        match room_to_wait(alloc) {
            Ok((waiting, guesses)) => Ok(Part {
                name,
                seat,
                settled,
                waiting,
                guesses,
                ticket: 1,
            }),
            Err(NoMemory) => {
                drop(settled);
                Err(NoMemory)
            }
        }
    }

    /// What is shown.
    pub(crate) fn shown(&self) -> Shown<'_, G>
        ensures { snapshot_of result ≡ after self.now.settled self.now.guesses.items }
    {
        shown_after(parts_of(&self.settled), self.guesses.as_slice())
    }

    /// One action more waits, with what is guessed of it.
    pub(crate) fn wait(&mut self, waits: Waiting, guess: Option<Guess<G>>)
        requires waiting_room { length self.old.waiting.items < vec_capacity self.old.waiting }
        requires guesses_room { length self.old.guesses.items < vec_capacity self.old.guesses }
        ensures stays { StaysSettled self.old self.new }
        ensures waits { self.new.waiting.items ≡ self.old.waiting.items ++ waits ∷ [] }
        ensures guess { self.new.guesses.items ≡ self.old.guesses.items ++ guess ∷ [] }
        ensures ticket { self.new.ticket ≡ next_ticket self.old.ticket }
        ensures room { KeepsRoom self.old self.new }
    {
        self.waiting.push_reserved(waits);
        self.guesses.push_reserved(guess);
        self.ticket = next_ticket(self.ticket);
    }

    /// The action at a place waits no more. Nothing was guessed of it, so no guess is touched.
    pub(crate) fn take_out(&mut self, place: usize)
        requires waits { place < length self.old.waiting.items }
        requires guess { place < length self.old.guesses.items }
        ensures stays { StaysSettled self.old self.new }
        ensures ticket { self.new.ticket ≡ self.old.ticket }
        ensures waits { self.new.waiting.items ≡ remove self.old.waiting.items place }
        ensures guesses { self.new.guesses.items ≡ remove self.old.guesses.items place }
        ensures room { KeepsRoom self.old self.new }
    {
        let answered = self.waiting.remove(place);
        drop(answered);
        let guess = self.guesses.remove(place);
        drop(guess);
    }

    /// The action at a place waits no more, and those after it have these guesses.
    pub(crate) fn roll_back(&mut self, place: usize, fresh: Vec<Option<Guess<G>>>)
        requires waits { place < length self.old.waiting.items }
        requires guess { place ≤ length self.old.guesses.items }
        requires room { place + length fresh.items ≤ vec_capacity self.old.guesses }
        ensures stays { StaysSettled self.old self.new }
        ensures ticket { self.new.ticket ≡ self.old.ticket }
        ensures waits { self.new.waiting.items ≡ remove self.old.waiting.items place }
        ensures guesses { self.new.guesses.items ≡ take place self.old.guesses.items ++ fresh.items }
        ensures room { KeepsRoom self.old self.new }
    {
        let answered = self.waiting.remove(place);
        drop(answered);
        replace_from(&mut self.guesses, place, fresh);
    }

    /// The next snapshot is settled, and the waiting actions have these guesses. Without memory nothing changes.
    pub(crate) fn settle(
        &mut self,
        change: Change<G>,
        number: Number,
        fresh: Vec<Option<Guess<G>>>,
    ) -> Result<(), NoMemory>
        requires { length fresh.items ≤ vec_capacity self.old.guesses }
        ensures settled { OnOk result (self.new.settled ≡ settled_by self.old.settled change number) }
        ensures guesses { OnOk result (self.new.guesses.items ≡ fresh.items) }
        ensures room { OnOk result (KeepsRoom self.old self.new) }
        ensures same { OnOk result ((self.new.name ≡ self.old.name) × (self.new.seat ≡ self.old.seat)) }
        ensures waits { OnOk result ((self.new.waiting.items ≡ self.old.waiting.items) × (self.new.ticket ≡ self.old.ticket)) }
        ensures err { OnErr result (self.new ≡ self.old) }
    {
        let Change { ctx, entry, g } = change;
        match self.settled.log.push(entry) {
            Ok(()) => {
                self.settled.ctx = ctx;
                self.settled.g = g;
                self.settled.number = number;
                replace_from(&mut self.guesses, 0, fresh);
                Ok(())
            }
            Err(NoMemory) => {
                drop(ctx);
                drop(g);
                drop(fresh);
                Err(NoMemory)
            }
        }
    }
}

/// The parts of a snapshot.
pub(crate) fn parts_of<G>(s: &Snapshot<G>) -> Shown<'_, G>
    ensures { snapshot_of result ≡ s.now }
{
    Shown {
        number: s.number,
        ctx: &s.ctx,
        g: &s.g,
        log: s.log.as_slice(),
    }
}

/// Room for as many actions as may wait, and for their guesses.
fn room_to_wait<G: Drop>(alloc: Global) -> Result<(Vec<Waiting>, Vec<Option<Guess<G>>>), NoMemory>
    ensures empty { IfOk result (λ r. ((r.0).items ≡ []) × ((r.1).items ≡ [])) }
    ensures room { IfOk result (λ r. (32 ≤ vec_capacity r.0) × (32 ≤ vec_capacity r.1)) }
{
    let waiting = Vec::with_capacity(alloc, MOST_WAITING)?;
    let guesses = Vec::with_capacity(alloc, MOST_WAITING)?;
    Ok((waiting, guesses))
}

/// Puts guesses in place of those from a place on. It takes no memory.
fn replace_from<G: Drop>(
    guesses: &mut Vec<Option<Guess<G>>>,
    place: usize,
    fresh: Vec<Option<Guess<G>>>,
)
    requires inside { place ≤ length guesses.old.items }
    requires room { place + length fresh.items ≤ vec_capacity guesses.old }
    ensures items { guesses.new.items ≡ take place guesses.old.items ++ fresh.items }
    ensures room { vec_capacity guesses.old ≤ vec_capacity guesses.new }
{
    let mut fresh = fresh;
    guesses.truncate(place);
    let Ok(()) = guesses.append(&mut fresh) else {
        unreachable!();
    };
}

/// The ticket after a ticket.
fn next_ticket(ticket: u32) -> u32
    ensures { result ≡ next_ticket ticket }
{
    if ticket == u32::MAX { 1 } else { ticket + 1 }
}
