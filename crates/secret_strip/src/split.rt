//! A game's state that is split by who may see what.

ghost use Rattle.std.specs.Prelude.{◌≡◌, ◌++◌, ◌∷◌, [], IfOk, OnOk};
ghost use Rattle.secret_strip.specs.Strip.{strip, seen, seen_players, has_seat};

use crate::part::CopyPart;
use game_sheet::{List, NoMemory, Seat};
use std::alloc::Global;

/// A state in three parts: what everybody sees, what nobody sees, and what each player alone sees.
pub struct Split<C, S, P> {
    /// What everybody sees.
    pub common: C,
    /// What no viewer sees. None in a view.
    pub secret: Option<S>,
    /// An entry for each seat, in order of the seats, which its player alone sees. None where it is hidden.
    pub players: List<Option<P>>,
}

impl<C: Drop, S: Drop, P: Drop> Drop for Split<C, S, P> {
    fn drop(self) {
        let Split {
            common,
            secret,
            players,
        } = self;
        drop(common);
        drop(secret);
        drop(players);
    }
}

impl<C: CopyPart, S: Drop, P: CopyPart> Split<C, S, P> {
    /// The state as a viewer sees it: a seat, or a spectator where there is none.
    ///
    /// The secret part is gone, and so is each player's entry but the viewer's own. There are as many entries as before.
    pub fn strip(&self, alloc: Global, viewer: Option<Seat>) -> Result<Split<C, S, P>, NoMemory>
        ensures { IfOk result (λ view. view ≡ strip self.now viewer) }
    {
        let common = self.common.copy(alloc)?;
        let players = self.players_for(alloc, viewer)?;
        Ok(Split {
            common,
            secret: None,
            players,
        })
    }

    fn players_for(&self, alloc: Global, viewer: Option<Seat>) -> Result<List<Option<P>>, NoMemory>
        ensures { IfOk result (λ players. players ≡ seen_players viewer self.now.players) }
    {
        let entries = self.players.as_slice();
        let mut players = List::new(alloc);
        for (seat, entry) in entries.iter().enumerate() {
            push_seen(&mut players, alloc, viewer, seat, entry)?;
        }
        Ok(players)
    }
}

// Adds the entry of a seat as a viewer sees it.
fn push_seen<P: CopyPart>(
    players: &mut List<Option<P>>,
    alloc: Global,
    viewer: Option<Seat>,
    seat: usize,
    entry: &Option<P>,
) -> Result<(), NoMemory>
    ensures { OnOk result (players.new ≡ players.old ++ seen viewer (seat, entry.now) ∷ []) }
{
    let shown = seen(alloc, viewer, seat, entry)?;
    players.push(shown)
}

// The entry of a seat as a viewer sees it.
fn seen<P: CopyPart>(
    alloc: Global,
    viewer: Option<Seat>,
    seat: usize,
    entry: &Option<P>,
) -> Result<Option<P>, NoMemory>
    ensures { IfOk result (λ shown. shown ≡ seen viewer (seat, entry.now)) }
{
    if !has_seat(viewer, seat) {
        return Ok(None);
    }
    match entry {
        Some(part) => Ok(Some(part.copy(alloc)?)),
        None => Ok(None),
    }
}

// Whether a viewer has this seat.
fn has_seat(viewer: Option<Seat>, seat: usize) -> bool
    ensures { result ≡ has_seat viewer seat }
{
    match viewer {
        Some(own) => usize::from(own) == seat,
        None => false,
    }
}
