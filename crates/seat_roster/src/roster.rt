//! The table of a match's seats, with the calls that change it.

ghost use Rattle.std.specs.Prelude.{◌≡◌, ◌↔◌, IsTrue, Some, Ok, Err, IfOk, IfErr, OnOk, OnErr, option_map, option_copied};
ghost use Rattle.seat_roster.specs.Player.{player_at};
ghost use Rattle.seat_roster.specs.Roster.{free_seats, join, rename, leave, key_fits, public_rows, is_empty};

use crate::name::is_name;
use crate::refusal::RosterNo;
use game_sheet::{Key, List, NoMemory, Seat, Text};
use std::alloc::Global;
use std::marker::Model;

/// Who sits at a seat.
struct Holder {
    name: Text,
    key: Key,
}

impl Drop for Holder {
    fn drop(self) {
        let Holder { name, key: _ } = self;
        drop(name);
    }
}

impl Model for Holder {
    ghost use Rattle.seat_roster.specs.Player.{Player};

    ghost Value = { Player };

    ghost view = { λ holder. record { name = holder.name; key = holder.key } };
}

/// The seats of one match, which contracts see as a list with one entry a seat. No call shows a key.
pub struct Roster {
    seats: Vec<Option<Holder>>,
}

impl Drop for Roster {
    fn drop(self) {
        let Roster { seats } = self;
        drop(seats);
    }
}

impl Model for Roster {
    ghost use Rattle.std.specs.Prelude.{◌≤◌, length};
    ghost use Rattle.seat_roster.specs.Player.{Seats};

    ghost Value = { Seats };

    ghost view = { λ roster. roster.seats.items };

    ghost invariant = { λ roster. length roster.seats.items ≤ 255 };
}

impl Roster {
    /// So many free seats, numbered from 0. All memory that joining and renaming need beside the names is taken here.
    pub fn new(alloc: Global, seats: u8) -> Result<Self, NoMemory>
        ensures { IfOk result (λ roster. roster ≡ free_seats seats) }
    {
        let mut free = Vec::with_capacity(alloc, usize::from(seats))?;
        'seats: for _seat in 0..seats {
            free.push(None)?;
        }
        Ok(Roster { seats: free })
    }

    /// Seats a player at a free seat. It takes no memory.
    pub fn join(&mut self, seat: Seat, name: Text, key: Key) -> Result<(), RosterNo>
        ensures ok { OnOk result (join self.old seat name key ≡ Ok self.new) }
        ensures refused { IfErr result (λ why. join self.old seat name key ≡ Err why) }
        ensures unchanged { OnErr result (self.new ≡ self.old) }
    {
        let place = usize::from(seat);
        match self.seats.get(place) {
            None => return Err(RosterNo::NoSeat),
            Some(Some(_)) => return Err(RosterNo::SeatTaken),
            Some(None) => {}
        }
        if !is_name(name.as_str()) {
            return Err(RosterNo::BadName);
        }
        self.seats[place] = Some(Holder { name, key });
        Ok(())
    }

    /// Gives the player at a seat another name. It takes no memory.
    pub fn rename(&mut self, seat: Seat, key: &Key, name: Text) -> Result<(), RosterNo>
        ensures ok { OnOk result (rename self.old seat key.now name ≡ Ok self.new) }
        ensures refused { IfErr result (λ why. rename self.old seat key.now name ≡ Err why) }
        ensures unchanged { OnErr result (self.new ≡ self.old) }
    {
        let Some(holder) = self.holder(seat) else {
            return Err(RosterNo::NoSeat);
        };
        let kept = holder.key;
        if !kept.is(key) {
            return Err(RosterNo::Unauthorized);
        }
        if !is_name(name.as_str()) {
            return Err(RosterNo::BadName);
        }
        self.seats[usize::from(seat)] = Some(Holder { name, key: kept });
        Ok(())
    }

    /// Frees the seat of a player. It takes no memory.
    pub fn leave(&mut self, seat: Seat, key: &Key) -> Result<(), RosterNo>
        ensures ok { OnOk result (leave self.old seat key.now ≡ Ok self.new) }
        ensures refused { IfErr result (λ why. leave self.old seat key.now ≡ Err why) }
        ensures unchanged { OnErr result (self.new ≡ self.old) }
    {
        let Some(holder) = self.holder(seat) else {
            return Err(RosterNo::NoSeat);
        };
        if !holder.key.is(key) {
            return Err(RosterNo::Unauthorized);
        }
        self.seats[usize::from(seat)] = None;
        Ok(())
    }

    /// Whether a key is that of the player at a seat. It takes no memory.
    pub fn key_fits(&self, seat: Seat, key: &Key) -> bool
        ensures { result ≡ key_fits self.now seat key.now }
    {
        match self.holder(seat) {
            None => false,
            Some(holder) => holder.key.is(key),
        }
    }

    /// Each seat with the name of its player, in the order of seats, as everybody may see them.
    pub fn public_rows(&self) -> Result<List<(Seat, Option<Text>)>, NoMemory>
        ensures { IfOk result (λ rows. rows ≡ public_rows self.now) }
    {
        let alloc = *self.seats.allocator();
        let mut rows = List::new(alloc);
        'rows: for (place, holder) in self.seats.iter().enumerate() {
            rows.push((place as Seat, public_name(alloc, holder)?))?;
        }
        Ok(rows)
    }

    /// Whether nobody sits at the match. It takes no memory.
    pub fn is_empty(&self) -> bool
        ensures { result ≡ is_empty self.now }
    {
        self.seats.iter().all(|holder| holder.is_none())
    }

    /// An equal roster, with the same keys.
    pub fn copy(&self) -> Result<Self, NoMemory>
        ensures { IfOk result (λ roster. roster ≡ self.now) }
    {
        let alloc = *self.seats.allocator();
        let mut seats = Vec::with_capacity(alloc, self.seats.len())?;
        'seats: for holder in &self.seats {
            seats.push(copy_of(alloc, holder)?)?;
        }
        Ok(Roster { seats })
    }

    /// Who sits at a seat; nobody where there is no such seat.
    fn holder(&self, seat: Seat) -> Option<&Holder>
        ensures { option_copied result ≡ player_at self.now seat }
    {
        match self.seats.get(usize::from(seat)) {
            None => None,
            Some(holder) => holder.as_ref(),
        }
    }
}

/// An equal holder, if there is one.
fn copy_of(alloc: Global, holder: &Option<Holder>) -> Result<Option<Holder>, NoMemory>
    ensures { IfOk result (λ copied. copied ≡ holder.now) }
{
    match holder {
        None => Ok(None),
        Some(holder) => Ok(Some(Holder {
            name: holder.name.copy(alloc)?,
            key: holder.key,
        })),
    }
}

/// What everybody may see of who sits at a seat.
fn public_name(alloc: Global, holder: &Option<Holder>) -> Result<Option<Text>, NoMemory>
    ensures { IfOk result (λ name. name ≡ option_map (λ player. player.name) holder.now) }
{
    match holder {
        None => Ok(None),
        Some(holder) => Ok(Some(holder.name.copy(alloc)?)),
    }
}
