//! What the games share in which each seat seals one item: a bid, or a text.

ghost use Rattle.std.specs.Prelude.{◌≡◌, ◌++◌, ℕ, List as Items, [], slice_get, slice_set, IfOk, OnOk};
ghost use Rattle.std.specs.List.{filter_map};
ghost use Rattle.card_games.specs.Parts.{no_secret_value, read_no_secret};
ghost use Rattle.card_games.specs.Sealed.{are_seats, have_all, item_of, may_seal, seal, sealed_end, sealing_specs, sealing_stages, sealing_turn, shown_items, unsealed, with_item};
ghost use Rattle.game_trait.specs.Gives.{Gives};

use crate::greatest::{Worth, one_greatest};
use crate::lists::changed;
use crate::parts::Part;
use game_sheet::{
    List, NoMemory, Order, Outcome, Place, Seat, Sheet, SpecId, SpecRow, StageId, StageRow, Text,
    TurnRow,
};
use game_trait::Halt;
use json_text::put_null;
use secret_strip::{CopyPart, Split};
use serde_json::Value;
use std::alloc::{AllocError, Global};

/// What nobody sees: there is nothing of that kind.
#[derive(Clone, Copy)]
pub struct NoSecret;

/// What one seat alone sees.
#[derive(Clone, Copy)]
pub struct Sealed<T> {
    /// The seat's bid or text; none before it has sealed one.
    pub item: Option<T>,
}

/// A state: what everybody sees, and a sealed entry for each seat.
pub(crate) type Sealing<C, T> = Split<C, NoSecret, Sealed<T>>;

impl CopyPart for NoSecret {
    fn copy(&self, alloc: Global) -> Result<Self, NoMemory> {
        Ok(*self)
    }
}

impl<T: Copy> CopyPart for Sealed<T> {
    fn copy(&self, alloc: Global) -> Result<Self, NoMemory> {
        Ok(*self)
    }
}

impl Part for NoSecret {
    ghost use Rattle.std.specs.Prelude.{refl};

    ghost value = { no_secret_value };

    ghost read = { read_no_secret };

    ghost float_free = { λ _. refl };

    fn to_json(&self, alloc: Global) -> Result<Value, AllocError> {
        Ok(Value::Null)
    }

    fn write(&self, alloc: Global, out: &mut Vec<u8>) -> Result<(), AllocError> {
        put_null(out)
    }

    fn from_json(alloc: Global, v: &Value) -> Result<Option<Self>, NoMemory> {
        Ok(None)
    }

    fn same(&self, other: &Self) -> bool {
        true
    }
}

/// An entry counts for what its item is worth.
impl<T: Copy + Worth> Worth for Option<Sealed<T>> {
    ghost use Rattle.card_games.specs.Sealed.{entry_worth};

    ghost worth = { entry_worth T.worth };

    fn worth(&self) -> u32 {
        match item_of(self) {
            Some(item) => item.worth(),
            None => 0,
        }
    }
}

/// The turn in which every seat has something to seal.
pub(crate) fn sealing_turn() -> TurnRow
    ensures { result ≡ sealing_turn }
{
    TurnRow {
        order: Order::Default,
        min_moves: 0,
        max_moves: None,
        active: Some(SpecId::at(0)),
    }
}

/// Gives a sheet the one stage, of this name, and the one map of the turn: every seat in that stage, for one move.
pub(crate) fn add_sealing(alloc: Global, sheet: &mut Sheet, name: &str) -> Result<(), NoMemory>
    ensures { OnOk result (sheet.new ≡ record sheet.old { stages = sheet.old.stages ++ sealing_stages name.now; specs = sheet.old.specs ++ sealing_specs }) }
{
    sheet.stages.push(StageRow {
        name: Text::from_str(alloc, name)?,
        next: None,
        moves: None,
    })?;
    sheet.specs.push(SpecRow {
        current: None,
        others: None,
        all: Some(Place {
            stage: Some(StageId::at(0)),
        }),
        value: List::new(alloc),
        min_moves: 1,
        max_moves: Some(1),
        revert: false,
        next: None,
    })?;
    Ok(())
}

/// An entry without an item for each seat.
pub(crate) fn unsealed<T: Copy>(
    alloc: Global,
    seats: u8,
) -> Result<List<Option<Sealed<T>>>, NoMemory>
    ensures { IfOk result (λ players. players ≡ unsealed seats) }
{
    let mut players = List::new(alloc);
    for _seat in 0..seats {
        players.push(Some(Sealed { item: None }))?;
    }
    Ok(players)
}

/// The item of an entry, where it is there and has one.
fn item_of<T: Copy>(entry: &Option<Sealed<T>>) -> Option<T>
    ensures { result ≡ item_of entry.now }
{
    match entry {
        Some(sealed) => sealed.item,
        None => None,
    }
}

/// Whether a seat's entry is there and has no item.
pub(crate) fn may_seal<T: Copy>(players: &[Option<Sealed<T>>], seat: Seat) -> bool
    ensures { result ≡ may_seal (slice_get players.now seat) }
{
    match players.get(seat as usize) {
        Some(Some(entry)) => entry.item.is_none(),
        _ => false,
    }
}

/// A seat seals an item, if it is allowed; it may do so once.
pub(crate) fn seal<C: CopyPart, T: Copy>(
    alloc: Global,
    allowed: bool,
    g: &Sealing<C, T>,
    seat: Seat,
    item: T,
) -> Result<Sealing<C, T>, Halt>
    ensures { (words : Items ℕ) → Gives result words words [] (seal allowed g.now seat item words) }
{
    if !allowed || !may_seal(g.players.as_slice(), seat) {
        return Err(Halt::Invalid);
    }
    Ok(with_item(alloc, g, seat, item)?)
}

/// The state in which a seat has sealed an item.
fn with_item<C: CopyPart, T: Copy>(
    alloc: Global,
    g: &Sealing<C, T>,
    seat: Seat,
    item: T,
) -> Result<Sealing<C, T>, NoMemory>
    ensures { IfOk result (λ h. h ≡ with_item g.now seat item) }
{
    let entry = Sealed { item: Some(item) };
    let players = changed(alloc, g.players.as_slice(), seat as usize, Some(entry))?;
    match g.common.copy(alloc) {
        Ok(common) => Ok(Split {
            common,
            secret: g.secret,
            players,
        }),
        Err(NoMemory) => {
            drop(players);
            Err(NoMemory)
        }
    }
}

/// Whether every entry is there and has its item.
fn have_all<T: Copy>(players: &[Option<Sealed<T>>]) -> bool
    ensures { result ≡ have_all players.now }
{
    players.iter().all(|entry| item_of(entry).is_some())
}

/// Once every seat has sealed an item, the one that is worth the most wins; where several are, the match is a draw.
pub(crate) fn sealed_end<T: Copy + Worth>(players: &[Option<Sealed<T>>]) -> Option<Outcome>
    ensures { result ≡ sealed_end T.worth players.now }
{
    if have_all(players) {
        Some(one_greatest(players))
    } else {
        None
    }
}

/// The items in order of the seats; none where a seat has sealed none.
pub(crate) fn shown_items<T: Copy>(
    alloc: Global,
    players: &[Option<Sealed<T>>],
) -> Result<Option<List<T>>, NoMemory>
    ensures { IfOk result (λ items. items ≡ shown_items players.now) }
{
    if !have_all(players) {
        return Ok(None);
    }
    let items = items_of(alloc, players)?;
    Ok(Some(List::from_vec(items)))
}

/// The items of the entries that have one.
fn items_of<T: Copy>(alloc: Global, players: &[Option<Sealed<T>>]) -> Result<Vec<T>, AllocError>
    ensures { IfOk result (λ v. v.items ≡ filter_map item_of players.now) }
{
    players
        .iter()
        .filter_map(|entry| item_of(entry))
        .collect(alloc)
}

/// Whether there are one to so many seats, and an item for each where the items are shown.
pub(crate) fn are_seats(most: usize, players: usize, shown: Option<usize>) -> bool
    ensures { result ≡ are_seats most players shown }
{
    players >= 1 && players <= most && shown.unwrap_or(players) == players
}
