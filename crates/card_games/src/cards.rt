//! The state of High Hand.

ghost use Rattle.std.specs.Prelude.{◌≡◌, ◌++◌, true, IfOk, OnOk};
ghost use Rattle.serde_json.specs.Data.{no_members, object};
ghost use Rattle.serde_json.specs.View.{members_view, view};
ghost use Rattle.serde_json.specs.Written.{members_text};
ghost use Rattle.card_games.specs.HighHand.{height};
ghost use Rattle.card_games.specs.Parts.{deck_value, from_scores, hand_value, read_cards, read_deck, read_hand, read_lone, read_table, rest_of_table, table_value};

use crate::greatest::Worth;
use crate::parts::{Part, lone_member, lone_to_json, member, put_part};
use game_sheet::{List, NoMemory};
use json_tree::extra_field;
use open_game::kept_if;
use secret_strip::CopyPart;
use serde_json::{Map, Value};
use std::alloc::{AllocError, Global};

/// What everybody sees.
#[derive(Drop)]
pub struct CardTable {
    /// How many cards each seat has in its hand.
    pub hands: List<u32>,
    /// How many cards the deck has.
    pub left: u32,
    /// Each seat's points.
    pub scores: List<u32>,
    /// The card that each seat has on the table, if any.
    pub places: List<Option<u8>>,
}

/// What one seat alone sees.
#[derive(Drop)]
pub struct Hand {
    /// The seat's cards, each from 0 to 51, in the order in which they were drawn.
    pub cards: List<u8>,
}

/// What nobody sees.
#[derive(Drop)]
pub struct Deck {
    /// The cards that are left, each from 0 to 51; the first is drawn next.
    pub cards: List<u8>,
}

impl CopyPart for CardTable {
    fn copy(&self, alloc: Global) -> Result<Self, NoMemory> {
        Ok(CardTable {
            hands: self.hands.copy(alloc)?,
            left: self.left,
            scores: self.scores.copy(alloc)?,
            places: self.places.copy(alloc)?,
        })
    }
}

impl CopyPart for Hand {
    fn copy(&self, alloc: Global) -> Result<Self, NoMemory> {
        let cards = self.cards.copy(alloc)?;
        Ok(Hand { cards })
    }
}

impl CopyPart for Deck {
    fn copy(&self, alloc: Global) -> Result<Self, NoMemory> {
        let cards = self.cards.copy(alloc)?;
        Ok(Deck { cards })
    }
}

impl Part for CardTable {
    ghost use Rattle.card_games.specs.FloatFree.{table_float_free};

    ghost value = { table_value };

    ghost read = { read_table };

    ghost float_free = { table_float_free };

    fn to_json(&self, alloc: Global) -> Result<Value, AllocError> {
        let mut map = Map::new(alloc);
        match put_table(alloc, &mut map, self) {
            Ok(()) => Ok(Value::Object(map)),
            Err(error) => {
                drop(map);
                Err(error)
            }
        }
    }

    #[tactic(auto, unfolding(json::specs::Print::escape_byte))]
    fn write(&self, alloc: Global, out: &mut Vec<u8>) -> Result<(), AllocError> {
        out.extend_from_slice(b"{\"hands\":")?;
        self.hands.write(alloc, out)?;
        out.extend_from_slice(b",\"left\":")?;
        self.left.write(alloc, out)?;
        write_from_scores(alloc, out, &self.scores, &self.places)
    }

    fn from_json(alloc: Global, v: &Value) -> Result<Option<Self>, NoMemory> {
        if extra_field(v, &["hands", "left", "scores", "table"]) {
            return Ok(None);
        }
        let Some(hands) = member(alloc, v, "hands")? else {
            return Ok(None);
        };
        match member(alloc, v, "left")? {
            Some(left) => rest_of_table(alloc, v, hands, left),
            None => Ok(None),
        }
    }

    fn same(&self, other: &Self) -> bool {
        self.left == other.left
            && self.hands.same(&other.hands)
            && self.scores.same(&other.scores)
            && self.places.same(&other.places)
    }
}

/// Puts the members of a table into an empty object.
fn put_table(
    alloc: Global,
    map: &mut Map<String, Value>,
    table: &CardTable,
) -> Result<(), AllocError>
    requires { members_view map.old.entries ≡ no_members }
    ensures { OnOk result (object (members_view map.new.entries) ≡ table_value table.now) }
{
    put_part(alloc, map, "hands", &table.hands)?;
    put_part(alloc, map, "left", &table.left)?;
    put_part(alloc, map, "scores", &table.scores)?;
    put_part(alloc, map, "table", &table.places)
}

/// Appends the text of a table's members from the scores on.
#[tactic(auto, unfolding(json::specs::Print::escape_byte))]
fn write_from_scores(
    alloc: Global,
    out: &mut Vec<u8>,
    scores: &List<u32>,
    places: &List<Option<u8>>,
) -> Result<(), AllocError>
    ensures { OnOk result (out.new.items ≡ out.old.items ++ members_text true (from_scores scores.now places.now)) }
{
    out.extend_from_slice(b",\"scores\":")?;
    scores.write(alloc, out)?;
    out.extend_from_slice(b",\"table\":")?;
    places.write(alloc, out)?;
    out.extend_from_slice(b"}")
}

/// The table of these counts of cards whose scores and places an object holds; none where it holds none.
fn rest_of_table(
    alloc: Global,
    v: &Value,
    hands: List<u32>,
    left: u32,
) -> Result<Option<CardTable>, NoMemory>
    ensures { IfOk result (λ table. table ≡ rest_of_table hands left (view v.now)) }
{
    let Some(scores) = member(alloc, v, "scores")? else {
        return Ok(None);
    };
    let Some(places) = member(alloc, v, "table")? else {
        return Ok(None);
    };
    Ok(Some(CardTable {
        hands,
        left,
        scores,
        places,
    }))
}

impl Part for Hand {
    ghost use Rattle.card_games.specs.FloatFree.{hand_float_free};

    ghost value = { hand_value };

    ghost read = { read_hand };

    ghost float_free = { hand_float_free };

    fn to_json(&self, alloc: Global) -> Result<Value, AllocError> {
        lone_to_json(alloc, "hand", &self.cards)
    }

    #[tactic(auto, unfolding(json::specs::Print::escape_byte))]
    fn write(&self, alloc: Global, out: &mut Vec<u8>) -> Result<(), AllocError> {
        out.extend_from_slice(b"{\"hand\":")?;
        self.cards.write(alloc, out)?;
        out.extend_from_slice(b"}")
    }

    fn from_json(alloc: Global, v: &Value) -> Result<Option<Self>, NoMemory> {
        match lone_cards(alloc, v, "hand")? {
            Some(cards) => Ok(Some(Hand { cards })),
            None => Ok(None),
        }
    }

    fn same(&self, other: &Self) -> bool {
        self.cards.same(&other.cards)
    }
}

impl Part for Deck {
    ghost use Rattle.card_games.specs.FloatFree.{deck_float_free};

    ghost value = { deck_value };

    ghost read = { read_deck };

    ghost float_free = { deck_float_free };

    fn to_json(&self, alloc: Global) -> Result<Value, AllocError> {
        lone_to_json(alloc, "deck", &self.cards)
    }

    #[tactic(auto, unfolding(json::specs::Print::escape_byte))]
    fn write(&self, alloc: Global, out: &mut Vec<u8>) -> Result<(), AllocError> {
        out.extend_from_slice(b"{\"deck\":")?;
        self.cards.write(alloc, out)?;
        out.extend_from_slice(b"}")
    }

    fn from_json(alloc: Global, v: &Value) -> Result<Option<Self>, NoMemory> {
        match lone_cards(alloc, v, "deck")? {
            Some(cards) => Ok(Some(Deck { cards })),
            None => Ok(None),
        }
    }

    fn same(&self, other: &Self) -> bool {
        self.cards.same(&other.cards)
    }
}

/// A place of the table counts for its card.
impl Worth for Option<u8> {
    ghost worth = { height };

    fn worth(&self) -> u32 {
        match self {
            Some(card) => *card as u32,
            None => 0,
        }
    }
}

/// The cards that an object holds as its one member, of this name; at most 52.
fn lone_cards(alloc: Global, v: &Value, name: &str) -> Result<Option<List<u8>>, NoMemory>
    ensures { IfOk result (λ cards. cards ≡ read_lone name.now read_cards (view v.now)) }
{
    match lone_member::<List<u8>>(alloc, v, name)? {
        Some(cards) => Ok(kept_if(cards.len() <= 52, cards)),
        None => Ok(None),
    }
}
