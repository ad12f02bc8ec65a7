//! The state of Blind Bid.

ghost use Rattle.std.specs.Prelude.{◌≡◌, OnOk};
ghost use Rattle.card_games.specs.Parts.{bidding_value, read_bidding, read_sealed_bid, sealed_bid_value};
ghost use Rattle.serde_json.specs.Data.{no_members, object};
ghost use Rattle.serde_json.specs.View.{members_view};

use crate::parts::{Part, lone_member, lone_to_json, member, put_part};
use crate::sealed::Sealed;
use game_sheet::{List, NoMemory};
use json_tree::extra_field;
use secret_strip::CopyPart;
use serde_json::{Map, Value};
use std::alloc::{AllocError, Global};

/// What everybody sees.
#[derive(Drop)]
pub struct Bidding {
    /// What each seat boasts with.
    pub boasts: List<u32>,
    /// The bids, once the match has ended.
    pub revealed: Option<List<u32>>,
}

impl CopyPart for Bidding {
    fn copy(&self, alloc: Global) -> Result<Self, NoMemory> {
        let boasts = self.boasts.copy(alloc)?;
        let revealed = match &self.revealed {
            Some(bids) => Some(bids.copy(alloc)?),
            None => None,
        };
        Ok(Bidding { boasts, revealed })
    }
}

impl Part for Bidding {
    ghost use Rattle.card_games.specs.FloatFree.{bidding_float_free};

    ghost value = { bidding_value };

    ghost read = { read_bidding };

    ghost float_free = { bidding_float_free };

    fn to_json(&self, alloc: Global) -> Result<Value, AllocError> {
        let mut map = Map::new(alloc);
        match put_bidding(alloc, &mut map, self) {
            Ok(()) => Ok(Value::Object(map)),
            Err(error) => {
                drop(map);
                Err(error)
            }
        }
    }

    #[tactic(auto, unfolding(json::specs::Print::escape_byte))]
    fn write(&self, alloc: Global, out: &mut Vec<u8>) -> Result<(), AllocError> {
        out.extend_from_slice(b"{\"boasts\":")?;
        self.boasts.write(alloc, out)?;
        out.extend_from_slice(b",\"revealed\":")?;
        self.revealed.write(alloc, out)?;
        out.extend_from_slice(b"}")
    }

    fn from_json(alloc: Global, v: &Value) -> Result<Option<Self>, NoMemory> {
        if extra_field(v, &["boasts", "revealed"]) {
            return Ok(None);
        }
        let Some(boasts) = member(alloc, v, "boasts")? else {
            return Ok(None);
        };
        let Some(revealed) = member(alloc, v, "revealed")? else {
            return Ok(None);
        };
        Ok(Some(Bidding { boasts, revealed }))
    }

    fn same(&self, other: &Self) -> bool {
        self.boasts.same(&other.boasts) && self.revealed.same(&other.revealed)
    }
}

/// Puts the members of what everybody sees into an empty object.
fn put_bidding(
    alloc: Global,
    map: &mut Map<String, Value>,
    bidding: &Bidding,
) -> Result<(), AllocError>
    requires { members_view map.old.entries ≡ no_members }
    ensures { OnOk result (object (members_view map.new.entries) ≡ bidding_value bidding.now) }
{
    put_part(alloc, map, "boasts", &bidding.boasts)?;
    put_part(alloc, map, "revealed", &bidding.revealed)
}

/// A seat's bid.
impl Part for Sealed<u32> {
    ghost use Rattle.card_games.specs.FloatFree.{sealed_bid_float_free};

    ghost value = { sealed_bid_value };

    ghost read = { read_sealed_bid };

    ghost float_free = { sealed_bid_float_free };

    fn to_json(&self, alloc: Global) -> Result<Value, AllocError> {
        lone_to_json(alloc, "bid", &self.item)
    }

    #[tactic(auto, unfolding(json::specs::Print::escape_byte))]
    fn write(&self, alloc: Global, out: &mut Vec<u8>) -> Result<(), AllocError> {
        out.extend_from_slice(b"{\"bid\":")?;
        self.item.write(alloc, out)?;
        out.extend_from_slice(b"}")
    }

    fn from_json(alloc: Global, v: &Value) -> Result<Option<Self>, NoMemory> {
        match lone_member(alloc, v, "bid")? {
            Some(item) => Ok(Some(Sealed { item })),
            None => Ok(None),
        }
    }

    fn same(&self, other: &Self) -> bool {
        self.item.same(&other.item)
    }
}
