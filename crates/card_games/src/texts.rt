//! The state of Captions.

ghost use Rattle.card_games.specs.Parts.{read_sealed_text, read_shown, sealed_text_value, shown_value};

use crate::parts::{Part, lone_member, lone_to_json};
use crate::sealed::Sealed;
use game_sheet::{List, NoMemory, Short};
use secret_strip::CopyPart;
use serde_json::Value;
use std::alloc::{AllocError, Global};

/// What everybody sees.
#[derive(Drop)]
pub struct Shown {
    /// The texts, once the match has ended.
    pub revealed: Option<List<Short>>,
}

impl CopyPart for Shown {
    fn copy(&self, alloc: Global) -> Result<Self, NoMemory> {
        let revealed = match &self.revealed {
            Some(texts) => Some(texts.copy(alloc)?),
            None => None,
        };
        Ok(Shown { revealed })
    }
}

impl Part for Shown {
    ghost use Rattle.card_games.specs.FloatFree.{shown_float_free};

    ghost value = { shown_value };

    ghost read = { read_shown };

    ghost float_free = { shown_float_free };

    fn to_json(&self, alloc: Global) -> Result<Value, AllocError> {
        lone_to_json(alloc, "revealed", &self.revealed)
    }

    #[tactic(auto, unfolding(json::specs::Print::escape_byte))]
    fn write(&self, alloc: Global, out: &mut Vec<u8>) -> Result<(), AllocError> {
        out.extend_from_slice(b"{\"revealed\":")?;
        self.revealed.write(alloc, out)?;
        out.extend_from_slice(b"}")
    }

    fn from_json(alloc: Global, v: &Value) -> Result<Option<Self>, NoMemory> {
        match lone_member(alloc, v, "revealed")? {
            Some(revealed) => Ok(Some(Shown { revealed })),
            None => Ok(None),
        }
    }

    fn same(&self, other: &Self) -> bool {
        self.revealed.same(&other.revealed)
    }
}

/// A seat's text.
impl Part for Sealed<Short> {
    ghost use Rattle.card_games.specs.FloatFree.{sealed_text_float_free};

    ghost value = { sealed_text_value };

    ghost read = { read_sealed_text };

    ghost float_free = { sealed_text_float_free };

    fn to_json(&self, alloc: Global) -> Result<Value, AllocError> {
        lone_to_json(alloc, "text", &self.item)
    }

    #[tactic(auto, unfolding(json::specs::Print::escape_byte))]
    fn write(&self, alloc: Global, out: &mut Vec<u8>) -> Result<(), AllocError> {
        out.extend_from_slice(b"{\"text\":")?;
        self.item.write(alloc, out)?;
        out.extend_from_slice(b"}")
    }

    fn from_json(alloc: Global, v: &Value) -> Result<Option<Self>, NoMemory> {
        match lone_member(alloc, v, "text")? {
            Some(item) => Ok(Some(Sealed { item })),
            None => Ok(None),
        }
    }

    fn same(&self, other: &Self) -> bool {
        self.item.same(&other.item)
    }
}
