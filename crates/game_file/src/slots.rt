//! Slots, as they are written.

use crate::names::check_code_name;
use crate::rows::{Row, RowAt};
use crate::source::Source;
use crate::unread::Unread;
use game_sheet::Text;
use std::alloc::Global;

/// A slot with its name.
pub struct SlotMember {
    /// Its name.
    pub name: Text,
    /// Its type, and how it starts.
    pub source: Source,
}

impl Drop for SlotMember {
    fn drop(self) {
        let SlotMember { name, source } = self;
        drop(name);
        drop(source);
    }
}

impl Row for SlotMember {
    fn read(alloc: Global, at: &RowAt<'_>) -> Result<Self, Unread> {
        check_code_name(alloc, at.name, at.path)?;
        let name = Text::from_str(alloc, at.name)?;
        let source = Source::line(alloc, at.value, at.path)?;
        Ok(SlotMember { name, source })
    }
}
