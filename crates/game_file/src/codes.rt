//! Named code, as it is written.

use crate::names::check_called_name;
use crate::rows::{Row, RowAt};
use crate::source::Source;
use crate::unread::Unread;
use game_sheet::Text;
use std::alloc::Global;

/// A named expression, or named statements.
pub struct CodeMember {
    /// The name.
    pub name: Text,
    /// Its parameters and its body.
    pub source: Source,
}

impl Drop for CodeMember {
    fn drop(self) {
        let CodeMember { name, source } = self;
        drop(name);
        drop(source);
    }
}

impl Row for CodeMember {
    fn read(alloc: Global, at: &RowAt<'_>) -> Result<Self, Unread> {
        check_called_name(alloc, at.name, at.path)?;
        let name = Text::from_str(alloc, at.name)?;
        let source = Source::code(alloc, at.value, at.path)?;
        Ok(CodeMember { name, source })
    }
}
