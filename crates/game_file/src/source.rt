//! Texts of a file that are read on elsewhere.

use crate::paths::fault_at;
use crate::unread::Unread;
use game_syntax::FaultName;
use std::alloc::{AllocError, Global};
use toml::Value;

/// A text of the file, code or the type of a slot, with the path of its member.
pub struct Source {
    /// The path of the member.
    pub path: String,
    /// The text; lines of a list are joined by newlines.
    pub text: String,
}

impl Drop for Source {
    fn drop(self) {
        let Source { path, text } = self;
        drop(path);
        drop(text);
    }
}

/// The code of a member, if the member is there.
pub struct Code {
    source: Option<Source>,
}

impl Drop for Code {
    fn drop(self) {
        let Code { source } = self;
        drop(source);
    }
}

impl Code {
    /// No code.
    pub(crate) fn none() -> Code {
        Code { source: None }
    }

    /// This code.
    pub(crate) fn of(source: Source) -> Code {
        Code {
            source: Some(source),
        }
    }

    /// The text of the code.
    pub fn source(&self) -> Option<&Source> {
        self.source.as_ref()
    }
}

impl Source {
    /// The code that a member has: a text, or a list of texts, which are its lines.
    pub(crate) fn code(alloc: Global, value: &Value, path: &str) -> Result<Source, Unread> {
        let text = code_text(alloc, value, path)?;
        Source::at(alloc, text, path)
    }

    /// The one text that a member has.
    pub(crate) fn line(alloc: Global, value: &Value, path: &str) -> Result<Source, Unread> {
        match value {
            Value::String(text) => Source::at(alloc, text.clone()?, path),
            _ => Err(fault_at(alloc, FaultName::BadType, path, "a text is wanted")),
        }
    }

    fn at(alloc: Global, text: String, path: &str) -> Result<Source, Unread> {
        let path = String::from_str(alloc, path)?;
        Ok(Source { path, text })
    }
}

fn code_text(alloc: Global, value: &Value, path: &str) -> Result<String, Unread> {
    match value {
        Value::String(text) => Ok(text.clone()?),
        Value::Array(lines) => joined(alloc, lines.as_slice(), path),
        _ => Err(fault_at(
            alloc,
            FaultName::BadType,
            path,
            "a text or a list of texts is wanted",
        )),
    }
}

/// The lines of a list, joined by newlines.
fn joined(alloc: Global, lines: &[Value], path: &str) -> Result<String, Unread> {
    let mut text = String::new(alloc);
    for (place, line) in lines.iter().enumerate() {
        match line {
            Value::String(line) => push_line(&mut text, line.as_str(), place > 0)?,
            _ => return Err(fault_at(alloc, FaultName::BadType, path, "a list of texts is wanted")),
        }
    }
    Ok(text)
}

fn push_line(text: &mut String, line: &str, follows: bool) -> Result<(), AllocError> {
    if follows {
        text.push_str("\n")?;
    }
    text.push_str(line)
}
