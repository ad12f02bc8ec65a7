//! Display hints.

use crate::members::Members;
use crate::rows::{Row, RowAt, Title};
use crate::source::{Code, Source};
use crate::unread::Unread;
use game_sheet::Text;
use std::alloc::Global;
use toml::Value;

/// A display hint for a slot. What nobody checks by its names is left out.
pub struct HintMember {
    /// The slot's name, or that of the viewer's own slot behind `me.`, and the hint's path.
    pub title: Title,
    /// Its words.
    pub words: HintWords,
    /// What a click does.
    pub click: Code,
}

/// The words of a hint.
pub struct HintWords {
    /// How the slot is shown.
    pub shape: Option<Text>,
    /// What stands for the values, if it is a word.
    pub items: Option<Text>,
    /// What the places are of.
    pub of: Option<Text>,
}

impl Drop for HintMember {
    fn drop(self) {
        let HintMember {
            title,
            words,
            click,
        } = self;
        drop(title);
        drop(words);
        drop(click);
    }
}

impl Drop for HintWords {
    fn drop(self) {
        let HintWords { shape, items, of } = self;
        drop(shape);
        drop(items);
        drop(of);
    }
}

static MEMBERS: [&str; 9] = [
    "as", "rows", "columns", "flip", "items", "of", "click", "sort", "label",
];

/// The members of a hint.
fn hint_members<'a>(alloc: Global, at: &RowAt<'a>) -> Result<Members<'a>, Unread> {
    Members::of(alloc, at.value, at.path, &MEMBERS)
}

impl Row for HintMember {
    fn read(alloc: Global, at: &RowAt<'_>) -> Result<Self, Unread> {
        let members = hint_members(alloc, at)?;
        check_others(alloc, &members)?;
        let words = words(alloc, &members)?;
        let click = click(alloc, &members)?;
        let title = at.title(alloc)?;
        Ok(HintMember {
            title,
            words,
            click,
        })
    }
}

/// Refuses members of other types among those that are left out.
fn check_others(alloc: Global, members: &Members<'_>) -> Result<(), Unread> {
    members.number(alloc, "rows")?;
    members.number(alloc, "columns")?;
    members.flag(alloc, "flip")?;
    members.flag(alloc, "sort")?;
    members.is_text(alloc, "label")
}

fn words(alloc: Global, members: &Members<'_>) -> Result<HintWords, Unread> {
    let shape = members.text(alloc, "as")?;
    let items = items(alloc, members)?;
    let of = members.text(alloc, "of")?;
    Ok(HintWords { shape, items, of })
}

fn click(alloc: Global, members: &Members<'_>) -> Result<Code, Unread> {
    match members.table.get("click") {
        None => Ok(Code::none()),
        Some(value) => {
            let path = members.path_of(alloc, "click")?;
            Ok(Code::of(Source::line(alloc, value, path.as_str())?))
        }
    }
}

/// The word for what stands for the values; none where it is a list of texts.
fn items(alloc: Global, members: &Members<'_>) -> Result<Option<Text>, Unread> {
    match members.table.get("items") {
        Some(Value::Array(_)) => {
            let texts = members.names(alloc, "items")?;
            drop(texts);
            Ok(None)
        }
        _ => members.text(alloc, "items"),
    }
}
