//! Constants.

ghost use Rattle.std.specs.Prelude.{◌≡◌, length, IfOk};
ghost use Rattle.game_file.specs.FileFits.{ConstantFits};

use crate::names::check_code_name;
use crate::paths::fault_at;
use crate::rows::{Row, RowAt};
use crate::unread::Unread;
use game_sheet::{List, Short, Text};
use game_syntax::FaultName;
use std::alloc::Global;
use toml::Value;

/// What a constant is.
pub enum Constant {
    /// A number.
    Number(i32),
    /// 1 to 1,024 numbers.
    Numbers(List<i32>),
    /// 1 to 1,024 texts.
    Texts(List<Short>),
}

impl Drop for Constant {
    fn drop(self) {
        match self {
            Constant::Number(_) => {}
            Constant::Numbers(numbers) => drop(numbers),
            Constant::Texts(texts) => drop(texts),
        }
    }
}

/// A constant with its name.
pub struct ConstantMember {
    /// Its name.
    pub name: Text,
    /// What it is.
    pub value: Constant,
}

impl Drop for ConstantMember {
    fn drop(self) {
        let ConstantMember { name, value } = self;
        drop(name);
        drop(value);
    }
}

/// The greatest count of items of a row.
const MOST_ITEMS: usize = 1_024;

impl Row for ConstantMember {
    ghost use Rattle.game_file.specs.declared.constants.ConstantMember.{ConstantMember};
    ghost use Rattle.game_file.specs.FileFits.{ConstantFits};

    ghost fits = { λ (row : ConstantMember). ConstantFits row.value };

    fn read(alloc: Global, at: &RowAt<'_>) -> Result<Self, Unread> {
        check_code_name(alloc, at.name, at.path)?;
        let name = Text::from_str(alloc, at.name)?;
        let value = constant_of(alloc, at.value, at.path)?;
        Ok(ConstantMember { name, value })
    }
}

fn constant_of(alloc: Global, value: &Value, path: &str) -> Result<Constant, Unread>
    ensures { IfOk result ConstantFits }
{
    match value {
        Value::Integer(number) => match i32::try_from(*number) {
            Ok(number) => Ok(Constant::Number(number)),
            Err(_) => Err(fault_at(alloc, FaultName::OutOfRange, path, "")),
        },
        Value::Array(items) => row(alloc, items.as_slice(), path),
        _ => Err(constant_type(alloc, path)),
    }
}

fn constant_type(alloc: Global, path: &str) -> Unread {
    fault_at(
        alloc,
        FaultName::BadType,
        path,
        "a number, a row of numbers or a row of texts is wanted",
    )
}

fn row(alloc: Global, items: &[Value], path: &str) -> Result<Constant, Unread>
    ensures { IfOk result ConstantFits }
{
    if items.is_empty() || items.len() > MOST_ITEMS {
        return Err(fault_at(
            alloc,
            FaultName::BadLength,
            path,
            "a row has 1 to 1,024 items",
        ));
    }
    match items.first() {
        Some(Value::String(_)) => Ok(Constant::Texts(texts(alloc, items, path)?)),
        _ => Ok(Constant::Numbers(numbers(alloc, items, path)?)),
    }
}

fn numbers(alloc: Global, items: &[Value], path: &str) -> Result<List<i32>, Unread>
    ensures { IfOk result (λ numbers. length numbers ≡ length items.now) }
{
    let mut numbers = List::new(alloc);
    for item in items {
        numbers.push(number(alloc, item, path)?)?;
    }
    Ok(numbers)
}

fn number(alloc: Global, item: &Value, path: &str) -> Result<i32, Unread> {
    match item {
        Value::Integer(number) => match i32::try_from(*number) {
            Ok(number) => Ok(number),
            Err(_) => Err(fault_at(alloc, FaultName::OutOfRange, path, "")),
        },
        _ => Err(constant_type(alloc, path)),
    }
}

fn texts(alloc: Global, items: &[Value], path: &str) -> Result<List<Short>, Unread>
    ensures { IfOk result (λ texts. length texts ≡ length items.now) }
{
    let mut texts = List::new(alloc);
    for item in items {
        texts.push(text(alloc, item, path)?)?;
    }
    Ok(texts)
}

fn text(alloc: Global, item: &Value, path: &str) -> Result<Short, Unread> {
    match item {
        Value::String(text) => short_text(alloc, text.as_str(), path),
        _ => Err(constant_type(alloc, path)),
    }
}

fn short_text(alloc: Global, text: &str, path: &str) -> Result<Short, Unread> {
    match Short::of(text.as_bytes()) {
        Some(text) => Ok(text),
        None if text.len() > Short::MOST => Err(fault_at(
            alloc,
            FaultName::LongText,
            path,
            "a text has at most 64 bytes",
        )),
        None => Err(fault_at(
            alloc,
            FaultName::BadCharacter,
            path,
            "a text has no byte below 32",
        )),
    }
}
