//! The parts of a state: as JSON, as its text, read back, and compared.

ghost use Rattle.std.specs.Prelude.{◌≡◌, ◌++◌, ◌↔◌, codes, false, true, length, option_map, IfOk, IsTrue, OnOk};
ghost use Rattle.card_games.specs.Json.{read_text};
ghost use Rattle.card_games.specs.Parts.{from_players, list_value, lone_value, number_value, option_value, read_count, read_items, read_list, read_lone, read_member, read_number, read_option, read_split, split_of, split_value, text_value};
ghost use Rattle.serde_json.specs.Data.{no_members, object, put};
ghost use Rattle.serde_json.specs.View.{items_view, members_view, view};
ghost use Rattle.serde_json.specs.Written.{comma_if, compact_text, has_float, members_text};

use game_sheet::{List, NoMemory, Short};
use json_text::{put_comma, put_natural, put_null, put_string};
use json_tree::extra_field;
use open_game::object_of_one;
use secret_strip::Split;
use serde_json::{Map, Value};
use std::alloc::{AllocError, Global};

/// A part of a state, which is written as JSON without a float.
pub trait Part: Sized + Drop {
    ghost use Rattle.std.specs.Prelude.{◌≡◌, ◌++◌, ◌↔◌, false, IfOk, IsTrue, OnOk, Option};
    ghost use Rattle.serde_json.specs.Data.{Data};
    ghost use Rattle.serde_json.specs.View.{view};
    ghost use Rattle.serde_json.specs.Written.{compact_text, has_float};

    ghost value: { Self → Data };

    ghost read: { Data → Option Self };

    /// The part as JSON.
    fn to_json(&self, alloc: Global) -> Result<Value, AllocError>
        ensures { IfOk result (λ v. view v ≡ value self.now) };

    /// Appends the part's text.
    fn write(&self, alloc: Global, out: &mut Vec<u8>) -> Result<(), AllocError>
        ensures { OnOk result (out.new.items ≡ out.old.items ++ compact_text (value self.now)) };

    /// The part that is written so; none where none is.
    fn from_json(alloc: Global, v: &Value) -> Result<Option<Self>, NoMemory>
        ensures { IfOk result (λ part. part ≡ read (view v.now)) };

    /// Whether two parts are equal.
    fn same(&self, other: &Self) -> bool
        ensures { IsTrue result ↔ (self.now ≡ other.now) };

    ghost float_free: { (part : Self) → has_float (value part) ≡ false };
}

/// A card, from 0 to 51.
impl Part for u8 {
    ghost use Rattle.card_games.specs.FloatFree.{number_float_free};

    ghost value = { number_value };

    ghost read = { read_number 51 };

    ghost float_free = { number_float_free };

    fn to_json(&self, alloc: Global) -> Result<Value, AllocError> {
        Ok(Value::from(*self))
    }

    fn write(&self, alloc: Global, out: &mut Vec<u8>) -> Result<(), AllocError> {
        put_natural(out, u64::from(*self))
    }

    fn from_json(alloc: Global, v: &Value) -> Result<Option<Self>, NoMemory> {
        match v.as_u64() {
            Some(n) if n <= 51 => Ok(Some(n as u8)),
            _ => Ok(None),
        }
    }

    fn same(&self, other: &Self) -> bool {
        *self == *other
    }
}

impl Part for u32 {
    ghost use Rattle.card_games.specs.FloatFree.{number_float_free};

    ghost value = { number_value };

    ghost read = { read_count };

    ghost float_free = { number_float_free };

    fn to_json(&self, alloc: Global) -> Result<Value, AllocError> {
        Ok(Value::from(*self))
    }

    fn write(&self, alloc: Global, out: &mut Vec<u8>) -> Result<(), AllocError> {
        put_natural(out, u64::from(*self))
    }

    fn from_json(alloc: Global, v: &Value) -> Result<Option<Self>, NoMemory> {
        match v.as_u64() {
            Some(n) if n <= 4_294_967_295 => Ok(Some(n as u32)),
            _ => Ok(None),
        }
    }

    fn same(&self, other: &Self) -> bool {
        *self == *other
    }
}

impl Part for Short {
    ghost use Rattle.card_games.specs.FloatFree.{text_float_free};

    ghost value = { text_value };

    ghost read = { read_text };

    ghost float_free = { text_float_free };

    fn to_json(&self, alloc: Global) -> Result<Value, AllocError> {
        Ok(Value::String(String::from_str(alloc, self.as_str())?))
    }

    fn write(&self, alloc: Global, out: &mut Vec<u8>) -> Result<(), AllocError> {
        put_string(alloc, out, self.as_str())
    }

    fn from_json(alloc: Global, v: &Value) -> Result<Option<Self>, NoMemory> {
        match v.as_str() {
            Some(text) => Ok(Short::of(text.as_bytes())),
            None => Ok(None),
        }
    }

    fn same(&self, other: &Self) -> bool {
        self.as_str() == other.as_str()
    }
}

/// What is missing or hidden is null.
impl<T: Part> Part for Option<T> {
    ghost use Rattle.card_games.specs.FloatFree.{option_float_free};

    ghost value = { option_value T.value };

    ghost read = { read_option T.read };

    ghost float_free = { option_float_free T.value T.float_free };

    fn to_json(&self, alloc: Global) -> Result<Value, AllocError> {
        match self {
            Some(part) => part.to_json(alloc),
            None => Ok(Value::Null),
        }
    }

    fn write(&self, alloc: Global, out: &mut Vec<u8>) -> Result<(), AllocError> {
        match self {
            Some(part) => part.write(alloc, out),
            None => put_null(out),
        }
    }

    fn from_json(alloc: Global, v: &Value) -> Result<Option<Self>, NoMemory> {
        if v.is_null() {
            return Ok(Some(None));
        }
        match T::from_json(alloc, v)? {
            Some(part) => Ok(Some(Some(part))),
            None => Ok(None),
        }
    }

    fn same(&self, other: &Self) -> bool {
        match (self, other) {
            (Some(one), Some(other)) => one.same(other),
            (None, None) => true,
            _ => false,
        }
    }
}

impl<T: Part> Part for List<T> {
    ghost use Rattle.card_games.specs.FloatFree.{list_float_free};

    ghost value = { list_value T.value };

    ghost read = { read_list T.read };

    ghost float_free = { list_float_free T.value T.float_free };

    fn to_json(&self, alloc: Global) -> Result<Value, AllocError> {
        items_to_json(alloc, self.as_slice())
    }

    fn write(&self, alloc: Global, out: &mut Vec<u8>) -> Result<(), AllocError> {
        write_items(alloc, out, self.as_slice())
    }

    fn from_json(alloc: Global, v: &Value) -> Result<Option<Self>, NoMemory> {
        match v.as_array() {
            Some(items) => items_from_json(alloc, items.as_slice()),
            None => Ok(None),
        }
    }

    fn same(&self, other: &Self) -> bool {
        self.len() == other.len() && same_items(self.as_slice(), other.as_slice())
    }
}

impl<C: Part, S: Part, P: Part> Part for Split<C, S, P> {
    ghost use Rattle.card_games.specs.FloatFree.{split_float_free};

    ghost value = { split_value C.value S.value P.value };

    ghost read = { read_split C.read S.read P.read };

    ghost float_free = { split_float_free C.value S.value P.value C.float_free S.float_free P.float_free };

    fn to_json(&self, alloc: Global) -> Result<Value, AllocError> {
        let mut map = Map::new(alloc);
        match put_split(alloc, &mut map, self) {
            Ok(()) => Ok(Value::Object(map)),
            Err(error) => {
                drop(map);
                Err(error)
            }
        }
    }

    #[tactic(auto, unfolding(json::specs::Print::escape_byte))]
    fn write(&self, alloc: Global, out: &mut Vec<u8>) -> Result<(), AllocError> {
        out.extend_from_slice(b"{\"common\":")?;
        self.common.write(alloc, out)?;
        write_from_players(alloc, out, &self.players, &self.secret)
    }

    fn from_json(alloc: Global, v: &Value) -> Result<Option<Self>, NoMemory> {
        if extra_field(v, &["common", "players", "secret"]) {
            return Ok(None);
        }
        let Some(common) = member(alloc, v, "common")? else {
            return Ok(None);
        };
        match member(alloc, v, "players") {
            Ok(Some(players)) => with_secret(alloc, v, common, players),
            Ok(None) => {
                drop(common);
                Ok(None)
            }
            Err(NoMemory) => {
                drop(common);
                Err(NoMemory)
            }
        }
    }

    fn same(&self, other: &Self) -> bool {
        self.common.same(&other.common)
            && self.secret.same(&other.secret)
            && self.players.same(&other.players)
    }
}

/// The split state of these parts whose secret an object holds; none where it holds none.
fn with_secret<C: Part, S: Part, P: Part>(
    alloc: Global,
    v: &Value,
    common: C,
    players: List<Option<P>>,
) -> Result<Option<Split<C, S, P>>, NoMemory>
    ensures { IfOk result (λ split. split ≡ option_map (split_of common players) (read_member (codes "secret") (read_option S.read) (view v.now))) }
{
    match member(alloc, v, "secret") {
        Ok(Some(secret)) => Ok(Some(Split {
            common,
            secret,
            players,
        })),
        Ok(None) => {
            drop(common);
            drop(players);
            Ok(None)
        }
        Err(NoMemory) => {
            drop(common);
            drop(players);
            Err(NoMemory)
        }
    }
}

/// Puts the members of a split state into an empty object.
fn put_split<C: Part, S: Part, P: Part>(
    alloc: Global,
    map: &mut Map<String, Value>,
    split: &Split<C, S, P>,
) -> Result<(), AllocError>
    requires { members_view map.old.entries ≡ no_members }
    ensures { OnOk result (object (members_view map.new.entries) ≡ split_value C.value S.value P.value split.now) }
{
    put_part(alloc, map, "common", &split.common)?;
    put_part(alloc, map, "players", &split.players)?;
    put_part(alloc, map, "secret", &split.secret)
}

/// Puts a part into an object, as the member of a name.
pub(crate) fn put_part<T: Part>(
    alloc: Global,
    map: &mut Map<String, Value>,
    name: &str,
    part: &T,
) -> Result<(), AllocError>
    ensures { OnOk result (members_view map.new.entries ≡ put name.now (T.value part.now) (members_view map.old.entries)) }
{
    let value = part.to_json(alloc)?;
    serde_json::put(map, alloc, name, value)
}

/// An object with a part as its one member.
pub(crate) fn lone_to_json<T: Part>(
    alloc: Global,
    name: &str,
    part: &T,
) -> Result<Value, AllocError>
    ensures { IfOk result (λ v. view v ≡ lone_value name.now T.value part.now) }
{
    let value = part.to_json(alloc)?;
    object_of_one(alloc, name, value)
}

/// Appends the text of a split state's members from the players on.
#[tactic(auto, unfolding(json::specs::Print::escape_byte))]
fn write_from_players<S: Part, P: Part>(
    alloc: Global,
    out: &mut Vec<u8>,
    players: &List<Option<P>>,
    secret: &Option<S>,
) -> Result<(), AllocError>
    ensures { OnOk result (out.new.items ≡ out.old.items ++ members_text true (from_players S.value P.value players.now secret.now)) }
{
    out.extend_from_slice(b",\"players\":")?;
    players.write(alloc, out)?;
    out.extend_from_slice(b",\"secret\":")?;
    secret.write(alloc, out)?;
    out.extend_from_slice(b"}")
}

/// Appends the text of items, as that of a JSON array.
fn write_items<T: Part>(alloc: Global, out: &mut Vec<u8>, items: &[T]) -> Result<(), AllocError>
    ensures { OnOk result (out.new.items ≡ out.old.items ++ compact_text (list_value T.value items.now)) }
{
    out.push(b'[')?;
    let mut later = false;
    for item in items {
        write_next(alloc, out, later, item)?;
        later = true;
    }
    out.extend_from_slice(b"]")
}

/// Appends the text of an item, behind a comma where it isn't the first.
fn write_next<T: Part>(
    alloc: Global,
    out: &mut Vec<u8>,
    later: bool,
    item: &T,
) -> Result<(), AllocError>
    ensures { OnOk result (out.new.items ≡ out.old.items ++ (comma_if later ++ compact_text (T.value item.now))) }
{
    put_comma(out, later)?;
    item.write(alloc, out)
}

/// Items as a JSON array.
fn items_to_json<T: Part>(alloc: Global, items: &[T]) -> Result<Value, AllocError>
    ensures { IfOk result (λ v. view v ≡ list_value T.value items.now) }
{
    let mut values = Vec::new(alloc);
    for item in items {
        values.push(item.to_json(alloc)?)?;
    }
    Ok(Value::Array(values))
}

/// The items that a JSON array holds; none where one of its items isn't written so.
fn items_from_json<T: Part>(alloc: Global, items: &[Value]) -> Result<Option<List<T>>, NoMemory>
    ensures { IfOk result (λ parts. parts ≡ read_items T.read (items_view items.now)) }
{
    let mut parts = Vec::new(alloc);
    for item in items {
        match T::from_json(alloc, item)? {
            Some(part) => parts.push(part)?,
            None => return Ok(None),
        }
    }
    Ok(Some(List::from_vec(parts)))
}

/// The part that the member of an object with this name holds; none where there is no such member or part.
pub(crate) fn member<T: Part>(alloc: Global, v: &Value, name: &str) -> Result<Option<T>, NoMemory>
    ensures { IfOk result (λ part. part ≡ read_member name.now T.read (view v.now)) }
{
    match v.get(name) {
        Some(member) => T::from_json(alloc, member),
        None => Ok(None),
    }
}

/// The part that an object holds as its one member, of this name; none where there is no such member, another one or no such part.
pub(crate) fn lone_member<T: Part>(
    alloc: Global,
    v: &Value,
    name: &str,
) -> Result<Option<T>, NoMemory>
    ensures { IfOk result (λ part. part ≡ read_lone name.now T.read (view v.now)) }
{
    if extra_field(v, &[name]) {
        return Ok(None);
    }
    member(alloc, v, name)
}

/// Whether two lists of one length have the same items.
fn same_items<T: Part>(one: &[T], other: &[T]) -> bool
    requires { length one.now ≡ length other.now }
    ensures { IsTrue result ↔ (one.now ≡ other.now) }
{
    for (place, item) in one.iter().enumerate() {
        if !item.same(&other[place]) {
            return false;
        }
    }
    true
}
