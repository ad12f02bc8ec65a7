//! The text of a move's arguments, appended to bytes.

ghost use Rattle.std.specs.Prelude.{◌≡◌, ◌++◌, OnOk};
ghost use Rattle.serde_json.specs.Data.{array};
ghost use Rattle.serde_json.specs.Written.{comma_if, compact_text};
ghost use Rattle.sheet_json.specs.Arguments.{argument, arguments};

use crate::text_parts::put_name;
use game_sheet::{Arg, NoMemory};
use json_text::{put_comma, put_integer};
use std::alloc::Global;

/// Appends the array of the arguments, in order.
pub fn put_args(alloc: Global, out: &mut Vec<u8>, args: &[Arg]) -> Result<(), NoMemory>
    ensures { OnOk result (out.new.items ≡ out.old.items ++ compact_text (array (arguments args.now))) }
{
    out.push(b'[')?;
    let mut later = false;
    for arg in args {
        put_item(alloc, out, later, arg)?;
        later = true;
    }
    out.push(b']')?;
    Ok(())
}

fn put_item(alloc: Global, out: &mut Vec<u8>, later: bool, arg: &Arg) -> Result<(), NoMemory>
    ensures { OnOk result (out.new.items ≡ out.old.items ++ (comma_if later ++ compact_text (argument arg.now))) }
{
    put_comma(out, later)?;
    match arg {
        Arg::Whole(number) => Ok(put_integer(out, i64::from(*number))?),
        Arg::Text(text) => put_name(alloc, out, text.as_str()),
    }
}
