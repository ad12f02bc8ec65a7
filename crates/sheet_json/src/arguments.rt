//! The arguments of a move: an array of whole numbers and texts.

ghost use Rattle.std.specs.Prelude.{◌≡◌, ◌++◌, IfOk, OnOk, true};
ghost use Rattle.std.specs.List.{AllByRecursion};
ghost use Rattle.serde_json.specs.Data.{array};
ghost use Rattle.serde_json.specs.View.{view, items_view};
ghost use Rattle.serde_json.specs.Written.{comma_if, compact_text};
ghost use Rattle.sheet_json.specs.Arguments.{AreArguments, argument, arguments, is_argument, argument_in, arguments_in};

use game_sheet::{Arg, Args, NoMemory, Short};
use json_text::{put_comma, put_integer, put_string};
use serde_json::Value;
use std::alloc::Global;

/// The array of the arguments, in order.
#[tactic(auto, using(crate::proofs::Writing::array_view))]
pub fn args_value(alloc: Global, args: &Args) -> Result<Value, NoMemory>
    ensures value { IfOk result (λ v. view v ≡ array (arguments args.now)) }
    ensures fits { OnOk result (AreArguments args.now) }
{
    let list = values_of(alloc, args.as_slice())?;
    Ok(Value::Array(list))
}

fn values_of(alloc: Global, args: &[Arg]) -> Result<Vec<Value>, NoMemory>
    ensures value { IfOk result (λ list. items_view list.items ≡ arguments args.now) }
    ensures fits { OnOk result (AllByRecursion (λ a. is_argument a ≡ true) args.now) }
{
    let mut list = Vec::new(alloc);
    for arg in args {
        list.push(value_of(alloc, *arg)?)?;
    }
    Ok(list)
}

fn value_of(alloc: Global, arg: Arg) -> Result<Value, NoMemory>
    ensures value { IfOk result (λ v. view v ≡ argument arg) }
    ensures fits { OnOk result (is_argument arg ≡ true) }
{
    match arg {
        Arg::Whole(number) => Ok(Value::from(number)),
        Arg::Text(text) => Ok(Value::try_from_str(alloc, text.as_str())?),
    }
}

/// Appends the array of the arguments, in order.
pub fn put_args(alloc: Global, out: &mut Vec<u8>, args: &Args) -> Result<(), NoMemory>
    ensures text { OnOk result (out.new.items ≡ out.old.items ++ compact_text (array (arguments args.now))) }
    ensures fits { OnOk result (AreArguments args.now) }
{
    put_list(alloc, out, args.as_slice())
}

fn put_list(alloc: Global, out: &mut Vec<u8>, args: &[Arg]) -> Result<(), NoMemory>
    ensures text { OnOk result (out.new.items ≡ out.old.items ++ compact_text (array (arguments args.now))) }
    ensures fits { OnOk result (AllByRecursion (λ a. is_argument a ≡ true) args.now) }
{
    out.push(b'[')?;
    let mut later = false;
    for arg in args {
        put_item(alloc, out, later, *arg)?;
        later = true;
    }
    out.push(b']')?;
    Ok(())
}

fn put_item(alloc: Global, out: &mut Vec<u8>, later: bool, arg: Arg) -> Result<(), NoMemory>
    ensures text { OnOk result (out.new.items ≡ out.old.items ++ comma_if later ++ compact_text (argument arg)) }
    ensures fits { OnOk result (is_argument arg ≡ true) }
{
    put_comma(out, later)?;
    put_arg(alloc, out, arg)
}

fn put_arg(alloc: Global, out: &mut Vec<u8>, arg: Arg) -> Result<(), NoMemory>
    ensures text { OnOk result (out.new.items ≡ out.old.items ++ compact_text (argument arg)) }
    ensures fits { OnOk result (is_argument arg ≡ true) }
{
    match arg {
        Arg::Whole(number) => Ok(put_integer(out, i64::from(number))?),
        Arg::Text(text) => Ok(put_string(alloc, out, text.as_str())?),
    }
}

/// The arguments that an array's items are; none where they are more than 8, or one of them is neither a whole number of
/// 32 bits with sign nor a text that a `Short` can hold. It takes no memory.
pub fn args_of(items: &[Value]) -> Option<Args>
    ensures { result ≡ arguments_in (items_view items.now) }
{
    if items.len() > Args::MOST {
        return None;
    }
    let mut args = Args::new();
    for item in items {
        let Some(arg) = arg_of(item) else {
            return None;
        };
        args.push(arg);
    }
    Some(args)
}

fn arg_of(item: &Value) -> Option<Arg>
    ensures { result ≡ argument_in (view item.now) }
{
    match item {
        Value::Number(number) => match number.as_i64() {
            Some(n) if -2147483648 <= n && n <= 2147483647 => Some(Arg::Whole(n as i32)),
            _ => None,
        },
        Value::String(text) => match Short::of(text.as_bytes()) {
            Some(text) => Some(Arg::Text(text)),
            None => None,
        },
        _ => None,
    }
}
