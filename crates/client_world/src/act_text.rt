//! Reads the text of an act, which has the form of the member `act` of a client's line.

ghost use Rattle.std.specs.Prelude.{◌≡◌, IfOk, IfSome, IsUtf8};
ghost use Rattle.wire_json.specs.Asking.{AimIsUtf8, AskedIsUtf8, IsAskable};
ghost use Rattle.client_world.specs.Reading.{asked_of};

use game_sheet::{NoMemory, Text};
use json_tree::{LineFault, read_text};
use std::alloc::Global;
use wire_json::{Asked, AskedTo, asked_of};

/// The act that a text is; none where it is in no form.
pub(crate) fn act_of(alloc: Global, text: &str) -> Result<Option<Asked>, NoMemory>
    ensures act { IfOk result (λ act. act ≡ asked_of text.now) }
    ensures askable { IfOk result (λ act. IfSome act IsAskable) }
{
    match read_text(alloc, text.as_bytes()) {
        Ok(act) => {
            let asked = asked_of(alloc, &act);
            drop(act);
            match asked? {
                Some(asked) => {
                    names_are_utf8(&asked);
                    Ok(Some(asked))
                }
                None => Ok(None),
            }
        }
        Err(LineFault::NoMemory) => Err(NoMemory),
        Err(_) => Ok(None),
    }
}

/// The names in an act are UTF-8, since they are texts. It is a law; there is nothing to run.
fn names_are_utf8(asked: &Asked)
    ensures { AskedIsUtf8 asked.now }
{
    match asked {
        Asked::Move { name, .. } => name_is_utf8(name),
        Asked::Event { to, .. } => aim_is_utf8(to),
        Asked::Undo | Asked::Redo => {}
    }
}

fn aim_is_utf8(to: &AskedTo)
    ensures { AimIsUtf8 to.now }
{
    match to {
        AskedTo::Name(name) => name_is_utf8(name),
        AskedTo::Nothing | AskedTo::Seat(_) => {}
    }
}

fn name_is_utf8(name: &Text)
    ensures { IsUtf8 name.now }
{
    let _bytes = name.as_str().as_bytes();
}
