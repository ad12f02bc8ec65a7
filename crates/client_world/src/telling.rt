//! The words that a world prints of a client, and of the matches that it opens and leaves.

ghost use Rattle.std.specs.Prelude.{◌≡◌, ◌++◌, ◌∷◌, false, codes, decimal, Err, IfOk, OnOk};
ghost use Rattle.client_predict.specs.Reading.{is_starved};
ghost use Rattle.game_hall.specs.Requests.{refusal_by};
ghost use Rattle.world_history.specs.WorldScript.{left_text, refused_text};
ghost use Rattle.world_history.specs.Words.{act_no_word, feed_no_word, heard_word, of_client, predicted_word, told_word};
ghost use Rattle.session_hall.specs.Answered.{made_text};
ghost use Rattle.wire_json.specs.RefusalText.{refusal_text};
ghost use Rattle.wire_json.specs.declared.refusal.Refusal.TheVariants.{NoMatch};
ghost use Rattle.client_world.specs.Outcomes.{acted_word, leaving_text};

use client_predict::{ActNo, FeedNo, Predicted, Told};
use game_sheet::{MatchName, NoMemory};
use room_history::RoomReply;
use std::alloc::Global;
use wire_json::{Refusal, text_of_bye, text_of_match};

/// A line of a client.
pub(crate) fn told(alloc: Global, client: u8, word: &str) -> Result<Vec<u8>, NoMemory>
    ensures { IfOk result (λ text. text.items ≡ of_client client word.now) }
{
    let text = format!(in alloc; "{client} {word}\n")?;
    Ok(text.into_bytes())
}

/// What came of a client's action.
pub(crate) fn acted_word(acted: Result<Predicted, ActNo>) -> &'static str
    ensures { result.now ≡ acted_word acted }
{
    match acted {
        Ok(Predicted::Guessed) => "guessed",
        Ok(Predicted::Sent) => "sent",
        Err(ActNo::NotSynced) => "not-synced",
        Err(ActNo::Gone) => "gone",
        Err(ActNo::TooManyWaiting) => "too-many-waiting",
        Err(ActNo::NoMemory) => "again",
    }
}

/// What came of a line that a client read, if there was the memory to read it.
pub(crate) fn heard_text(
    alloc: Global,
    client: u8,
    heard: Result<Told, FeedNo>,
) -> Result<Vec<u8>, NoMemory>
    ensures text { IfOk result (λ text. text.items ≡ of_client client (heard_word heard)) }
    ensures fed { OnOk result (is_starved heard ≡ false) }
{
    match heard {
        Ok(told) => told_text(alloc, client, told),
        Err(why) => feed_no_text(alloc, client, why),
    }
}

/// What a line told the client.
fn told_text(alloc: Global, client: u8, what: Told) -> Result<Vec<u8>, NoMemory>
    ensures { IfOk result (λ text. text.items ≡ of_client client (told_word what)) }
{
    match what {
        Told::Synced => told(alloc, client, "sync"),
        Told::Updated => told(alloc, client, "update"),
        Told::Accepted { ticket } => numbered(alloc, client, "ok", ticket),
        Told::Refused { reason, .. } => worded(alloc, client, "no", reason.name()),
        Told::Again { .. } => told(alloc, client, "again"),
        Told::Ended(why) => worded(alloc, client, "bye", text_of_bye(why)),
        Told::Other => told(alloc, client, "other"),
    }
}

/// Why the line is none for the client.
fn feed_no_text(alloc: Global, client: u8, why: FeedNo) -> Result<Vec<u8>, NoMemory>
    ensures text { IfOk result (λ text. text.items ≡ of_client client (feed_no_word why)) }
    ensures fed { OnOk result (is_starved (Err why) ≡ false) }
{
    match why {
        FeedNo::Gone => told(alloc, client, "gone"),
        FeedNo::BadLine => told(alloc, client, "bad-line"),
        FeedNo::OutOfStep { have, was } => out_of_step(alloc, client, have, was),
        FeedNo::UnknownTicket { ticket } => numbered(alloc, client, "unknown-ticket", ticket),
        FeedNo::NoMemory => Err(NoMemory),
    }
}

/// A client's line of a word and a number.
fn numbered(alloc: Global, client: u8, word: &str, number: u32) -> Result<Vec<u8>, NoMemory>
    ensures { IfOk result (λ text. text.items ≡ of_client client (word.now ++ 32 ∷ decimal number)) }
{
    let text = format!(in alloc; "{client} {word} {number}\n")?;
    Ok(text.into_bytes())
}

/// A client's line of two words.
fn worded(alloc: Global, client: u8, word: &str, other: &str) -> Result<Vec<u8>, NoMemory>
    ensures { IfOk result (λ text. text.items ≡ of_client client (word.now ++ 32 ∷ other.now)) }
{
    let text = format!(in alloc; "{client} {word} {other}\n")?;
    Ok(text.into_bytes())
}

/// A client's line of an action whose number isn't the next.
fn out_of_step(alloc: Global, client: u8, have: u32, was: u32) -> Result<Vec<u8>, NoMemory>
    ensures { IfOk result (λ text. text.items ≡ of_client client (codes "out-of-step " ++ decimal have ++ 32 ∷ decimal was)) }
{
    let word = format!(in alloc; "out-of-step {have} {was}")?;
    told(alloc, client, word.as_str())
}

/// What an open prints: the match that was made, or that there was no room for it.
pub(crate) fn made_text(alloc: Global, made: Option<MatchName>) -> Result<Vec<u8>, NoMemory>
    ensures { IfOk result (λ text. text.items ≡ made_text made) }
{
    match made {
        Some(name) => {
            let name = text_of_match(alloc, &name)?;
            let word = name.as_str();
            let text = format!(in alloc; "open {word}\n")?;
            Ok(text.into_bytes())
        }
        None => Ok(Vec::from_slice(alloc, b"open full\n")?),
    }
}

/// What a leaving prints.
pub(crate) fn leaving_text(alloc: Global, told: Option<RoomReply>) -> Result<Vec<u8>, NoMemory>
    ensures { IfOk result (λ text. text.items ≡ leaving_text told) }
{
    match told {
        Some(RoomReply::Left) => Ok(Vec::from_slice(alloc, b"left\n")?),
        Some(other) => {
            let why = refusal_by(&other);
            drop(other);
            refused_text(alloc, why)
        }
        None => refused_text(alloc, Refusal::NoMatch),
    }
}

/// That a leaving is refused.
fn refused_text(alloc: Global, why: Refusal) -> Result<Vec<u8>, NoMemory>
    ensures { IfOk result (λ text. text.items ≡ refused_text (refusal_text why)) }
{
    let word = why.name();
    let text = format!(in alloc; "no {word}\n")?;
    Ok(text.into_bytes())
}

/// What a room's refusal is to a player.
fn refusal_by(reply: &RoomReply) -> Refusal
    ensures { result ≡ refusal_by reply.now }
{
    match reply {
        RoomReply::Busy => Refusal::Full,
        RoomReply::BadSeats => Refusal::BadSeats,
        RoomReply::NoStart => Refusal::NoStart,
        RoomReply::NoSeat => Refusal::NoSeat,
        RoomReply::SeatTaken => Refusal::SeatTaken,
        RoomReply::BadName => Refusal::BadName,
        RoomReply::AlreadyAttached => Refusal::AlreadyAttached,
        RoomReply::Unauthorized => Refusal::Unauthorized,
        RoomReply::NotAttached => Refusal::NotAttached,
        _ => Refusal::NoMatch,
    }
}
