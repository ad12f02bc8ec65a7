//! The words that a player is told: what came of an action, and of a line that was read. They take no memory.

ghost use Rattle.std.specs.Prelude.{◌≡◌, ◌≤◌, ◌++◌, ◌∷◌, [], codes, decimal, length};
ghost use Rattle.world_history.specs.Words.{act_no_word, feed_no_word, heard_word, predicted_word, told_word};
ghost use Rattle.link_play.specs.Sitting.{on_line};

use arrayvec::ArrayString;
use client_predict::{ActNo, FeedNo, Predicted, Told};
use itoa::Buffer;
use wire_json::text_of_bye;

/// What came of an action that was made.
pub(crate) fn predicted_line(predicted: Predicted) -> &'static str
    ensures { result.now ≡ on_line (predicted_word predicted) }
{
    match predicted {
        Predicted::Guessed => "guessed\n",
        Predicted::Sent => "sent\n",
    }
}

/// Why no action was made.
pub(crate) fn act_no_line(why: ActNo) -> &'static str
    ensures { result.now ≡ on_line (act_no_word why) }
{
    match why {
        ActNo::NotSynced => "not-synced\n",
        ActNo::Gone => "gone\n",
        ActNo::TooManyWaiting => "too-many-waiting\n",
        ActNo::NoMemory => "again\n",
    }
}

/// What came of a line that was read.
pub(crate) fn heard_line(heard: Result<Told, FeedNo>) -> ArrayString<48>
    ensures { result.bytes ≡ on_line (heard_word heard) }
{
    match heard {
        Ok(told) => told_line(told),
        Err(why) => feed_no_line(why),
    }
}

/// What the line told.
fn told_line(told: Told) -> ArrayString<48>
    ensures { result.bytes ≡ on_line (told_word told) }
{
    match told {
        Told::Synced => whole("sync\n"),
        Told::Updated => whole("update\n"),
        Told::Accepted { ticket } => numbered("ok ", ticket),
        Told::Refused { reason, .. } => worded("no ", reason.name()),
        Told::Again { .. } => whole("again\n"),
        Told::Ended(why) => worded("bye ", text_of_bye(why)),
        Told::Other => whole("other\n"),
    }
}

/// Why the line is none for the client.
fn feed_no_line(why: FeedNo) -> ArrayString<48>
    ensures { result.bytes ≡ on_line (feed_no_word why) }
{
    match why {
        FeedNo::Gone => whole("gone\n"),
        FeedNo::BadLine => whole("bad-line\n"),
        FeedNo::OutOfStep { have, was } => out_of_step(have, was),
        FeedNo::UnknownTicket { ticket } => numbered("unknown-ticket ", ticket),
        FeedNo::NoMemory => whole("again\n"),
    }
}

fn whole(text: &str) -> ArrayString<48>
    requires { length text.now ≤ 16 }
    ensures { result.bytes ≡ text.now }
{
    let mut line = ArrayString::new();
    line.push_str(text);
    line
}

/// A line of two words.
fn worded(word: &str, other: &str) -> ArrayString<48>
    requires { (length word.now ≤ 16) × (length other.now ≤ 16) }
    ensures { result.bytes ≡ on_line (word.now ++ other.now) }
{
    let mut line = whole(word);
    line.push_str(other);
    line.push_str("\n");
    line
}

/// A line of a word and a number.
fn numbered(word: &str, number: u32) -> ArrayString<48>
    requires { length word.now ≤ 16 }
    ensures { result.bytes ≡ on_line (word.now ++ decimal number) }
{
    let mut line = whole(word);
    let mut digits = Buffer::new();
    line.push_str(digits.format(number));
    line.push_str("\n");
    line
}

/// That an action has another number than the next.
fn out_of_step(have: u32, was: u32) -> ArrayString<48>
    ensures { result.bytes ≡ on_line (codes "out-of-step " ++ decimal have ++ 32 ∷ decimal was) }
{
    let mut line = whole("out-of-step ");
    let mut had = Buffer::new();
    line.push_str(had.format(have));
    line.push_str(" ");
    let mut digits = Buffer::new();
    line.push_str(digits.format(was));
    line.push_str("\n");
    line
}
