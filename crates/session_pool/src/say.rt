//! Lines that are sent over a link.

ghost use Rattle.std.specs.Prelude.{◌≡◌, ◌≤◌, [], Some, IsSome, is_some};
ghost use Rattle.board_links.specs.Answers.{AreLines};
ghost use Rattle.board_links.specs.Pieces.{told_bytes};
ghost use Rattle.link_rounds.specs.Ends.{ByeSent};
ghost use Rattle.session_pool.specs.Ends.{ShowsWhy};
ghost use Rattle.session_pool.specs.Lines.{AreWhole, IsSendEnd, SentAs};
ghost use Rattle.session_pool.specs.Turn.{Hands};

use board_links::{Link, Out, SessionEnd};
use game_sheet::{Bye, Bytes};
use std::sync::Wait;
use wire_json::bye_line;

/// Sends whole lines. Some where the send ended the session.
fn say<L: Link, R: Wait>(rt: &R, link: &mut L, bytes: &[u8]) -> Option<SessionEnd>
    requires lines { AreLines bytes.now }
    ensures why { IsSendEnd result }
    ensures never_falls { L.faults link.old ≤ L.faults link.new }
    ensures shows { ShowsWhy (L.faults link.old) (L.faults link.new) result }
    ensures stage { L.stage link.new ≡ L.stage link.old }
    ensures answers { L.answers link.new ≡ L.answers link.old }
    ensures tells { is_some (L.sent link.new) ≡ is_some (L.sent link.old) }
    ensures is_bot { L.is_bot link.new ≡ L.is_bot link.old }
    ensures asked_out { L.asked_out link.new ≡ L.asked_out link.old }
    ensures told { IsSome (L.sent link.old) → SentAs result bytes.now (told_bytes (L.sent link.old)) (L.sent link.new) }
{
    match link.send(rt, bytes) {
        Out::Done => None,
        Out::Failed => Some(SessionEnd::LinkFault),
        Out::NoMemory => Some(SessionEnd::NoMemory),
    }
}

/// Sends bytes in whole lines, line by line. Some where a send ended the session.
pub(crate) fn say_all<L: Link, R: Wait>(rt: &R, link: &mut L, bytes: &Bytes) -> Option<SessionEnd>
    requires lines { AreWhole bytes.now }
    ensures why { IsSendEnd result }
    ensures never_falls { L.faults link.old ≤ L.faults link.new }
    ensures shows { ShowsWhy (L.faults link.old) (L.faults link.new) result }
    ensures stage { L.stage link.new ≡ L.stage link.old }
    ensures answers { L.answers link.new ≡ L.answers link.old }
    ensures tells { is_some (L.sent link.new) ≡ is_some (L.sent link.old) }
    ensures is_bot { L.is_bot link.new ≡ L.is_bot link.old }
    ensures asked_out { L.asked_out link.new ≡ L.asked_out link.old }
    ensures told { IsSome (L.sent link.old) → SentAs result bytes.now (told_bytes (L.sent link.old)) (L.sent link.new) }
{
    for place in 0..bytes.count() {
        if let Some(why) = say(rt, link, bytes.piece(place)) {
            return Some(why);
        }
    }
    None
}

/// Sends the bye line, with which the session ends.
fn say_bye<L: Link, R: Wait>(rt: &R, link: &mut L, bye: Bye) -> SessionEnd
    ensures never_falls { L.faults link.old ≤ L.faults link.new }
    ensures shows { ShowsWhy (L.faults link.old) (L.faults link.new) (Some result) }
    ensures bye { ByeSent (Some result) (L.sent link.new) }
    ensures stage { L.stage link.new ≡ L.stage link.old }
    ensures answers { L.answers link.new ≡ L.answers link.old }
    ensures tells { is_some (L.sent link.new) ≡ is_some (L.sent link.old) }
    ensures is_bot { L.is_bot link.new ≡ L.is_bot link.old }
    ensures asked_out { L.asked_out link.new ≡ L.asked_out link.old }
    ensures told { IsSome (L.sent link.old) → Hands [] (Some bye) (told_bytes (L.sent link.old)) (Some result) (L.sent link.new) }
{
    match say(rt, link, bye_line(bye)) {
        None => SessionEnd::Bye(bye),
        Some(why) => why,
    }
}

/// Sends what a Take handed out, and the bye line where it handed out an end.
pub(crate) fn hand_out<L: Link, R: Wait>(
    rt: &R,
    link: &mut L,
    bytes: &Bytes,
    over: Option<Bye>,
) -> Option<SessionEnd>
    requires lines { AreWhole bytes.now }
    ensures never_falls { L.faults link.old ≤ L.faults link.new }
    ensures shows { ShowsWhy (L.faults link.old) (L.faults link.new) result }
    ensures bye { ByeSent result (L.sent link.new) }
    ensures stage { L.stage link.new ≡ L.stage link.old }
    ensures answers { L.answers link.new ≡ L.answers link.old }
    ensures tells { is_some (L.sent link.new) ≡ is_some (L.sent link.old) }
    ensures is_bot { L.is_bot link.new ≡ L.is_bot link.old }
    ensures asked_out { L.asked_out link.new ≡ L.asked_out link.old }
    ensures told { IsSome (L.sent link.old) → Hands bytes.now over (told_bytes (L.sent link.old)) result (L.sent link.new) }
{
    if let Some(why) = say_all(rt, link, bytes) {
        return Some(why);
    }
    let Some(bye) = over else {
        return None;
    };
    Some(say_bye(rt, link, bye))
}
