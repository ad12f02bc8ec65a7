//! The words of a world's lines.

ghost use Rattle.std.specs.Prelude.{◌≡◌, ◌<◌, ◌≤◌, option_map, IfSome};
ghost use Rattle.client_world.specs.Reading.{claim_in, client_in, cut, looker_in, looking, looking_in, seat_in};

use game_sheet::{MatchName, Seat};
use wire_json::{Protocol, decimal_of, match_of};

/// What stands before and after the first blank.
#[tactic(auto, using(crate::proofs::Texts::cut_is))]
pub(crate) fn cut(text: &str) -> Option<(&str, &str)>
    ensures { option_map (λ p. (p.0.now, p.1.now)) result ≡ cut text.now }
{
    text.split_once(' ')
}

/// The client of a number, 0 to 31.
pub(crate) fn client_of(word: &str) -> Option<u8>
    ensures client { result ≡ client_in word.now }
    ensures least { IfSome result (λ client. client < 32) }
{
    match decimal_of(word) {
        Some(client) if client <= 31 => Some(client as u8),
        _ => None,
    }
}

/// The seat of a number, 0 to 255, or a number of seats.
pub(crate) fn seat_of(word: &str) -> Option<Seat>
    ensures { result ≡ seat_in word.now }
{
    match decimal_of(word) {
        Some(seat) if seat <= 255 => Some(seat as u8),
        _ => None,
    }
}

/// The seat that looks, or none for a spectator's dash.
fn looker_of(word: &str) -> Option<Option<Seat>>
    ensures { result ≡ looker_in word.now }
{
    if word == "-" {
        return Some(None);
    }
    match seat_of(word) {
        Some(seat) => Some(Some(seat)),
        None => None,
    }
}

/// Who looks, in a protocol.
fn looking_in(protocol: Protocol, word: &str) -> Option<(Option<Seat>, Protocol)>
    ensures { result ≡ looking_in protocol word.now }
{
    match looker_of(word) {
        Some(seat) => Some((seat, protocol)),
        None => None,
    }
}

/// Who looks, and in which protocol.
fn looking(rest: &str) -> Option<(Option<Seat>, Protocol)>
    ensures { result ≡ looking rest.now }
{
    match cut(rest) {
        None => looking_in(Protocol::One, rest),
        Some((word, protocol)) => {
            if protocol == "2" {
                looking_in(Protocol::Two, word)
            } else {
                None
            }
        }
    }
}

/// The match, who looks, and in which protocol.
pub(crate) fn claim_of(rest: &str) -> Option<(MatchName, Option<Seat>, Protocol)>
    ensures { result ≡ claim_in rest.now }
{
    let (name, rest) = cut(rest)?;
    let name = match_of(name)?;
    let (seat, protocol) = looking(rest)?;
    Some((name, seat, protocol))
}
