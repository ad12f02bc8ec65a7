//! Which lines of a world are in form, and what they ask for.

ghost use Rattle.std.specs.Prelude.{◌≡◌, ◌<◌, IfOk, IfSome, option_map, option_and_then};
ghost use Rattle.any_game.specs.AnyRules.{any_rules};
ghost use Rattle.room_history.specs.Reply.{seats_fit};
ghost use Rattle.world_history.specs.World.{Seeds};
ghost use Rattle.wire_json.specs.KeyText.{lower_hex};
ghost use Rattle.client_world.specs.Reading.{acting, attaching, attaching_as, by_client, client_step, cut, is_played, leaving, opening, opening_of, step_in, world_step_of};
ghost use Rattle.client_world.specs.Steps.{step_of, IsRunnable};

use crate::act_text::act_of;
use crate::step::WorldStep;
use crate::words::{claim_of, client_of, cut, seat_of};
use any_game::{AnyGame, by_name};
use game_sheet::{NoMemory, Text};
use game_trait::Game;
use std::alloc::Global;
use std::str;
use wire_json::{lower_hex_of, match_of};

/// What a line of a world asks for; none where it is in no form. The line comes without its newline.
#[tactic(auto, unfolding(crate::specs::Reading::world_step_of), using(crate::proofs::Texts::is_text, crate::proofs::Texts::is_no_text))]
pub fn read_world_step(alloc: Global, line: &[u8]) -> Result<Option<WorldStep>, NoMemory>
    ensures step { IfOk result (λ step. option_map step_of step ≡ world_step_of line.now) }
    ensures runs { IfOk result (λ step. IfSome step IsRunnable) }
{
    let Some(first) = line.first() else {
        return Ok(Some(WorldStep::Nothing));
    };
    if *first == b'#' {
        return Ok(Some(WorldStep::Nothing));
    }
    match str::from_utf8(line) {
        Ok(line) => step_in(alloc, line),
        Err(_) => Ok(None),
    }
}

/// What a line that is a text asks for.
fn step_in(alloc: Global, line: &str) -> Result<Option<WorldStep>, NoMemory>
    ensures step { IfOk result (λ step. option_map step_of step ≡ step_in line.now) }
    ensures runs { IfOk result (λ step. IfSome step IsRunnable) }
{
    let Some((word, rest)) = cut(line) else {
        return Ok(None);
    };
    match word {
        "open" => opening(alloc, rest),
        "seed" => Ok(seeding(rest)),
        "attach" => attaching(alloc, rest),
        "act" => acting(alloc, rest),
        "leave" => Ok(leaving(rest)),
        _ => Ok(by_client(word, rest)),
    }
}

/// What a line of one client alone asks for.
fn by_client(word: &str, rest: &str) -> Option<WorldStep>
    ensures step { option_map step_of result ≡ by_client word.now rest.now }
    ensures runs { IfSome result IsRunnable }
{
    match client_of(rest) {
        Some(client) => client_step(word, client),
        None => None,
    }
}

/// What a word asks of a client.
fn client_step(word: &str, client: u8) -> Option<WorldStep>
    requires { client < 32 }
    ensures step { option_map step_of result ≡ client_step word.now client }
    ensures runs { IfSome result IsRunnable }
{
    match word {
        "arrive" => Some(WorldStep::Arrives { client }),
        "take" => Some(WorldStep::Takes { client }),
        "read" => Some(WorldStep::Reads { client }),
        "drop" => Some(WorldStep::Drops { client }),
        "show" => Some(WorldStep::Shows { client }),
        _ => None,
    }
}

/// A seed in 64 hexadecimal digits of lower case.
fn seeding(rest: &str) -> Option<WorldStep>
    ensures step { option_map step_of result ≡ option_map Seeds (lower_hex 32 rest.now) }
    ensures runs { IfSome result IsRunnable }
{
    let seed = lower_hex_of::<32, 64>(rest.as_bytes())?;
    Some(WorldStep::Seeds { seed })
}

/// A match of a game, and a number of seats that it allows.
fn opening(alloc: Global, rest: &str) -> Result<Option<WorldStep>, NoMemory>
    ensures step { IfOk result (λ step. option_map step_of step ≡ opening rest.now) }
    ensures runs { IfOk result (λ step. IfSome step IsRunnable) }
{
    let Some((game, seats)) = cut(rest) else {
        return Ok(None);
    };
    match seat_of(seats) {
        Some(seats) => opening_of(alloc, game, seats),
        None => Ok(None),
    }
}

fn opening_of(alloc: Global, game: &str, seats: u8) -> Result<Option<WorldStep>, NoMemory>
    ensures step { IfOk result (λ step. option_map step_of step ≡ opening_of game.now seats) }
    ensures runs { IfOk result (λ step. IfSome step IsRunnable) }
{
    let found = by_name(alloc, game)?;
    if is_played(seats, found) {
        let game = Text::from_str(alloc, game)?;
        Ok(Some(WorldStep::Opens { game, seats }))
    } else {
        Ok(None)
    }
}

/// Whether there is the game, and it allows this number of seats.
#[tactic(auto, unfolding(crate::specs::Reading::is_played))]
fn is_played(seats: u8, game: Option<AnyGame>) -> bool
    ensures { result ≡ is_played seats game }
{
    let Some(game) = game else {
        return false;
    };
    let allows = allows(&game, seats);
    drop(game);
    allows
}

/// Whether a game is for this number of seats.
fn allows(game: &AnyGame, seats: u8) -> bool
    ensures { result ≡ seats_fit (any_rules game.now).sheet seats }
{
    let sheet = game.sheet();
    sheet.min_seats <= seats && seats <= sheet.max_seats
}

/// A new client.
fn attaching(alloc: Global, rest: &str) -> Result<Option<WorldStep>, NoMemory>
    ensures step { IfOk result (λ step. option_map step_of step ≡ attaching rest.now) }
    ensures runs { IfOk result (λ step. IfSome step IsRunnable) }
{
    let Some((client, rest)) = cut(rest) else {
        return Ok(None);
    };
    match client_of(client) {
        Some(client) => attaching_as(alloc, client, rest),
        None => Ok(None),
    }
}

/// A new client of this number.
fn attaching_as(alloc: Global, client: u8, rest: &str) -> Result<Option<WorldStep>, NoMemory>
    requires { client < 32 }
    ensures step { IfOk result (λ step. option_map step_of step ≡ option_and_then (attaching_as client) (cut rest.now)) }
    ensures runs { IfOk result (λ step. IfSome step IsRunnable) }
{
    let Some((game, rest)) = cut(rest) else {
        return Ok(None);
    };
    let Some((name, seat, protocol)) = claim_of(rest) else {
        return Ok(None);
    };
    match by_name(alloc, game) {
        Ok(Some(game)) => Ok(Some(WorldStep::Attaches {
            client,
            game,
            name,
            seat,
            protocol,
        })),
        Ok(None) => Ok(None),
        Err(no) => Err(no),
    }
}

/// An action of a client.
fn acting(alloc: Global, rest: &str) -> Result<Option<WorldStep>, NoMemory>
    ensures step { IfOk result (λ step. option_map step_of step ≡ acting rest.now) }
    ensures runs { IfOk result (λ step. IfSome step IsRunnable) }
{
    let Some((client, text)) = cut(rest) else {
        return Ok(None);
    };
    let Some(client) = client_of(client) else {
        return Ok(None);
    };
    match act_of(alloc, text)? {
        Some(asked) => Ok(Some(WorldStep::Acts { client, asked })),
        None => Ok(None),
    }
}

/// A player who leaves a seat.
fn leaving(rest: &str) -> Option<WorldStep>
    ensures step { option_map step_of result ≡ leaving rest.now }
    ensures runs { IfSome result IsRunnable }
{
    let (name, seat) = cut(rest)?;
    let name = match_of(name)?;
    let seat = seat_of(seat)?;
    Some(WorldStep::Leaves { name, seat })
}
