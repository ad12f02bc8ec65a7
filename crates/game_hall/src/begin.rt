//! What a session's message begins.

ghost use Rattle.std.specs.Prelude.{◌≡◌, ◌≤◌, ◌<◌, length, IfOk, IfSome, Ok, OnOk, OnErr, None, is_some};
ghost use Rattle.wire_json.specs.declared.refusal.Refusal.TheVariants.{NotABot};
ghost use Rattle.any_game.specs.AnyRules.{named};
ghost use Rattle.wire_json.specs.ClientReading.{client_read};
ghost use Rattle.game_hall.specs.Bench.{bench_after, or_bench};
ghost use Rattle.game_hall.specs.Kept.{NextIn};
ghost use Rattle.game_hall.specs.Requests.{begins, hears, in_room as in_room_of, makes as made_of, lists_of, syncs as synced_by, acts as acted_by, refuses, tries};
ghost use Rattle.game_hall.specs.Words.{drawn, key_of, seed_left, seed_left_by, words_drawn, words_drawn_by, seed_of, seed_words};
ghost use Rattle.room_history.specs.declared.call.RoomCall.TheVariants as call;
ghost use Rattle.wire_json.specs.declared.client.ClientMsg.TheVariants as line;
ghost use Rattle.game_hall.specs.declared.answer.Answer.TheVariants.{Games as IsGames};
ghost use Rattle.game_hall.specs.declared.next.Next.TheVariants.{Says as IsSaid};
ghost use Rattle.game_hall.specs.declared.request.Request.TheVariants.{Joining as IsJoining};

use crate::bench::Bench;
use crate::next::Next;
use crate::reply::look_on;
use crate::request::Request;
use crate::rows::Rows;
use crate::words::{match_seed, player_key};
use crate::written::WrittenAnswer;
use any_game::{AnyGame, by_name};
use dice_words::Tape;
use game_sheet::{MatchName, NoMemory, Seat, Text};
use room_history::RoomCall;
use std::alloc::Global;
use wire_json::{ClientMsg, Refusal, Submission, read_client};

/// What a line comes to in a session that is attached to this room, if any. A create takes the seed that stands ready, or else draws
/// eight words; a join draws four; a takeover is put to the bench, if there is one. Without memory nothing is drawn.
pub fn hear(
    alloc: Global,
    rooms: u8,
    at: Option<u8>,
    line: &[u8],
    tape: &mut Tape,
    seed: &mut Option<[u8; 32]>,
    bench: &mut Bench,
) -> Result<Next<AnyGame>, NoMemory>
    requires rooms { 1 ≤ rooms }
    requires attached { IfSome at (λ room. room < rooms) }
    requires words { 8 ≤ length tape.old.left }
    ensures heard { IfOk result (λ n. n ≡ or_bench bench.old (client_read line.now) (hears named rooms at (client_read line.now) tape.old.left seed.old)) }
    ensures there { IfOk result (NextIn rooms) }
    ensures drawn { OnOk result (tape.new ≡ drawn (words_drawn_by (client_read line.now) seed.old) tape.old) }
    ensures taken { OnOk result (seed.new ≡ seed_left_by (client_read line.now) seed.old) }
    ensures asked { OnOk result (bench.new ≡ bench_after bench.old (client_read line.now)) }
    ensures words_kept { OnErr result (tape.new ≡ tape.old) }
    ensures seed_kept { OnErr result (seed.new ≡ seed.old) }
    ensures bench_kept { OnErr result (bench.new ≡ bench.old) }
{
    match read_client(alloc, line) {
        Ok(message) => begin(alloc, rooms, at, message, tape, seed, bench),
        Err(no) => match Refusal::of_fault(no) {
            Some(refusal) => Ok(refuse(refusal)),
            None => Err(NoMemory),
        },
    }
}

/// What a message begins.
fn begin(
    alloc: Global,
    rooms: u8,
    at: Option<u8>,
    message: ClientMsg,
    tape: &mut Tape,
    seed: &mut Option<[u8; 32]>,
    bench: &mut Bench,
) -> Result<Next<AnyGame>, NoMemory>
    requires rooms { 1 ≤ rooms }
    requires words { 8 ≤ length tape.old.left }
    ensures begun { IfOk result (λ n. n ≡ or_bench bench.old (Ok message) (begins named rooms at message tape.old.left seed.old)) }
    ensures drawn { OnOk result (tape.new ≡ drawn (words_drawn message seed.old) tape.old) }
    ensures taken { OnOk result (seed.new ≡ seed_left message seed.old) }
    ensures asked { OnOk result (bench.new ≡ bench_after bench.old (Ok message)) }
    ensures words_kept { OnErr result (tape.new ≡ tape.old) }
    ensures seed_kept { OnErr result (seed.new ≡ seed.old) }
    ensures bench_kept { OnErr result (bench.new ≡ bench.old) }
{
    match message {
        ClientMsg::Games => games(alloc),
        ClientMsg::Matches { game } => list(alloc, rooms, game),
        ClientMsg::Look { name } => {
            let call = RoomCall::Look {
                serial: Some(name.serial()),
            };
            Ok(in_room(rooms, name.room(), call, Request::Looking))
        }
        ClientMsg::Create { game, seats } => create(alloc, game, seats, tape, seed),
        ClientMsg::Join { name, player, seat } => Ok(join(rooms, name, player, seat, tape)),
        ClientMsg::Rename {
            key,
            name,
            player,
            seat,
        } => {
            let call = RoomCall::Rename {
                serial: name.serial(),
                seat,
                key,
                name: player,
            };
            Ok(in_room(rooms, name.room(), call, Request::Renaming { name, seat }))
        }
        ClientMsg::Leave { key, name, seat } => {
            let call = RoomCall::Leave {
                serial: name.serial(),
                seat,
                key,
            };
            Ok(in_room(rooms, name.room(), call, Request::Leaving { name, seat }))
        }
        ClientMsg::Sync {
            name,
            viewer,
            protocol,
        } => {
            let call = RoomCall::Attach {
                serial: name.serial(),
                viewer,
                protocol,
            };
            Ok(sync(rooms, at, name.room(), call))
        }
        ClientMsg::Act(submission) => Ok(act(at, submission)),
        ClientMsg::Takeover { name, seat } => Ok(take_over(bench, name, seat)),
    }
}

/// A takeover is put to the bench. Without one no seat is a bot's.
fn take_over<X>(bench: &mut Bench, name: MatchName, seat: Seat) -> Next<X>
    ensures next { result ≡ or_bench bench.old (Ok (line.Takeover name seat)) (refuses NotABot) }
    ensures asked { bench.new ≡ bench_after bench.old (Ok (line.Takeover name seat)) }
{
    match bench {
        Bench::Idle => {
            *bench = Bench::Wants { name, seat };
            Next::Silent
        }
        _ => refuse(Refusal::NotABot),
    }
}

/// The names of the games.
fn games(alloc: Global) -> Result<Next<AnyGame>, NoMemory>
    ensures { IfOk result (λ n. n ≡ IsSaid IsGames) }
{
    match WrittenAnswer::games(alloc) {
        Ok(answer) => Ok(Next::Says(answer)),
        Err(no) => Err(no),
    }
}

/// A refusal.
pub fn refuse<X>(refusal: Refusal) -> Next<X>
    ensures { result ≡ refuses refusal }
{
    Next::Says(WrittenAnswer::refused(refusal))
}

/// A call of a match's room, if that is there.
fn in_room<X: Drop>(rooms: u8, room: u8, call: RoomCall<X>, request: Request) -> Next<X>
    ensures { result ≡ in_room_of rooms room call request }
{
    if room < rooms {
        Next::Calls {
            room,
            call,
            request,
        }
    } else {
        drop(call);
        drop(request);
        refuse(Refusal::NoMatch)
    }
}

/// A look at every room, if there is such a game.
fn list(alloc: Global, rooms: u8, game: Text) -> Result<Next<AnyGame>, NoMemory>
    ensures { IfOk result (λ n. n ≡ lists_of rooms (named game) game) }
{
    if !is_game(alloc, &game)? {
        return Ok(refuse(Refusal::NoGame));
    }
    let rows = Rows::none(alloc)?;
    Ok(look_on(rooms, game, rows, 0))
}

/// Whether there is a game of this name.
fn is_game(alloc: Global, name: &Text) -> Result<bool, NoMemory>
    ensures { IfOk result (λ known. known ≡ is_some (named name.now)) }
{
    match by_name(alloc, name.as_str()) {
        Ok(game) => {
            let known = game.is_some();
            drop(game);
            Ok(known)
        }
        Err(no) => Err(no),
    }
}

/// A match in the first room.
fn create(
    alloc: Global,
    game: Text,
    seats: u8,
    tape: &mut Tape,
    seed: &mut Option<[u8; 32]>,
) -> Result<Next<AnyGame>, NoMemory>
    requires { 8 ≤ length tape.old.left }
    ensures made { IfOk result (λ n. n ≡ made_of (named game) game seats (seed_of seed.old tape.old.left) 0) }
    ensures drawn { OnOk result (tape.new ≡ drawn (seed_words seed.old) tape.old) }
    ensures taken { OnOk result (seed.new ≡ None) }
    ensures words_kept { OnErr result (tape.new ≡ tape.old) }
    ensures seed_kept { OnErr result (seed.new ≡ seed.old) }
{
    match by_name(alloc, game.as_str()) {
        Ok(found) => Ok(make(found, game, seats, match_seed(tape, seed), 0)),
        Err(no) => Err(no),
    }
}

/// A match of a game in a room, if there is such a game.
pub fn make<X>(found: Option<X>, game: Text, seats: u8, seed: [u8; 32], room: u8) -> Next<X>
    ensures { result ≡ made_of found game seats seed room }
{
    match found {
        None => refuse(Refusal::NoGame),
        Some(found) => Next::Calls {
            room,
            call: RoomCall::Create {
                game: found,
                seats,
                seed,
            },
            request: Request::Creating {
                game,
                seats,
                seed,
                room,
            },
        },
    }
}

/// A player at a seat, under a new key.
fn join(rooms: u8, name: MatchName, player: Text, seat: Seat, tape: &mut Tape) -> Next<AnyGame>
    requires { 4 ≤ length tape.old.left }
    ensures asked { let key = key_of tape.old.left in
        result ≡ in_room_of rooms name.room (call.Join name.serial seat player key) (IsJoining name seat key) }
    ensures drawn { tape.new ≡ drawn 4 tape.old }
{
    let key = player_key(tape);
    let call = RoomCall::Join {
        serial: name.serial(),
        seat,
        name: player,
        key,
    };
    in_room(
        rooms,
        name.room(),
        call,
        Request::Joining { name, seat, key },
    )
}

/// An attachment, unless the session has one.
fn sync<X: Drop>(rooms: u8, at: Option<u8>, room: u8, call: RoomCall<X>) -> Next<X>
    ensures { result ≡ synced_by rooms at room call }
{
    match at {
        None => in_room(rooms, room, call, Request::Syncing { room }),
        Some(_) => {
            drop(call);
            refuse(Refusal::AlreadyAttached)
        }
    }
}

/// A submission to the attached room, if there is one.
fn act<X>(at: Option<u8>, submission: Submission) -> Next<X>
    ensures { result ≡ acted_by at (call.Submit submission) submission.ticket }
{
    match at {
        None => refuse(Refusal::NotAttached),
        Some(room) => {
            let ticket = submission.ticket;
            Next::Calls {
                room,
                call: RoomCall::Submit(submission),
                request: Request::Acting { ticket },
            }
        }
    }
}
