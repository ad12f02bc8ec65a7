//! The match at which bots are to sit, which is made before any link is taken.

ghost use Rattle.std.specs.Prelude.{◌≡◌, ◌<◌, ℕ, List, All, None, length, not, vec_len};
ghost use Rattle.dice_words.specs.Strip.{live};
ghost use Rattle.game_hall.specs.Words.{seed_of};
ghost use Rattle.match_master.specs.Held.{is_starved};
ghost use Rattle.room_history.specs.declared.call.RoomCall.TheVariants as call;
ghost use Rattle.room_history.specs.declared.reply.RoomReply.{RoomReply as Reply};
ghost use Rattle.session_driver.specs.Calls.{did};
ghost use Rattle.session_pool.specs.Passes.{Belong, CallsDesk, number_of};
ghost use Rattle.session_pool.specs.Placed.{AttachedBy};
ghost use Rattle.session_pool.specs.Watched.{AllBegin, seen_of};
ghost use Rattle.door_serve.specs.Rooms.{Calls};

use any_game::AnyGame;
use dice_words::Tape;
use game_hall::match_seed;
use hosted_room::HostedRoom;
use room_desk::{Desk, Pass};
use room_history::{RoomCall, RoomReply};
use std::sync::Wait;

/// The stream from which the match's seed is drawn.
const STREAM: u64 = 32;

/// The first eight words of the match's stream, as its seed.
fn seed_for(seed: [u8; 32]) -> [u8; 32]
    ensures { result ≡ seed_of None (live seed 32 0).left }
{
    let mut words = Tape::live(seed, STREAM, 0);
    let mut ready = None;
    let made = match_seed(&mut words, &mut ready);
    drop(words);
    made
}

/// Makes a match of so many seats in the first room, by the first of these passes, with words 0 to 7 of stream 32 of the seed. False where there
/// was no memory for it; any other reply is as good as another.
fn make_match<B: HostedRoom<AnyGame>, R: Wait>(
    rt: &R,
    desks: &[Desk<B>],
    passes: &mut [Pass<B>],
    game: AnyGame,
    seats: u8,
    seed: [u8; 32],
) -> bool
    requires some { 0 < length desks.now }
    requires belong { Belong desks.now (number_of passes.old) passes.old }
    requires free { AttachedBy passes.old None }
    ensures made { (told : Reply) × CallsDesk B.may_starve passes.old (did 0 (call.Create game seats (seed_of None (live seed 32 0).left)) told) passes.new
        × (result ≡ not (is_starved told)) }
    ensures belong { Belong desks.now (number_of passes.new) passes.new }
    ensures number { number_of passes.new ≡ number_of passes.old }
    ensures free { AttachedBy passes.new None }
    ensures began { (pasts : List Calls) → AllBegin (seen_of passes.old) pasts → AllBegin (seen_of passes.new) pasts }
{
    let seed = seed_for(seed);
    let reply = desks[0].call(rt, &mut passes[0], RoomCall::Create { game, seats, seed });
    is_made(reply)
}

/// Whether there was memory.
fn is_made(reply: RoomReply) -> bool
    ensures { result ≡ not (is_starved reply) }
{
    match reply {
        RoomReply::NoMemory => false,
        reply => {
            drop(reply);
            true
        }
    }
}

/// Makes the match at which bots are to sit, if there is to be one, by the first place's pass. False where there was no memory for it.
pub(crate) fn open_match<B: HostedRoom<AnyGame>, R: Wait>(
    rt: &R,
    desks: &[Desk<B>],
    rows: &mut Vec<Vec<Pass<B>>>,
    table: Option<(AnyGame, u8)>,
    seed: [u8; 32],
) -> bool
    requires some { (0 < length desks.now) × (0 < vec_len rows.old) }
    requires belong { All (λ p. Belong desks.now (number_of p.items) p.items) rows.old.items }
    requires free { All (λ p. AttachedBy p.items None) rows.old.items }
    ensures many { vec_len rows.new ≡ vec_len rows.old }
    ensures belong { All (λ p. Belong desks.now (number_of p.items) p.items) rows.new.items }
    ensures free { All (λ p. AttachedBy p.items None) rows.new.items }
    ensures within { (places : ℕ) → All (λ p. number_of p.items < places) rows.old.items → All (λ p. number_of p.items < places) rows.new.items }
    ensures began { (pasts : List Calls) → All (λ p. AllBegin (seen_of p.items) pasts) rows.old.items → All (λ p. AllBegin (seen_of p.items) pasts) rows.new.items }
{
    let Some((game, seats)) = table else {
        return true;
    };
    make_match(rt, desks, rows[0].as_mut_slice(), game, seats, seed)
}
