//! A takeover of a bot's seat.

ghost use Rattle.std.specs.Prelude.{◌≡◌, IsSome, None};
ghost use Rattle.game_hall.specs.Bench.{wanted};
ghost use Rattle.bench_wishes.specs.declared.call.WishCall.TheVariants as call;
ghost use Rattle.bench_wishes.specs.declared.call.WishReply.{WishReply as Told};
ghost use Rattle.session_bench.specs.Wishing.{Asks, Sought, is_asked};

use crate::asking::ask;
use bench_wishes::{WishCall, WishReply, Wishes};
use game_hall::SessionCore;
use game_sheet::{MatchName, Seat};
use room_desk::{Desk, Pass};
use std::sync::Wait;

/// Puts a takeover that waits to the bench, and gives the core its answer. It gives the room of the match whose bot was asked to leave, for whoever
/// wakes that bot; none where no bot was.
pub fn seek<R: Wait>(
    rt: &R,
    bench: &Desk<Wishes>,
    pass: &mut Pass<Wishes>,
    core: &mut SessionCore,
) -> Option<u8>
    requires own { pass.old.desk ≡ bench.now.desk }
    requires quiet { IsSome (wanted core.old.bench) → core.old.said ≡ None }
    ensures desk { pass.new.desk ≡ pass.old.desk }
    ensures number { pass.new.number ≡ pass.old.number }
    ensures sought { Sought (wanted core.old.bench) core.old pass.old core.new pass.new }
{
    let Some((name, seat)) = core.wants_bot() else {
        return None;
    };
    let held = is_held(rt, bench, pass, name, seat);
    let Ok(()) = core.bot_answer(held) else {
        unreachable!();
    };
    if held { Some(name.room()) } else { None }
}

/// Whether a bot has the seat; it is asked to leave then.
fn is_held<R: Wait>(
    rt: &R,
    bench: &Desk<Wishes>,
    pass: &mut Pass<Wishes>,
    name: MatchName,
    seat: Seat,
) -> bool
    requires own { pass.old.desk ≡ bench.now.desk }
    ensures desk { pass.new.desk ≡ pass.old.desk }
    ensures number { pass.new.number ≡ pass.old.number }
    ensures asks { (told : Told) × Asks pass.old (call.Ask name seat) told pass.new × (result ≡ is_asked told) }
{
    match ask(rt, bench, pass, WishCall::Ask { name, seat }) {
        WishReply::Asked => true,
        _ => false,
    }
}
