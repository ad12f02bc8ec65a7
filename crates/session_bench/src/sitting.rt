//! A session whose link is a bot's.

ghost use Rattle.std.specs.Prelude.{◌≡◌};
ghost use Rattle.bench_wishes.specs.declared.call.WishCall.TheVariants as call;
ghost use Rattle.bench_wishes.specs.declared.call.WishReply.{WishReply as Told};
ghost use Rattle.session_bench.specs.Wishing.{Asks, Readies, Rises, SitsDown, is_yes};

use crate::asking::ask;
use bench_wishes::{WishCall, WishReply, Wishes};
use board_links::Link;
use game_hall::SessionCore;
use game_sheet::{MatchName, Seat};
use room_desk::{Desk, Pass};
use std::sync::Wait;

/// What comes before a turn's receive. A bot that has its seat sits down, once there is memory for it, and then is asked to leave where somebody
/// wants the seat. A link that tells no bot's seat is left alone.
pub fn ready<L: Link, R: Wait>(
    rt: &R,
    bench: &Desk<Wishes>,
    pass: &mut Pass<Wishes>,
    link: &mut L,
    core: &mut SessionCore,
)
    requires own { pass.old.desk ≡ bench.now.desk }
    ensures desk { pass.new.desk ≡ pass.old.desk }
    ensures number { pass.new.number ≡ pass.old.number }
    ensures faults { L.faults link.new ≡ L.faults link.old }
    ensures stage { L.stage link.new ≡ L.stage link.old }
    ensures answers { L.answers link.new ≡ L.answers link.old }
    ensures sent { L.sent link.new ≡ L.sent link.old }
    ensures is_bot { L.is_bot link.new ≡ L.is_bot link.old }
    ensures core { core.new ≡ record core.old { sat = core.new.sat } }
    ensures readies { Readies (L.bot_seat link.old) pass.old core.old.sat (L.asked_out link.old) pass.new core.new.sat (L.asked_out link.new) }
{
    let Some((name, seat)) = link.bot_seat() else {
        return;
    };
    sit_down(rt, bench, pass, core, name, seat);
    if core.has_sat() && is_wanted(rt, bench, pass, name, seat) {
        link.ask_out();
    }
}

/// Tells the bench that the session's bot has a seat, unless it was told before.
fn sit_down<R: Wait>(
    rt: &R,
    bench: &Desk<Wishes>,
    pass: &mut Pass<Wishes>,
    core: &mut SessionCore,
    name: MatchName,
    seat: Seat,
)
    requires own { pass.old.desk ≡ bench.now.desk }
    ensures desk { pass.new.desk ≡ pass.old.desk }
    ensures number { pass.new.number ≡ pass.old.number }
    ensures core { core.new ≡ record core.old { sat = core.new.sat } }
    ensures sits { SitsDown core.old.sat (name, seat) pass.old pass.new core.new.sat }
{
    if core.has_sat() {
        return;
    }
    match ask(rt, bench, pass, WishCall::Sit { name, seat }) {
        WishReply::Sat => core.sat(),
        _ => {}
    }
}

/// Whether somebody wants the seat.
fn is_wanted<R: Wait>(
    rt: &R,
    bench: &Desk<Wishes>,
    pass: &mut Pass<Wishes>,
    name: MatchName,
    seat: Seat,
) -> bool
    requires own { pass.old.desk ≡ bench.now.desk }
    ensures desk { pass.new.desk ≡ pass.old.desk }
    ensures number { pass.new.number ≡ pass.old.number }
    ensures asks { (told : Told) × Asks pass.old (call.Wished name seat) told pass.new × (result ≡ is_yes told) }
{
    match ask(rt, bench, pass, WishCall::Wished { name, seat }) {
        WishReply::Yes => true,
        _ => false,
    }
}

/// The end of a session: its bot, if it sat down, has no seat any more.
pub fn rise<R: Wait>(
    rt: &R,
    bench: &Desk<Wishes>,
    pass: &mut Pass<Wishes>,
    seat: Option<(MatchName, Seat)>,
    sat: bool,
)
    requires own { pass.old.desk ≡ bench.now.desk }
    ensures desk { pass.new.desk ≡ pass.old.desk }
    ensures number { pass.new.number ≡ pass.old.number }
    ensures rises { Rises sat seat pass.old pass.new }
{
    if !sat {
        return;
    }
    let Some((name, seat)) = seat else {
        return;
    };
    let _risen = ask(rt, bench, pass, WishCall::Rise { name, seat });
}
