//! A session on one link, turn by turn.

ghost use Rattle.std.specs.Prelude.{◌≡◌, ◌<◌, ◌≤◌, Some, None, IsSome, length};
ghost use Rattle.board_links.specs.Doors.{Shows};
ghost use Rattle.board_links.specs.Pieces.{told_bytes};
ghost use Rattle.link_rounds.specs.Ends.{ShowsEnd};
ghost use Rattle.link_rounds.specs.Turns.{Session, told_answers};
ghost use Rattle.session_driver.specs.Hearing.{side};
ghost use Rattle.session_pool.specs.Passes.{Belong, number_of};
ghost use Rattle.session_pool.specs.Placed.{AttachedBy, IsIdle};
ghost use Rattle.session_pool.specs.Sittings.{Detaches, Leaves, begins};
ghost use Rattle.session_pool.specs.Turn.{Turn};

use crate::desks::Desks;
use crate::turn::serve_turn;
use any_game::AnyGame;
use bench_wishes::Wishes;
use board_links::{Link, SessionEnd};
use dice_words::Tape;
use game_hall::SessionCore;
use hosted_room::HostedRoom;
use room_desk::{Desk, Pass};
use room_history::RoomReply;
use session_bench::rise;
use session_driver::detach as detach_session;
use std::alloc::Global;
use std::sync::Wait;

/// Ends the session's attachment, over these desks.
fn detach_there<B: HostedRoom<AnyGame>, R: Wait>(
    rooms: &mut Desks<'_, B, R>,
    core: &mut SessionCore,
) -> Option<RoomReply>
    requires belong { Belong rooms.old.desks.now core.old.pass rooms.old.passes.now }
    requires idle { IsIdle (length rooms.old.desks.now) core.old }
    requires attached { AttachedBy rooms.old.passes.now core.old.at }
    ensures same_passes { rooms.new.passes.ghost_name ≡ rooms.old.passes.ghost_name }
    ensures belong { Belong rooms.old.desks.now core.old.pass rooms.new.passes.now }
    ensures free { AttachedBy rooms.new.passes.now None }
    ensures pass { core.new.pass ≡ core.old.pass }
    ensures sat { core.new.sat ≡ core.old.sat }
    ensures detaches { Detaches B.may_starve (side rooms.old.passes.now core.old) (side rooms.new.passes.now core.new) }
{
    detach_session(rooms, core)
}

/// Detaches the session where it is attached.
pub(crate) fn detach<B: HostedRoom<AnyGame>, R: Wait>(
    rt: &R,
    desks: &[Desk<B>],
    passes: &mut [Pass<B>],
    core: &mut SessionCore,
)
    requires belong { Belong desks.now core.old.pass passes.old }
    requires idle { IsIdle (length desks.now) core.old }
    requires attached { AttachedBy passes.old core.old.at }
    ensures belong { Belong desks.now core.old.pass passes.new }
    ensures free { AttachedBy passes.new None }
    ensures pass { core.new.pass ≡ core.old.pass }
    ensures sat { core.new.sat ≡ core.old.sat }
    ensures detaches { Detaches B.may_starve (side passes.old core.old) (side passes.new core.new) }
{
    let mut rooms = Desks {
        rt,
        desks,
        passes,
        changed: 0,
    };
    let reply = detach_there(&mut rooms, core);
    drop(reply);
}

/// Turn by turn, until one ends the session, a last Detach, and its bot, if it has one, rises from the bench.
fn talk<B: HostedRoom<AnyGame>, L: Link, R: Wait>(
    rt: &R,
    alloc: Global,
    desks: &[Desk<B>],
    passes: &mut [Pass<B>],
    bench: &Desk<Wishes>,
    bench_pass: &mut Pass<Wishes>,
    link: &mut L,
    words: &mut Tape,
) -> SessionEnd
    requires rooms { (0 < length desks.now) × (length desks.now ≤ 64) }
    requires belong { Belong desks.now (number_of passes.old) passes.old }
    requires free { AttachedBy passes.old None }
    requires live { IsSome words.old.source }
    requires at_bench { bench_pass.old.desk ≡ bench.now.desk }
    ensures belong { Belong desks.now (number_of passes.new) passes.new }
    ensures number { number_of passes.new ≡ number_of passes.old }
    ensures free { AttachedBy passes.new None }
    ensures same_source { words.new.source ≡ words.old.source }
    ensures at_bench { bench_pass.new.desk ≡ bench_pass.old.desk }
    ensures never_falls { L.faults link.old ≤ L.faults link.new }
    ensures shows { ShowsEnd (L.faults link.old) (L.faults link.new) (L.stage link.new) (Some result) }
    ensures shown { Shows result (L.stage link.new) (L.faults link.new) (L.sent link.new) }
    ensures is_bot { L.is_bot link.new ≡ L.is_bot link.old }
    ensures session { IsSome (L.answers link.old) → IsSome (L.sent link.old)
        → Session (Turn B.may_starve) (Leaves B.may_starve) (begins (length desks.now) passes.old words.old bench_pass.old) (told_answers (L.answers link.old)) (told_bytes (L.sent link.old)) result
        (begins (length desks.now) passes.new words.new bench_pass.new) (L.answers link.new) (L.sent link.new) }
{
    let mut core = SessionCore::new(passes[0].number(), desks.len() as u8).with_bench();
    for _ in rt.forever() {
        let seat = link.bot_seat();
        if let Some(end) = serve_turn(
            rt, alloc, desks, passes, bench, bench_pass, link, words, &mut core,
        ) {
            detach(rt, desks, passes, &mut core);
            rise(rt, bench, bench_pass, seat, core.has_sat());
            drop(core);
            return end;
        }
    }
    unreachable!()
}

/// Serves a link until its session ends, tells the link how it ended, and says so.
///
/// There are 1 to 64 desks. The passes are one for each desk, in their order, all with one number, and none is attached; so they are
/// afterwards. The bench's pass is one of that desk. The tape is a live one. The session draws its words from it, and takes the seeds of its matches
/// there too.
pub fn serve_link<B: HostedRoom<AnyGame>, L: Link, R: Wait>(
    rt: &R,
    alloc: Global,
    desks: &[Desk<B>],
    passes: &mut [Pass<B>],
    bench: &Desk<Wishes>,
    bench_pass: &mut Pass<Wishes>,
    link: &mut L,
    words: &mut Tape,
) -> SessionEnd
    requires rooms { (0 < length desks.now) × (length desks.now ≤ 64) }
    requires belong { Belong desks.now (number_of passes.old) passes.old }
    requires free { AttachedBy passes.old None }
    requires live { IsSome words.old.source }
    requires at_bench { bench_pass.old.desk ≡ bench.now.desk }
    ensures belong { Belong desks.now (number_of passes.new) passes.new }
    ensures number { number_of passes.new ≡ number_of passes.old }
    ensures free { AttachedBy passes.new None }
    ensures same_source { words.new.source ≡ words.old.source }
    ensures at_bench { bench_pass.new.desk ≡ bench_pass.old.desk }
    ensures never_falls { L.faults link.old ≤ L.faults link.new }
    ensures shows { ShowsEnd (L.faults link.old) (L.faults link.new) (L.stage link.new) (Some result) }
    ensures shown { Shows result (L.stage link.new) (L.faults link.new) (L.sent link.new) }
    ensures finished { L.finished link.new ≡ Some result }
    ensures is_bot { L.is_bot link.new ≡ L.is_bot link.old }
    ensures session { IsSome (L.answers link.old) → IsSome (L.sent link.old)
        → Session (Turn B.may_starve) (Leaves B.may_starve) (begins (length desks.now) passes.old words.old bench_pass.old) (told_answers (L.answers link.old)) (told_bytes (L.sent link.old)) result
        (begins (length desks.now) passes.new words.new bench_pass.new) (L.answers link.new) (L.sent link.new) }
{
    let end = talk(rt, alloc, desks, passes, bench, bench_pass, link, words);
    link.finish(end);
    end
}
