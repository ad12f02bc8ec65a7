//! One turn of a session.

ghost use Rattle.std.specs.Prelude.{◌≡◌, ◌≤◌, ◌⊎◌, ℕ, IsSome, None, Option, is_some, length};
ghost use Rattle.board_links.specs.Pieces.{told_bytes};
ghost use Rattle.link_rounds.specs.Ends.{ByeSent, ShowsEnd};
ghost use Rattle.link_rounds.specs.Turns.{told_answers};
ghost use Rattle.session_pool.specs.Passes.{Belong};
ghost use Rattle.session_pool.specs.Placed.{AttachedBy, IsDone, IsIdle};
ghost use Rattle.game_sheet.specs.MatchName.{Name};
ghost use Rattle.session_bench.specs.Wishing.{Readies, Seen, Sought};
ghost use Rattle.session_driver.specs.Bench.{IsAtRest, Seeks};
ghost use Rattle.game_hall.specs.Bench.{wanted};
ghost use Rattle.session_pool.specs.Turn.{AsksOnce, GoesOn, Turn, stand};
ghost use Rattle.session_pool.specs.Watched.{AllBegin, seen_of};

use crate::heed::heed;
use crate::take::speak;
use any_game::AnyGame;
use bench_wishes::Wishes;
use board_links::{Came, Link, SessionEnd};
use dice_words::Tape;
use game_hall::SessionCore;
use hosted_room::HostedRoom;
use link_rounds::Stir;
use room_desk::{Desk, Pass};
use session_bench::{ready, seek};
use std::alloc::Global;
use std::sync::Wait;

/// One turn of a session. A bot whose seat the link tells sits down at the bench, if it hasn't yet, and is asked to leave where somebody wants its
/// seat. Then the link is asked for a line; the calls of its request are made, a takeover is put to the bench, the direct answer is sent, and then,
/// if the session is attached, what waits for it in its room. Some where the turn ended the session.
///
/// The passes are one for each desk, in the order of the desks, with the core's number, and the session is attached where its core is. The bench's
/// pass is one of that desk. The tape is a live one. An answer other than a line or silence ends the session with nothing taken, and so does a send
/// that isn't done; an end that is handed out ends it with its bye line.
pub fn serve_turn<B: HostedRoom<AnyGame>, L: Link, R: Wait>(
    rt: &R,
    alloc: Global,
    desks: &[Desk<B>],
    passes: &mut [Pass<B>],
    bench: &Desk<Wishes>,
    bench_pass: &mut Pass<Wishes>,
    link: &mut L,
    words: &mut Tape,
    core: &mut SessionCore,
) -> Option<SessionEnd>
    requires belong { Belong desks.now core.old.pass passes.old }
    requires idle { IsIdle (length desks.now) core.old }
    requires attached { AttachedBy passes.old core.old.at }
    requires live { IsSome words.old.source }
    requires at_bench { bench_pass.old.desk ≡ bench.now.desk }
    ensures belong { Belong desks.now core.new.pass passes.new }
    ensures idle { IsIdle (length desks.now) core.new }
    ensures attached { AttachedBy passes.new core.new.at }
    ensures pass { core.new.pass ≡ core.old.pass }
    ensures same_source { words.new.source ≡ words.old.source }
    ensures at_bench { bench_pass.new.desk ≡ bench_pass.old.desk }
    ensures never_falls { L.faults link.old ≤ L.faults link.new }
    ensures shows { ShowsEnd (L.faults link.old) (L.faults link.new) (L.stage link.new) result }
    ensures bye { ByeSent result (L.sent link.new) }
    ensures tells_answers { is_some (L.answers link.new) ≡ is_some (L.answers link.old) }
    ensures tells_sent { is_some (L.sent link.new) ≡ is_some (L.sent link.old) }
    ensures is_bot { L.is_bot link.new ≡ L.is_bot link.old }
    ensures benched { (p : Seen) × Readies (L.bot_seat link.old) bench_pass.old core.old.sat (L.asked_out link.old) p core.new.sat (L.asked_out link.new)
        × AsksOnce p bench_pass.new }
    ensures turn { IsSome (L.answers link.old) → IsSome (L.sent link.old)
        → Turn B.may_starve (stand passes.old core.old words.old bench_pass.old None) (told_answers (L.answers link.old)) (told_bytes (L.sent link.old)) result
        (stand passes.new core.new words.new bench_pass.new (L.bot_seat link.old)) (L.answers link.new) (L.sent link.new) }
{
    let mut stir = Stir {
        at: None,
        changed: 0,
        more: false,
    };
    take_turn(
        rt, alloc, desks, passes, bench, bench_pass, link, words, core, &mut stir,
    )
}

/// One turn of a session, which notes whether a line came, and the rooms that its calls may have changed.
pub(crate) fn take_turn<B: HostedRoom<AnyGame>, L: Link, R: Wait>(
    rt: &R,
    alloc: Global,
    desks: &[Desk<B>],
    passes: &mut [Pass<B>],
    bench: &Desk<Wishes>,
    bench_pass: &mut Pass<Wishes>,
    link: &mut L,
    words: &mut Tape,
    core: &mut SessionCore,
    stir: &mut Stir,
) -> Option<SessionEnd>
    requires belong { Belong desks.now core.old.pass passes.old }
    requires idle { IsIdle (length desks.now) core.old }
    requires attached { AttachedBy passes.old core.old.at }
    requires live { IsSome words.old.source }
    requires at_bench { bench_pass.old.desk ≡ bench.now.desk }
    ensures belong { Belong desks.now core.new.pass passes.new }
    ensures idle { IsIdle (length desks.now) core.new }
    ensures attached { AttachedBy passes.new core.new.at }
    ensures pass { core.new.pass ≡ core.old.pass }
    ensures goes_on { AllBegin (seen_of passes.new) (seen_of passes.old) }
    ensures same_source { words.new.source ≡ words.old.source }
    ensures at_bench { bench_pass.new.desk ≡ bench_pass.old.desk }
    ensures never_falls { L.faults link.old ≤ L.faults link.new }
    ensures shows { ShowsEnd (L.faults link.old) (L.faults link.new) (L.stage link.new) result }
    ensures bye { ByeSent result (L.sent link.new) }
    ensures tells_answers { is_some (L.answers link.new) ≡ is_some (L.answers link.old) }
    ensures tells_sent { is_some (L.sent link.new) ≡ is_some (L.sent link.old) }
    ensures is_bot { L.is_bot link.new ≡ L.is_bot link.old }
    ensures benched { (p : Seen) × Readies (L.bot_seat link.old) bench_pass.old core.old.sat (L.asked_out link.old) p core.new.sat (L.asked_out link.new)
        × AsksOnce p bench_pass.new }
    ensures turn { IsSome (L.answers link.old) → IsSome (L.sent link.old)
        → Turn B.may_starve (stand passes.old core.old words.old bench_pass.old None) (told_answers (L.answers link.old)) (told_bytes (L.sent link.old)) result
        (stand passes.new core.new words.new bench_pass.new (L.bot_seat link.old)) (L.answers link.new) (L.sent link.new) }
{
    ready(rt, bench, bench_pass, link, core);
    go_on(
        rt, alloc, desks, passes, bench, bench_pass, link, words, core, stir,
    )
}

/// The turn of a session whose bot, if it has one, got ready.
fn go_on<B: HostedRoom<AnyGame>, L: Link, R: Wait>(
    rt: &R,
    alloc: Global,
    desks: &[Desk<B>],
    passes: &mut [Pass<B>],
    bench: &Desk<Wishes>,
    bench_pass: &mut Pass<Wishes>,
    link: &mut L,
    words: &mut Tape,
    core: &mut SessionCore,
    stir: &mut Stir,
) -> Option<SessionEnd>
    requires belong { Belong desks.now core.old.pass passes.old }
    requires idle { IsIdle (length desks.now) core.old }
    requires attached { AttachedBy passes.old core.old.at }
    requires live { IsSome words.old.source }
    requires at_bench { bench_pass.old.desk ≡ bench.now.desk }
    ensures belong { Belong desks.now core.new.pass passes.new }
    ensures idle { IsIdle (length desks.now) core.new }
    ensures attached { AttachedBy passes.new core.new.at }
    ensures pass { core.new.pass ≡ core.old.pass }
    ensures goes_on { AllBegin (seen_of passes.new) (seen_of passes.old) }
    ensures same_source { words.new.source ≡ words.old.source }
    ensures at_bench { bench_pass.new.desk ≡ bench_pass.old.desk }
    ensures never_falls { L.faults link.old ≤ L.faults link.new }
    ensures shows { ShowsEnd (L.faults link.old) (L.faults link.new) (L.stage link.new) result }
    ensures bye { ByeSent result (L.sent link.new) }
    ensures tells_answers { is_some (L.answers link.new) ≡ is_some (L.answers link.old) }
    ensures tells_sent { is_some (L.sent link.new) ≡ is_some (L.sent link.old) }
    ensures is_bot { L.is_bot link.new ≡ L.is_bot link.old }
    ensures asked_out { L.asked_out link.new ≡ L.asked_out link.old }
    ensures sat { core.new.sat ≡ core.old.sat }
    ensures asks { AsksOnce bench_pass.old bench_pass.new }
    ensures goes { (seat : Option (Name × ℕ)) → IsSome (L.answers link.old) → IsSome (L.sent link.old)
        → GoesOn B.may_starve (stand passes.old core.old words.old bench_pass.old seat) (told_answers (L.answers link.old)) (told_bytes (L.sent link.old)) result
        (stand passes.new core.new words.new bench_pass.new seat) (L.answers link.new) (L.sent link.new) }
{
    match link.receive(rt) {
        Came::Line(line) => {
            stir.more = true;
            stir.changed |= heed(rt, alloc, desks, passes, words, core, &line);
            drop(line);
            stir.changed |= put_to_bench(rt, desks, bench, bench_pass, core);
            speak(rt, desks, passes, link, core)
        }
        Came::Quiet => speak(rt, desks, passes, link, core),
        Came::Ended => Some(SessionEnd::Ended),
        Came::TooLong => Some(SessionEnd::TooLong),
        Came::Failed => Some(SessionEnd::LinkFault),
        Came::NoMemory => Some(SessionEnd::NoMemory),
    }
}

/// Puts a takeover that waits to the bench. Returns the room of a bot that was asked to leave, as one bit, since its session has a turn to take then.
fn put_to_bench<B: HostedRoom<AnyGame>, R: Wait>(
    rt: &R,
    _desks: &[Desk<B>],
    bench: &Desk<Wishes>,
    bench_pass: &mut Pass<Wishes>,
    core: &mut SessionCore,
) -> u64
    requires at_bench { bench_pass.old.desk ≡ bench.now.desk }
    requires done { IsDone (length _desks.now) core.old }
    requires turns { IsAtRest core.old.bench ⊎ Seeks core.old }
    ensures at_bench { bench_pass.new.desk ≡ bench_pass.old.desk }
    ensures done { IsDone (length _desks.now) core.new }
    ensures rests { IsAtRest core.new.bench }
    ensures at { core.new.at ≡ core.old.at }
    ensures pass { core.new.pass ≡ core.old.pass }
    ensures sat { core.new.sat ≡ core.old.sat }
    ensures asks { AsksOnce bench_pass.old bench_pass.new }
    ensures sought { Sought (wanted core.old.bench) core.old bench_pass.old core.new bench_pass.new }
{
    match seek(rt, bench, bench_pass, core) {
        Some(room) => 1u64.checked_shl(u32::from(room)).unwrap_or(0),
        None => 0,
    }
}
