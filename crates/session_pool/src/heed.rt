//! A session's line, and the calls that its request makes in rooms.

ghost use Rattle.std.specs.Prelude.{◌≡◌, IfOk, IsSome, length};
ghost use Rattle.session_pool.specs.Passes.{Belong};
ghost use Rattle.session_pool.specs.Placed.{AttachedBy, IsDone, IsIdle};
ghost use Rattle.session_driver.specs.Bench.{TurnsToBench};
ghost use Rattle.session_driver.specs.Hearing.{side};
ghost use Rattle.session_pool.specs.Turn.{Heeds};

use crate::desks::Desks;
use any_game::AnyGame;
use dice_words::Tape;
use game_hall::SessionCore;
use game_sheet::{Bytes, NoMemory};
use hosted_room::HostedRoom;
use room_desk::{Desk, Pass};
use session_driver::hear;
use std::alloc::Global;
use std::sync::Wait;

/// Hears a line that stands in one piece.
fn hear_bytes<B: HostedRoom<AnyGame>, R: Wait>(
    alloc: Global,
    rooms: &mut Desks<'_, B, R>,
    words: &mut Tape,
    core: &mut SessionCore,
    line: &[u8],
)
    requires belong { Belong rooms.old.desks.now core.old.pass rooms.old.passes.now }
    requires idle { IsIdle (length rooms.old.desks.now) core.old }
    requires live { IsSome words.old.source }
    ensures same_passes { rooms.new.passes.ghost_name ≡ rooms.old.passes.ghost_name }
    ensures belong { Belong rooms.old.desks.now core.new.pass rooms.new.passes.now }
    ensures turns { TurnsToBench core.old core.new }
    ensures sat { core.new.sat ≡ core.old.sat }
    ensures same_source { words.new.source ≡ words.old.source }
    ensures heeds { Heeds B.may_starve line.now (side rooms.old.passes.now core.old) words.old (side rooms.new.passes.now core.new) words.new }
{
    let mut seed = None;
    let _tally = hear(alloc, rooms, core, words, &mut seed, line);
}

/// The bytes of a line in one piece.
fn gathered(alloc: Global, line: &Bytes) -> Result<Vec<u8>, NoMemory>
    ensures { IfOk result (λ bytes. bytes.items ≡ line.now) }
{
    let mut bytes = Vec::new(alloc);
    for place in 0..line.count() {
        bytes.extend_from_slice(line.piece(place))?;
    }
    Ok(bytes)
}

/// Hears a line that a link answered. Where there is no memory to bring its pieces together, the core says so.
fn hear_line<B: HostedRoom<AnyGame>, R: Wait>(
    alloc: Global,
    rooms: &mut Desks<'_, B, R>,
    words: &mut Tape,
    core: &mut SessionCore,
    line: &Bytes,
)
    requires belong { Belong rooms.old.desks.now core.old.pass rooms.old.passes.now }
    requires idle { IsIdle (length rooms.old.desks.now) core.old }
    requires live { IsSome words.old.source }
    ensures same_passes { rooms.new.passes.ghost_name ≡ rooms.old.passes.ghost_name }
    ensures belong { Belong rooms.old.desks.now core.new.pass rooms.new.passes.now }
    ensures turns { TurnsToBench core.old core.new }
    ensures sat { core.new.sat ≡ core.old.sat }
    ensures same_source { words.new.source ≡ words.old.source }
    ensures heeds { Heeds B.may_starve line.now (side rooms.old.passes.now core.old) words.old (side rooms.new.passes.now core.new) words.new }
{
    if let Some(bytes) = line.whole() {
        hear_bytes(alloc, rooms, words, core, bytes);
        return;
    }
    match gathered(alloc, line) {
        Ok(bytes) => {
            hear_bytes(alloc, rooms, words, core, bytes.as_slice());
            drop(bytes);
        }
        Err(NoMemory) => {
            words.begin();
            core.starve();
        }
    }
}

/// Hears a line that a link answered, over these desks.
fn heed_there<B: HostedRoom<AnyGame>, R: Wait>(
    alloc: Global,
    rooms: &mut Desks<'_, B, R>,
    words: &mut Tape,
    core: &mut SessionCore,
    line: &Bytes,
)
    requires belong { Belong rooms.old.desks.now core.old.pass rooms.old.passes.now }
    requires idle { IsIdle (length rooms.old.desks.now) core.old }
    requires attached { AttachedBy rooms.old.passes.now core.old.at }
    requires live { IsSome words.old.source }
    ensures same_passes { rooms.new.passes.ghost_name ≡ rooms.old.passes.ghost_name }
    ensures belong { Belong rooms.old.desks.now core.new.pass rooms.new.passes.now }
    ensures done { IsDone (length rooms.old.desks.now) core.new }
    ensures attached { AttachedBy rooms.new.passes.now core.new.at }
    ensures pass { core.new.pass ≡ core.old.pass }
    ensures turns { TurnsToBench core.old core.new }
    ensures sat { core.new.sat ≡ core.old.sat }
    ensures same_source { words.new.source ≡ words.old.source }
    ensures heeds { Heeds B.may_starve line.now (side rooms.old.passes.now core.old) words.old (side rooms.new.passes.now core.new) words.new }
{
    hear_line(alloc, rooms, words, core, line);
}

/// Hears a line and makes the calls of its request. The words that it drew are given back where it is answered `again`. Returns the rooms that
/// the calls may have changed, one bit each.
pub(crate) fn heed<B: HostedRoom<AnyGame>, R: Wait>(
    rt: &R,
    alloc: Global,
    desks: &[Desk<B>],
    passes: &mut [Pass<B>],
    words: &mut Tape,
    core: &mut SessionCore,
    line: &Bytes,
) -> u64
    requires belong { Belong desks.now core.old.pass passes.old }
    requires idle { IsIdle (length desks.now) core.old }
    requires attached { AttachedBy passes.old core.old.at }
    requires live { IsSome words.old.source }
    ensures belong { Belong desks.now core.new.pass passes.new }
    ensures done { IsDone (length desks.now) core.new }
    ensures attached { AttachedBy passes.new core.new.at }
    ensures pass { core.new.pass ≡ core.old.pass }
    ensures turns { TurnsToBench core.old core.new }
    ensures sat { core.new.sat ≡ core.old.sat }
    ensures same_source { words.new.source ≡ words.old.source }
    ensures heeds { Heeds B.may_starve line.now (side passes.old core.old) words.old (side passes.new core.new) words.new }
{
    let mut rooms = Desks {
        rt,
        desks,
        passes,
        changed: 0,
    };
    heed_there(alloc, &mut rooms, words, core, line);
    rooms.changed
}
