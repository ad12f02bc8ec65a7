//! Rooms with their gauges, and a keeper that looks at these.

ghost use Rattle.std.specs.Prelude.{◌≡◌, IfOk, map};

use crate::gauge::Gauge;
use crate::gauged_room::GaugedRoom;
use crate::hall::HallKeeper;
use crate::outside::Outside;
use game_sheet::NoMemory;
use game_trait::Game;
use hosted_room::HostedRoom;
use std::alloc::Global;
use std::sync::Arc;

/// How many seconds a minute has.
const MINUTE: u64 = 60;

/// Rooms in which no session is attached, each with a gauge; and a keeper that has their matches cleared, each once nobody was attached for so many
/// minutes, or none where they are 0, and that answers who asks from outside. There is none where it would have nothing to do.
pub fn watch_rooms<X: Game + Drop, B: HostedRoom<X>, C: Outside>(
    alloc: Global,
    rooms: Vec<B>,
    minutes: u32,
    outside: C,
) -> Result<(Vec<GaugedRoom<X, B>>, Option<HallKeeper<C>>), NoMemory>
    ensures { IfOk result (λ r. map (λ g. g.room) r.0.items ≡ rooms.items) }
{
    let (gauged, gauges) = gauge_rooms(alloc, rooms)?;
    if minutes == 0 && !outside.is_watched() {
        drop(gauges);
        drop(outside);
        return Ok((gauged, None));
    }
    let limit = if minutes > 0 {
        Some(u64::from(minutes) * MINUTE)
    } else {
        None
    };
    let keeper = HallKeeper::new(alloc, gauges, limit, outside)?;
    Ok((gauged, Some(keeper)))
}

/// The rooms, each with a gauge, and the gauges in their order.
fn gauge_rooms<X: Game + Drop, B: HostedRoom<X>>(
    alloc: Global,
    rooms: Vec<B>,
) -> Result<(Vec<GaugedRoom<X, B>>, Vec<Arc<Gauge, Global>>), NoMemory>
    ensures { IfOk result (λ r. map (λ g. g.room) r.0.items ≡ rooms.items) }
{
    let mut gauged = Vec::with_capacity(alloc, rooms.len())?;
    let mut gauges = Vec::with_capacity(alloc, rooms.len())?;
    for room in rooms {
        let gauge = Arc::new(alloc, Gauge::new())?;
        gauges.push_reserved(gauge.clone()?);
        gauged.push_reserved(GaugedRoom::new(room, gauge));
    }
    Ok((gauged, gauges))
}
