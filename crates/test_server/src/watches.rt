//! A watch for a server, of passes that no place has.

ghost use Rattle.std.specs.Prelude.{◌≡◌, ◌+◌, ◌<◌, List, All, None, length, map, vec_len};
ghost use Rattle.session_pool.specs.Passes.{Belong, number_of, unseen};
ghost use Rattle.session_pool.specs.Placed.{AttachedBy};
ghost use Rattle.session_pool.specs.Rooms.{rows_from};
ghost use Rattle.session_pool.specs.Watched.{AllBegin, History, seen_of};

use any_game::AnyGame;
use hosted_room::HostedRoom;
use room_desk::{Desk, Pass};

/// Takes the row of the last number, for a watch, off the rows of so many places and one more.
pub fn take_watch<B: HostedRoom<AnyGame>>(
    desks: &Vec<Desk<B>>,
    mut rows: Vec<Vec<Pass<B>>>,
    places: u32,
) -> (Vec<Vec<Pass<B>>>, Vec<Pass<B>>)
    requires some { 0 < length desks.now.items }
    requires rows { map (λ v. map unseen v.items) rows.items ≡ rows_from desks.now.items 0 (places + 1) }
    requires free { All (λ p. AttachedBy p.items None) rows.items }
    requires seen { (pasts : List History) × All (λ p. seen_of p.items ≡ pasts) rows.items }
    ensures many { vec_len result.0 ≡ places }
    ensures belong { All (λ p. Belong desks.now.items (number_of p.items) p.items) result.0.items }
    ensures free { All (λ p. AttachedBy p.items None) result.0.items }
    ensures within { All (λ p. number_of p.items < places) result.0.items }
    ensures began { All (λ p. AllBegin (seen_of p.items) (seen_of result.1.items)) result.0.items }
    ensures watch { map (λ p. p.desk) result.1.items ≡ map (λ d. d.desk) desks.now.items }
{
    let Some(watch) = rows.pop() else {
        unreachable!()
    };
    (rows, watch)
}
