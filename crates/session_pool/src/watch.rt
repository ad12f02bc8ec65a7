//! A watch: one pass more of each room, which is shown what the passes of others have seen.

ghost use Rattle.std.specs.Prelude.{◌≡◌, List, Some, map, vec_capacity, vec_len, [], ◌≤◌};
ghost use Rattle.room_desk.specs.History.{DeskId};
ghost use Rattle.session_pool.specs.Passes.{Pass as Seeing};
ghost use Rattle.session_pool.specs.Watched.{AllKnow, Knows, desk_at};

use any_game::AnyGame;
use hosted_room::HostedRoom;
use room_desk::{Desk, Pass};

/// Shows the pass of a watch what another pass of its room has seen.
fn show_at<B: HostedRoom<AnyGame>>(desk: &Desk<B>, pass: &mut Pass<B>, watch: &mut Option<Pass<B>>)
    requires pass { pass.old.desk ≡ desk.now.desk }
    requires watch { desk_at watch.old ≡ Some desk.now.desk }
    ensures same { pass.new ≡ pass.old }
    ensures desk { desk_at watch.new ≡ desk_at watch.old }
    ensures shown { Knows watch.new pass.old }
    ensures keeps { (p : Seeing) → Knows watch.old p → Knows watch.new p }
{
    if let Some(witness) = watch.take() {
        *watch = Some(desk.show(pass, witness));
    }
}

/// Shows a watch what these passes have seen, one of each room.
pub(crate) fn show_all<B: HostedRoom<AnyGame>>(
    desks: &[Desk<B>],
    passes: &mut [Pass<B>],
    watch: &mut [Option<Pass<B>>],
)
    requires passes { map (λ p. p.desk) passes.old ≡ map (λ d. d.desk) desks.now }
    requires watch { map desk_at watch.old ≡ map (λ d. Some d.desk) desks.now }
    ensures same { passes.new ≡ passes.old }
    ensures desks { map desk_at watch.new ≡ map desk_at watch.old }
    ensures shown { AllKnow watch.new passes.old }
    ensures keeps { (more : List Seeing) → AllKnow watch.old more → AllKnow watch.new more }
{
    for room in 0..desks.len() {
        show_at(&desks[room], &mut passes[room], &mut watch[room]);
    }
}

/// The passes of a watch, for the time that links are served.
pub(crate) fn set_out<B: HostedRoom<AnyGame>>(
    passes: Vec<Pass<B>>,
    watch: &mut Vec<Option<Pass<B>>>,
)
    requires room { vec_len passes ≤ vec_capacity watch.old }
    requires empty { watch.old.items ≡ [] }
    ensures { watch.new.items ≡ map Some passes.items }
{
    for pass in passes {
        watch.push_reserved(Some(pass));
    }
}

/// The passes of a watch, once links are served.
pub(crate) fn take_back<B: HostedRoom<AnyGame>>(
    watch: Vec<Option<Pass<B>>>,
    passes: &mut Vec<Pass<B>>,
)
    requires room { vec_len watch ≤ vec_capacity passes.old }
    requires empty { passes.old.items ≡ [] }
    requires there { (desks : List DeskId) × (map desk_at watch.items ≡ map Some desks) }
    ensures { map Some passes.new.items ≡ watch.items }
{
    for at in watch {
        let Some(pass) = at else { unreachable!() };
        passes.push_reserved(pass);
    }
}
