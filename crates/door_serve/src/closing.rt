//! Closes the desks of all rooms, once their passes came back.

ghost use Rattle.std.specs.Prelude.{◌≡◌, ◌≤◌, ◌+◌, ◌++◌, ◌∷◌, List, [], All, length, map, replicate, vec_capacity, vec_len};
ghost use Rattle.room_desk.specs.History.{Begins};
ghost use Rattle.session_pool.specs.Watched.{AllBegin, seen_of};
ghost use Rattle.door_serve.specs.Rooms.{Calls, LoseLast, Stand, desks_of};

use any_game::AnyGame;
use hosted_room::HostedRoom;
use room_desk::{Desk, Pass};

/// Takes the last pass of each place.
fn take_last<B: HostedRoom<AnyGame>>(
    desks: &[Desk<B>],
    desk: &Desk<B>,
    rows: &mut [Vec<Pass<B>>],
    passes: &mut Vec<Pass<B>>,
)
    requires room { vec_len passes.old + length rows.old ≤ vec_capacity passes.old }
    requires none { passes.old.items ≡ [] }
    requires rows { All (λ r. desks_of r.items ≡ map (λ d. d.desk) desks.now ++ desk.now.desk ∷ []) rows.old }
    ensures many { length rows.new ≡ length rows.old }
    ensures rows { All (λ r. desks_of r.items ≡ map (λ d. d.desk) desks.now) rows.new }
    ensures passes { desks_of passes.new.items ≡ replicate (length rows.old) desk.now.desk }
    ensures taken { LoseLast (λ r. r.items) rows.old rows.new passes.new.items }
{
    for place in 0..rows.len() {
        let Some(pass) = rows[place].pop() else {
            unreachable!()
        };
        passes.push_reserved(pass);
    }
}

/// Closes a desk to which all passes came back. The room stands for one history, of which they had seen beginnings.
fn close<B: HostedRoom<AnyGame>>(desk: Desk<B>, passes: Vec<Pass<B>>) -> B
    requires { desks_of passes.items ≡ replicate desk.passes desk.desk }
    ensures number { B.number result ≡ desk.desk.object }
    ensures stands { (h : Calls) × B.stands_for result h × All (λ p. Begins h p.seen) passes.items }
{
    match desk.close(passes) {
        Ok(room) => room,
        Err(_) => unreachable!(),
    }
}

/// Closes all desks, and adds their rooms in the order of the desks: each stands for one history, of which the passes in each row had seen a
/// beginning. It takes no memory.
pub(crate) fn close_all<B: HostedRoom<AnyGame>>(
    desks: &mut Vec<Desk<B>>,
    rows: &mut [Vec<Pass<B>>],
    spare: &mut Vec<Vec<Pass<B>>>,
    rooms: &mut Vec<B>,
)
    requires counts { All (λ d. d.passes ≡ length rows.old) desks.old.items }
    requires rows { All (λ r. desks_of r.items ≡ map (λ d. d.desk) desks.old.items) rows.old }
    requires spare { (vec_len spare.old ≡ vec_len desks.old) × All (λ v. (v.items ≡ []) × (length rows.old ≤ vec_capacity v)) spare.old.items }
    requires room { vec_len rooms.old + vec_len desks.old ≤ vec_capacity rooms.old }
    ensures numbers { map (λ b. B.number b) rooms.new.items ≡ map (λ b. B.number b) rooms.old.items ++ map (λ d. d.desk.object) desks.old.items }
    ensures stand { (before : List Calls) → Stand B.stands_for rooms.old.items before
        → (histories : List Calls) × Stand B.stands_for rooms.new.items (before ++ histories) × All (λ r. AllBegin histories (seen_of r.items)) rows.old }
    ensures room { vec_capacity rooms.new ≡ vec_capacity rooms.old }
{
    let Some(desk) = desks.pop() else {
        return;
    };
    let Some(mut passes) = spare.pop() else {
        unreachable!()
    };
    take_last(desks.as_slice(), &desk, rows, &mut passes);
    close_all(desks, rows, spare, rooms);
    rooms.push_reserved(close(desk, passes));
}
