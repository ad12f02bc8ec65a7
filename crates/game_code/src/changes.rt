//! What is done to lists.

ghost use Rattle.std.specs.Prelude.{◌≡◌, ◌-◌, ◌<◌, ◌^◌, OnOk};
ghost use Rattle.dice_words.specs.Strip.{Follows};
ghost use Rattle.game_slots.specs.Tables.{work_begun};
ghost use Rattle.game_code.specs.Meaning.{values_of};
ghost use Rattle.game_code.specs.Runs.{Runs, change_of, changed_at, place_of, shuffled_count, shuffled_down, swapped_at};
ghost use Rattle.game_code.specs.Setting.{setting_of};

use crate::expression::{ItemList, Locals};
use crate::lists::list_length;
use crate::runs::{Play, number_now, value_now};
use crate::scene::{Scene, Sight};
use crate::statement::Edit;
use game_sheet::NoMemory;
use game_slots::{Change, SlotPlace, WorkTable};
use game_trait::HookHalt;
use slot_values::{Number, Value, count_between};

/// Changes a list, of a seat.
pub(crate) fn change(
    list: ItemList,
    seat: Number,
    edit: &Edit,
    scene: &Scene,
    locals: &Locals,
    held: &mut WorkTable,
) -> Result<(), NoMemory>
    ensures { OnOk result (held.new ≡ changed_at (setting_of scene.now) (place_of list seat) (change_of edit.now (setting_of scene.now) (values_of locals.now) held.old) held.old) }
{
    let change = change_of(edit, scene, locals, held);
    change_at(place_of(list, seat), &change, scene, held)
}

/// Where a list stands that can be changed.
fn place_of(list: ItemList, seat: Number) -> Option<SlotPlace>
    ensures { result ≡ place_of list seat }
{
    match list {
        ItemList::Common(slot) => Some(SlotPlace::Common(slot)),
        ItemList::Player(slot) => Some(SlotPlace::Player(seat, slot)),
        ItemList::Secret(slot) => Some(SlotPlace::Secret(slot)),
        ItemList::Work(slot) => Some(SlotPlace::Work(slot)),
        ItemList::Constant(_) => None,
        ItemList::Order => None,
    }
}

/// The change that is meant.
fn change_of(edit: &Edit, scene: &Scene, locals: &Locals, held: &WorkTable) -> Change
    ensures { result ≡ change_of edit.now (setting_of scene.now) (values_of locals.now) held.now }
{
    match edit {
        Edit::Set(at, value) => Change::Set(
            number_now(at, scene, locals, held),
            value_now(value, scene, locals, held),
        ),
        Edit::Push(value) => Change::Push(value_now(value, scene, locals, held)),
        Edit::Remove(at) => Change::Remove(number_now(at, scene, locals, held)),
        Edit::Clear => Change::Clear,
        Edit::Fill(value) => Change::Fill(value_now(value, scene, locals, held)),
    }
}

fn change_at(
    place: Option<SlotPlace>,
    change: &Change,
    scene: &Scene,
    held: &mut WorkTable,
) -> Result<(), NoMemory>
    ensures { OnOk result (held.new ≡ changed_at (setting_of scene.now) place change.now held.old) }
{
    match place {
        Some(place) => held.change(scene.rows, scene.work, place, change),
        None => Ok(()),
    }
}

/// Shuffles a list, of a seat, or as many of its first items as are said.
pub(crate) fn shuffle_list(
    list: ItemList,
    seat: Number,
    most: u16,
    scene: &Scene,
    play: &mut Play,
) -> Result<(), HookHalt>
    ensures deed { Runs result play.new.held play.new.tape.left play.new.events (shuffled_down (swapped_at (setting_of scene.now) (place_of list seat)) (shuffled_count list seat most (setting_of scene.now) play.old.held - 1) play.old.held play.old.tape.left play.old.events) }
    ensures follows { Follows play.old.tape play.new.tape }
{
    let count = shuffled_count(list, seat, most, scene, &play.held);
    shuffle(place_of(list, seat), count, scene, play)
}

fn shuffled_count(list: ItemList, seat: Number, most: u16, scene: &Scene, held: &WorkTable) -> u32
    ensures value { result ≡ shuffled_count list seat most (setting_of scene.now) held.now }
    ensures small { result < 2 ^ 16 }
{
    let sight = Sight {
        scene: &*scene,
        table: &held.table,
        work: held.work.as_slice(),
    };
    count_between(u32::from(most), Some(0), list_length(list, seat, &sight))
}

/// From the last of so many places i down to 1, i changes places with the one at 1 below the face of a die of i + 1 faces.
fn shuffle(
    place: Option<SlotPlace>,
    count: u32,
    scene: &Scene,
    play: &mut Play,
) -> Result<(), HookHalt>
    requires { count < 2 ^ 16 }
    ensures deed { Runs result play.new.held play.new.tape.left play.new.events (shuffled_down (swapped_at (setting_of scene.now) place) (count - 1) play.old.held play.old.tape.left play.old.events) }
    ensures follows { Follows play.old.tape play.new.tape }
{
    for last in (1..count).rev() {
        let face = play.tape.die(last + 1)?;
        swap(place, last, face - 1, scene, &mut play.held)?;
    }
    Ok(())
}

fn swap(
    place: Option<SlotPlace>,
    one: u32,
    other: u32,
    scene: &Scene,
    held: &mut WorkTable,
) -> Result<(), NoMemory>
    requires one { one < 2 ^ 16 }
    requires other { other < 2 ^ 16 }
    ensures { OnOk result (held.new ≡ swapped_at (setting_of scene.now) place one other held.old) }
{
    let change = Change::Swap(Some(one as i32), Some(other as i32));
    change_at(place, &change, scene, held)
}

/// A slot of work begins anew.
pub(crate) fn begin(
    slot: u8,
    value: &Value,
    scene: &Scene,
    held: &mut WorkTable,
) -> Result<(), NoMemory>
    ensures { OnOk result (held.new ≡ work_begun scene.now.work.now slot scene.now.context.now.seats value.now held.old) }
{
    held.begin(scene.work, slot, scene.context.seats, value)
}
