//! What statements do.

ghost use Rattle.std.specs.Prelude.{◌≡◌, ◌∷◌};
ghost use Rattle.dice_words.specs.Strip.{Follows};
ghost use Rattle.slot_values.specs.Values.{whole};
ghost use Rattle.game_code.specs.Meaning.{values_of};
ghost use Rattle.game_code.specs.Runs.{Runs, number_now, queued_one, rounds, run, value_now};
ghost use Rattle.game_code.specs.Setting.{setting_of};
ghost use Rattle.game_code.specs.Wishes.{wished};

use crate::changes::{begin, change, shuffle_list};
use crate::evaluates::{evaluate, number};
use crate::expression::{Expression, Locals};
use crate::rolls::roll;
use crate::scene::{Scene, Sight};
use crate::statement::{Statement, Wish};
use crate::wishes::wished;
use dice_words::Tape;
use game_sheet::{Crowded, EventQueue};
use game_slots::WorkTable;
use game_trait::HookHalt;
use slot_values::{Number, Value, count_between, is_true, next, whole};

/// What a running piece of code changes.
#[derive(Drop)]
pub struct Play {
    /// The state, and the slots of work.
    pub held: WorkTable,
    /// The words that the action has left.
    pub tape: Tape,
    /// The events that are queued.
    pub events: EventQueue,
}

/// Does a statement. After an answer that isn't Ok what is held is worth nothing.
#[cycle(run)]
pub fn run(
    statement: &Statement,
    scene: &Scene,
    locals: &Locals,
    play: &mut Play,
) -> Result<(), HookHalt>
    ensures deed { Runs result play.new.held play.new.tape.left play.new.events (run statement.now (setting_of scene.now) (values_of locals.now) play.old.held play.old.tape.left play.old.events) }
    ensures follows { Follows play.old.tape play.new.tape }
{
    match statement {
        Statement::Nothing => Ok(()),
        Statement::Then(first, second) => {
            run(first, scene, locals, play)?;
            run(second, scene, locals, play)
        }
        Statement::Let(value, body) => {
            let value = value_now(value, scene, locals, &play.held);
            run(body, scene, &Locals::With(value, &*locals), play)
        }
        Statement::Roll(faces, body) => {
            let face = roll(number_now(faces, scene, locals, &play.held), &mut play.tape)?;
            run_at(body, face, scene, locals, play)
        }
        Statement::If(test, one, other) => {
            if is_true(&value_now(test, scene, locals, &play.held)) {
                run(one, scene, locals, play)
            } else {
                run(other, scene, locals, play)
            }
        }
        Statement::For(most, from, to, body) => {
            let first = number_now(from, scene, locals, &play.held);
            let past = number_now(to, scene, locals, &play.held);
            repeat(
                body,
                count_between(*most, first, past),
                first,
                scene,
                locals,
                play,
            )
        }
        Statement::Change(list, seat, edit) => {
            let seat = number_now(seat, scene, locals, &play.held);
            Ok(change(*list, seat, edit, scene, locals, &mut play.held)?)
        }
        Statement::Shuffle(list, seat, most) => {
            let seat = number_now(seat, scene, locals, &play.held);
            shuffle_list(*list, seat, *most, scene, play)
        }
        Statement::Begin(slot, value) => {
            let value = value_now(value, scene, locals, &play.held);
            Ok(begin(*slot, &value, scene, &mut play.held)?)
        }
        Statement::Queue(wish) => queue(wish, scene, locals, play),
    }
}

/// Does a statement at so many numbers from one on.
#[cycle(run)]
fn repeat(
    body: &Statement,
    count: u32,
    first: Number,
    scene: &Scene,
    locals: &Locals,
    play: &mut Play,
) -> Result<(), HookHalt>
    ensures deed { Runs result play.new.held play.new.tape.left play.new.events (rounds (λ i. run body.now (setting_of scene.now) (whole i ∷ values_of locals.now)) count first play.old.held play.old.tape.left play.old.events) }
    ensures follows { Follows play.old.tape play.new.tape }
{
    let mut i = first;
    for _ in 0..count {
        run_at(body, i, scene, locals, play)?;
        i = next(i);
    }
    Ok(())
}

/// Does a statement with a number as the newest local.
#[cycle(run)]
fn run_at(
    body: &Statement,
    i: Number,
    scene: &Scene,
    locals: &Locals,
    play: &mut Play,
) -> Result<(), HookHalt>
    ensures deed { Runs result play.new.held play.new.tape.left play.new.events (run body.now (setting_of scene.now) (whole i ∷ values_of locals.now) play.old.held play.old.tape.left play.old.events) }
    ensures follows { Follows play.old.tape play.new.tape }
{
    run(body, scene, &Locals::With(whole(i), &*locals), play)
}

/// The value of an expression in what is held.
pub(crate) fn value_now(
    expression: &Expression,
    scene: &Scene,
    locals: &Locals,
    held: &WorkTable,
) -> Value
    ensures { result ≡ value_now expression.now (setting_of scene.now) (values_of locals.now) held.now }
{
    let sight = Sight {
        scene: &*scene,
        table: &held.table,
        work: held.work.as_slice(),
    };
    evaluate(expression, &sight, locals)
}

/// The number that an expression is in what is held; none where it is null or a text.
pub(crate) fn number_now(
    expression: &Expression,
    scene: &Scene,
    locals: &Locals,
    held: &WorkTable,
) -> Number
    ensures { result ≡ number_now expression.now (setting_of scene.now) (values_of locals.now) held.now }
{
    let sight = Sight {
        scene: &*scene,
        table: &held.table,
        work: held.work.as_slice(),
    };
    number(expression, &sight, locals)
}

/// Queues the event that is asked for, if there is one.
fn queue(wish: &Wish, scene: &Scene, locals: &Locals, play: &mut Play) -> Result<(), HookHalt>
    ensures deed { Runs result play.new.held play.new.tape.left play.new.events (queued_one (wished wish.now (setting_of scene.now) play.old.held.table play.old.held.work (values_of locals.now)) play.old.held play.old.tape.left play.old.events) }
    ensures same_tape { play.new.tape ≡ play.old.tape }
{
    let sight = Sight {
        scene: &*scene,
        table: &play.held.table,
        work: play.held.work.as_slice(),
    };
    match wished(wish, &sight, locals) {
        Some(event) => match play.events.push(event) {
            Ok(()) => Ok(()),
            Err(Crowded) => Err(HookHalt::Crowded),
        },
        None => Ok(()),
    }
}
