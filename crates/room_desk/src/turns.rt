//! The rule of a desk's table, and what each of its steps tells.

use crate::view::View;
use atomic_table::{Join, Play, Split, TableRule};
use room_object::Object;
use std::marker::{Brand, PhantomData};
use std::snapshot::Snapshot;

/// What a desk was set up with: how many passes, and the object as it was.
#[derive(Drop)]
pub struct Beginning<O> {
    pub(crate) passes: u32,
    pub(crate) object: Snapshot<O>,
}

/// The rule: one history, with tickets and a turn.
pub struct Turns<O> {
    marker: PhantomData<O>,
}

impl<O: Object> TableRule<Option<O>, View<O::Call>, Beginning<O>> for Turns<O> {
    ghost use Rattle.room_desk.specs.Turns.{Desked, untold};

    ghost holds = { λ b. Desked O.number O.stands_for b.passes };

    ghost first = { λ b. untold b.passes };
}

/// The empty slot is taken.
pub struct Reach;

impl<O: Object> Play<Option<O>, View<O::Call>> for Reach {
    ghost use Rattle.room_desk.specs.Plays.{Reaches};

    ghost then = { Reaches };
}

/// The slot is given back with the object in it.
pub struct Open;

impl<O: Object> Play<Option<O>, View<O::Call>> for Open {
    ghost use Rattle.room_desk.specs.Plays.{Opens};

    ghost then = { Opens O.number O.stands_for };
}

/// A ticket is drawn.
pub struct Draw;

impl<O: Object> Play<Option<O>, View<O::Call>> for Draw {
    ghost use Rattle.room_desk.specs.Plays.{Draws};

    ghost then = { Draws };
}

/// The whole history is seen.
pub struct Look;

impl<O: Object> Play<Option<O>, View<O::Call>> for Look {
    ghost use Rattle.room_desk.specs.Plays.{Looks};

    ghost then = { Looks };
}

/// The turn is tried for.
pub struct Try;

impl<O: Object> Play<Option<O>, View<O::Call>> for Try {
    ghost use Rattle.room_desk.specs.Plays.{Tries};

    ghost then = { Tries O.number O.stands_for };
}

/// The turn is passed on, with what `J` says on top of the history.
pub struct PassOn<J> {
    marker: PhantomData<J>,
}

impl<O: Object, J: Said<O::Call>> Play<Option<O>, View<O::Call>> for PassOn<J> {
    ghost use Rattle.room_desk.specs.Plays.{Passes};

    ghost then = { Passes J.said };
}

/// The entry that passing the turn on adds. The proof of each call picks it.
pub trait Said<C> {
    ghost use Rattle.std.specs.Prelude.{List};
    ghost use Rattle.room_object.specs.Entry.{Entry};

    ghost said: { List (Entry C) };
}

impl<C> Said<C> for Brand {
    ghost use Rattle.std.specs.Prelude.{[]};

    ghost said = { [] };
}

/// The call that a turn is for. The proof of each call picks it.
pub trait Asked<C> {
    ghost use Rattle.std.specs.Prelude.{List};

    ghost asked: { List C };
}

impl<C> Asked<C> for Brand {
    ghost use Rattle.std.specs.Prelude.{[]};

    ghost asked = { [] };
}

/// How a seat gives its first pass a seat of its own.
pub struct Part;

impl<C> Split<View<C>> for Part {
    ghost use Rattle.room_desk.specs.Plays.{left_of, right_of};

    ghost left = { left_of };

    ghost right = { right_of };
}

/// How a seat takes in the passes of another.
pub struct Unite;

impl<C> Join<View<C>> for Unite {
    ghost use Rattle.room_desk.specs.Plays.{joined, spent};

    ghost both = { joined };

    ghost spent = { spent };
}
