//! What a seat at a desk's table knows, which only proofs read.

ghost use Rattle.room_desk.specs.Turns.{View as Known};

use std::marker::{Model, PhantomData};

/// What a seat knows. It has no bytes, and no value of it is made.
pub struct View<C> {
    marker: PhantomData<C>,
    ghost known: { Known C },
}

impl<C> Model for View<C> {
    ghost use base.Fml.{ftrue};
    ghost use Rattle.room_desk.specs.Turns.{View as Known};

    ghost Value = { Known C };

    ghost view = { λ v. v.known };

    ghost also_owns = { λ _. ftrue };
}
