//! What is done with a client, step by step.

ghost use Rattle.std.specs.Prelude.{IfOk};
ghost use Rattle.wire_json.specs.Asking.{IsAskable};

use client_predict::{ActNo, Client, FeedNo, Predicted, Told};
use game_sheet::{Arg, Args, NoMemory, Text};
use game_trait::Game;
use std::alloc::Global;
use std::process::Abort;
use wire_json::Asked;

/// A move of Blind Bid or of Pig.
#[derive(Clone, Copy)]
pub enum Move {
    /// A boast of this number.
    Boast(i32),
    /// A roll of the die.
    Roll,
}

/// One step, and what comes of it.
#[derive(Clone, Copy)]
pub enum Step<'a> {
    /// The client reads a line.
    Reads(&'a str, Result<Told, FeedNo>),
    /// The client makes a move.
    Makes(Move, Result<Predicted, ActNo>),
}

/// Does the steps one after the other with a client of a game.
pub fn does<X: Game + Drop>(rt: &impl Abort, alloc: Global, client: Client<X>, steps: &[Step<'_>]) {
    let mut client = client;
    for step in steps {
        do_step(rt, alloc, &mut client, step);
    }
    drop(client);
}

fn do_step<X: Game + Drop>(
    rt: &impl Abort,
    alloc: Global,
    client: &mut Client<X>,
    step: &Step<'_>,
) {
    match step {
        Step::Reads(line, told) => assert_eq!(rt; client.feed(line.as_bytes()), *told, "{line}"),
        Step::Makes(made, predicted) => assert_eq!(rt; make(alloc, client, *made), *predicted),
    }
}

/// Makes a move, and tells whether it was guessed. The line is of no matter here.
pub fn make<X: Game + Drop>(
    alloc: Global,
    client: &mut Client<X>,
    made: Move,
) -> Result<Predicted, ActNo> {
    match asked_of(alloc, made) {
        Ok(asked) => {
            let acted = client.act(&asked);
            drop(asked);
            let (_line, predicted) = acted?;
            Ok(predicted)
        }
        Err(NoMemory) => Err(ActNo::NoMemory),
    }
}

/// The move as it is asked for.
fn asked_of(alloc: Global, made: Move) -> Result<Asked, NoMemory>
    ensures { IfOk result (λ asked. IsAskable asked) }
{
    match made {
        Move::Boast(number) => {
            let name = Text::from_str(alloc, "boast")?;
            let mut args = Args::new();
            args.push(Arg::Whole(number));
            Ok(Asked::Move { name, args })
        }
        Move::Roll => {
            let name = Text::from_str(alloc, "roll")?;
            Ok(Asked::Move {
                name,
                args: Args::new(),
            })
        }
    }
}
