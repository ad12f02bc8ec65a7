//! What a client's part in a match comes to: by an action, by the next settled snapshot, by a verdict.

ghost use Rattle.std.specs.Prelude.{◌≡◌, ◌<◌, ◌+◌, length, take, drop, IfOk, OnOk, OnErr};
ghost use Rattle.wire_json.specs.Asking.{IsAskable};
ghost use Rattle.wire_json.specs.ClientText.{client_text};
ghost use Rattle.wire_json.specs.declared.client.ClientMsg.TheVariants as message;
ghost use Rattle.client_predict.specs.Acting.{act_told, submitted, with_act};
ghost use Rattle.client_predict.specs.Reading.{answered, settled_by, settles};
ghost use Rattle.client_predict.specs.Stack.{after, guesses, playing_of, IsKept};

use crate::acting::{Ready, line_key, prepare, told_of};
use crate::change::Change;
use crate::guess::Guess;
use crate::part::{Part, parts_of};
use crate::predict::{replay, shown_after};
use crate::shown::Shown;
use crate::told::Predicted;
use game_sheet::{Key, NoMemory, Number};
use game_trait::Game;
use std::alloc::Global;
use wire_json::Asked;

/// Makes an action, which then waits: its line, and whether it is shown already.
#[tactic(auto, using(crate::proofs::Stacks::shows, crate::proofs::Stacks::as_many, crate::proofs::Stacks::told_alike))]
pub(crate) fn act<X: Game>(
    alloc: Global,
    game: &X,
    key: &Option<Key>,
    part: &mut Part<X::G>,
    asked: &Asked,
) -> Result<(Vec<u8>, Predicted), NoMemory>
    requires kept { IsKept (X.rules game.now) part.old }
    requires few { length part.old.waiting.items < 32 }
    requires form { IsAskable asked.now }
    ensures kept { IsKept (X.rules game.now) part.new }
    ensures line { IfOk result (λ r. (r.0).items
        ≡ client_text (message.Act (submitted (X.rules game.now) key.now (playing_of part.old) asked.now))) }
    ensures told { IfOk result (λ r. r.1 ≡ act_told (X.rules game.now) (playing_of part.old) asked.now) }
    ensures waits { OnOk result (playing_of part.new ≡ with_act (X.rules game.now) (playing_of part.old) asked.now) }
    ensures err { OnErr result (part.new ≡ part.old) }
{
    let key = line_key(key, part.seat);
    let shown = part.shown();
    let Ready { line, waits, guess } = prepare(
        alloc,
        game,
        &shown,
        part.seat,
        key,
        part.name,
        part.ticket,
        asked,
    )?;
    let told = told_of(&guess);
    part.wait(waits, guess);
    Ok((line, told))
}

/// The next snapshot is settled: all guesses are made anew on it.
#[tactic(auto, using(crate::proofs::Stacks::as_many))]
pub(crate) fn settle<X: Game>(
    alloc: Global,
    game: &X,
    part: &mut Part<X::G>,
    change: Change<X::G>,
    number: Number,
) -> Result<(), NoMemory>
    requires { IsKept (X.rules game.now) part.old }
    ensures kept { IsKept (X.rules game.now) part.new }
    ensures settles { OnOk result (playing_of part.new
        ≡ settles (playing_of part.old) (settled_by part.old.settled change number)) }
    ensures err { OnErr result (part.new ≡ part.old) }
{
    match replay_on(alloc, game, part, &change, number) {
        Ok(fresh) => part.settle(change, number, fresh),
        Err(NoMemory) => {
            drop(change);
            Err(NoMemory)
        }
    }
}

/// The guesses of the waiting actions on the snapshot that a change leads to.
#[tactic(auto, using(crate::proofs::Stacks::whatever_the_log))]
fn replay_on<X: Game>(
    alloc: Global,
    game: &X,
    part: &Part<X::G>,
    change: &Change<X::G>,
    number: Number,
) -> Result<Vec<Option<Guess<X::G>>>, NoMemory>
    ensures { IfOk result (λ fresh. fresh.items
        ≡ guesses (X.rules game.now) part.now.seat (settled_by part.now.settled change.now number) part.now.waiting.items) }
{
    let base = Shown {
        number,
        ctx: &change.ctx,
        g: &change.g,
        log: part.settled.log.as_slice(),
    };
    replay(alloc, game, &base, part.seat, part.waiting.as_slice())
}

/// The action at a place waits no more. The guesses are rolled back to its own, if it has one, and those after it made anew.
#[tactic(auto, using(crate::proofs::Stacks::as_many))]
pub(crate) fn answer<X: Game>(
    alloc: Global,
    game: &X,
    part: &mut Part<X::G>,
    place: usize,
) -> Result<(), NoMemory>
    requires kept { IsKept (X.rules game.now) part.old }
    requires inside { place < length part.old.waiting.items }
    ensures kept { IsKept (X.rules game.now) part.new }
    ensures answered { OnOk result (playing_of part.new ≡ answered (playing_of part.old) place) }
    ensures err { OnErr result (part.new ≡ part.old) }
{
    if part.guesses[place].is_none() {
        part.take_out(place);
        return Ok(());
    }
    let fresh = replay_after(alloc, game, part, place)?;
    part.roll_back(place, fresh);
    Ok(())
}

/// The guesses of the actions after a place, as if the one there were not.
fn replay_after<X: Game>(
    alloc: Global,
    game: &X,
    part: &Part<X::G>,
    place: usize,
) -> Result<Vec<Option<Guess<X::G>>>, NoMemory>
    requires waits { place < length part.now.waiting.items }
    requires guess { place < length part.now.guesses.items }
    ensures { IfOk result (λ fresh. fresh.items
        ≡ guesses (X.rules game.now) part.now.seat (after part.now.settled (take place part.now.guesses.items))
        (drop (place + 1) part.now.waiting.items)) }
{
    let base = shown_after(parts_of(&part.settled), &part.guesses[..place]);
    replay(alloc, game, &base, part.seat, &part.waiting[place + 1..])
}
