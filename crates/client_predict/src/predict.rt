//! What is guessed of actions, one by one and one after another.

ghost use Rattle.std.specs.Prelude.{◌≡◌, ◌==◌, ◌<◌, ◌++◌, [], length, take, true, false, IfOk, Option, None, slice_get, option_map, if◌then◌else◌};
ghost use Rattle.std.specs.List.{list_any};
ghost use Rattle.std.specs.Option.{option_copied};
ghost use Rattle.game_sheet.specs.SheetFits.{SheetFits};
ghost use Rattle.wire_json.specs.Resolve.{act_of, ignores_number};
ghost use Rattle.player_sight.specs.declared.shown.Snapshot.{Snapshot};
ghost use Rattle.client_predict.specs.Prediction.{guessed, guessed_act, last_number, made, may_guess, runs_on_client};
ghost use Rattle.client_predict.specs.Shown.{counts_on};
ghost use Rattle.client_predict.specs.Stack.{after, ahead, guess_of, guesses, snapshot_of, tried};

use crate::guess::Guess;
use crate::shown::Shown;
use crate::waiting::Waiting;
use dice_words::Tape;
use game_sheet::{Act, Args, EventQueue, MoveId, NoMemory, Number, Seat, Sheet};
use game_trait::{Game, Halt};
use stage_map::{is_active, moves_of};
use std::alloc::Global;
use wire_json::{Asked, resolve};

/// Whether a move is among some moves.
fn has_move(moves: &[MoveId], id: MoveId) -> bool
    ensures { result ≡ list_any (λ m. m == id) moves.now }
{
    moves.iter().any(|other| other.place() == id.place())
}

/// Whether the sheet lets a move run on clients.
fn runs_on_client(sheet: &Sheet, id: MoveId) -> bool
    ensures { result ≡ runs_on_client (slice_get sheet.now.moves id) }
{
    match sheet.moves.get(id.place() as usize) {
        Some(row) => row.client,
        None => false,
    }
}

/// Whether a seat's move may be guessed on a snapshot.
fn may_guess<G>(sheet: &Sheet, s: &Shown<'_, G>, seat: Seat, id: MoveId) -> bool
    ensures value { result ≡ may_guess sheet.now (snapshot_of s.now) seat id }
    ensures room { result ≡ true → s.now.number < last_number }
{
    let number = s.number;
    number != u32::MAX
        && runs_on_client(sheet, id)
        && s.ctx.over.is_none()
        && is_active(s.ctx, seat)
        && has_move(moves_of(sheet, s.ctx, seat), id)
}

/// Whether the action is taken on any state number.
fn is_on_any_number(sheet: &Sheet, asked: &Asked) -> bool
    requires { SheetFits sheet.now }
    ensures { result ≡ ignores_number sheet.now (act_of sheet.now asked.now) }
{
    let act = resolve(sheet, asked);
    match &act {
        Some(Act::Move { id, .. }) => match sheet.moves.get(id.place() as usize) {
            Some(row) => row.ignore_stale,
            None => false,
        },
        Some(Act::Event(_)) => false,
        Some(Act::Undo) => false,
        Some(Act::Redo) => false,
        None => false,
    }
}

/// Whether a waiting action counts on a snapshot of this number.
fn counts_on<G>(sheet: &Sheet, s: &Shown<'_, G>, w: &Waiting) -> bool
    requires { SheetFits sheet.now }
    ensures { result ≡ counts_on sheet.now (snapshot_of s.now) w.now }
{
    w.number == s.number || is_on_any_number(sheet, &w.asked)
}

/// What a viewer's action is guessed to lead to; none where it isn't guessed.
pub(crate) fn guess<X: Game>(
    alloc: Global,
    game: &X,
    s: &Shown<'_, X::G>,
    seat: Option<Seat>,
    asked: &Asked,
) -> Result<Option<Guess<X::G>>, NoMemory>
    ensures { IfOk result (λ guess. guess
        ≡ option_map (guess_of (snapshot_of s.now)) (guessed (X.rules game.now) (snapshot_of s.now) seat asked.now)) }
{
    let Some(seat) = seat else {
        return Ok(None);
    };
    let act = resolve(game.sheet(), asked);
    match &act {
        Some(Act::Move { id, args }) => guess_move(alloc, game, s, seat, *id, args),
        Some(Act::Event(_)) => Ok(None),
        Some(Act::Undo) => Ok(None),
        Some(Act::Redo) => Ok(None),
        None => Ok(None),
    }
}

/// What a seat's move is guessed to lead to; none where it isn't guessed.
fn guess_move<X: Game>(
    alloc: Global,
    game: &X,
    s: &Shown<'_, X::G>,
    seat: Seat,
    id: MoveId,
    args: &Args,
) -> Result<Option<Guess<X::G>>, NoMemory>
    ensures { IfOk result (λ guess. guess ≡ option_map (guess_of (snapshot_of s.now))
        (if may_guess (X.rules game.now).sheet (snapshot_of s.now) seat id
        then made ((X.rules game.now).play s.now.g.now s.now.ctx.now seat id args.now []) else None)) }
{
    if !may_guess(game.sheet(), s, seat, id) {
        return Ok(None);
    }
    let number = s.number + 1;
    match play(alloc, game, s, seat, id, args)? {
        Some(g) => Ok(Some(Guess { number, g })),
        None => Ok(None),
    }
}

/// The state that a move makes without a word to draw; none where the game gives up.
fn play<X: Game>(
    alloc: Global,
    game: &X,
    s: &Shown<'_, X::G>,
    seat: Seat,
    id: MoveId,
    args: &Args,
) -> Result<Option<X::G>, NoMemory>
    requires { id < length (X.rules game.now).sheet.moves }
    ensures { IfOk result (λ g. g ≡ made ((X.rules game.now).play s.now.g.now s.now.ctx.now seat id args.now [])) }
{
    let mut tape = Tape::blank();
    let mut events = EventQueue::new();
    match game.play(alloc, s.g, s.ctx, seat, id, args, &mut tape, &mut events) {
        Ok(g) => Ok(Some(g)),
        Err(Halt::Invalid) => Ok(None),
        Err(Halt::Spent) => Ok(None),
        Err(Halt::Crowded) => Ok(None),
        Err(Halt::NoMemory) => Err(NoMemory),
    }
}

/// What a waiting action is guessed to lead to on a snapshot; none where it doesn't count there or isn't guessed.
fn try_on<X: Game>(
    alloc: Global,
    game: &X,
    s: &Shown<'_, X::G>,
    seat: Option<Seat>,
    w: &Waiting,
) -> Result<Option<Guess<X::G>>, NoMemory>
    ensures { IfOk result (λ guess. guess ≡ tried (X.rules game.now) seat (snapshot_of s.now) w.now) }
{
    if counts_on(game.sheet(), s, w) {
        guess(alloc, game, s, seat, &w.asked)
    } else {
        Ok(None)
    }
}

/// The snapshot by its parts after some guesses.
pub(crate) fn shown_after<'a, G>(s: Shown<'a, G>, guesses: &'a [Option<Guess<G>>]) -> Shown<'a, G>
    ensures { snapshot_of result ≡ after (snapshot_of s.entry) guesses.now }
{
    let mut reached = s;
    for guess in guesses {
        reached = shown_ahead(reached, guess);
    }
    reached
}

/// The snapshot by its parts after one guess, where one was made.
fn shown_ahead<'a, G>(s: Shown<'a, G>, guess: &'a Option<Guess<G>>) -> Shown<'a, G>
    ensures { snapshot_of result ≡ ahead (snapshot_of s.entry) guess.now }
{
    match guess {
        None => s,
        Some(guess) => Shown {
            number: guess.number,
            ctx: s.ctx,
            g: &guess.g,
            log: s.log,
        },
    }
}

/// The guesses of waiting actions, each made on what those before it came to.
pub(crate) fn replay<X: Game>(
    alloc: Global,
    game: &X,
    s: &Shown<'_, X::G>,
    seat: Option<Seat>,
    waiting: &[Waiting],
) -> Result<Vec<Option<Guess<X::G>>>, NoMemory>
    ensures { IfOk result (λ stack. stack.items ≡ guesses (X.rules game.now) seat (snapshot_of s.now) waiting.now) }
{
    let mut stack = Vec::new(alloc);
    for w in waiting {
        let guess = try_next(alloc, game, s, seat, stack.as_slice(), w)?;
        stack.push(guess)?;
    }
    Ok(stack)
}

/// The guess of a waiting action after some guesses.
fn try_next<X: Game>(
    alloc: Global,
    game: &X,
    s: &Shown<'_, X::G>,
    seat: Option<Seat>,
    stack: &[Option<Guess<X::G>>],
    w: &Waiting,
) -> Result<Option<Guess<X::G>>, NoMemory>
    ensures { IfOk result (λ guess. guess ≡ tried (X.rules game.now) seat (after (snapshot_of s.now) stack.now) w.now) }
{
    let start = Shown {
        number: s.number,
        ctx: s.ctx,
        g: s.g,
        log: s.log,
    };
    let reached = shown_after(start, stack);
    try_on(alloc, game, &reached, seat, w)
}
