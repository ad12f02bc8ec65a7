//! The calls of the flow, on tables that are sound for their game.

ghost use Rattle.std.specs.Prelude.{◌≡◌, ◌+◌, ◌<◌, ◌≤◌, ℕ, IfOk};
ghost use Rattle.dice_words.specs.Strip.{Follows};
ghost use Rattle.game_trait.specs.InSheet.{EventInSheet};
ghost use Rattle.game_trait.specs.Queues.{AllInSheet};
ghost use Rattle.phase_flow.specs.Comes.{Settles};
ghost use Rattle.phase_flow.specs.Flow.{begin, moved, run_event};
ghost use Rattle.phase_flow.specs.IsSound.{IsSound};
ghost use Rattle.phase_flow.specs.declared.table.TheConstants.{MOST_COUNT};

use crate::flow;
use crate::flow_no::FlowNo;
use crate::table::Table;
use dice_words::Tape;
use game_sheet::{Event, EventQueue, Seat};
use game_trait::Game;
use stage_map::maps_stay_sound;
use std::alloc::Global;

/// The table at the beginning of a match of a number of seats in the bounds of the game's sheet.
///
/// It is `TooManyEvents` or `TooManyWords` exactly where the flow comes to that, and never `TooEarly`.
pub fn begin<X: Game>(
    alloc: Global,
    game: &X,
    seats: u8,
    tape: &mut Tape,
) -> Result<Table<X::G>, FlowNo>
    requires least { (X.rules game.now).sheet.min_seats ≤ seats }
    requires most { seats ≤ (X.rules game.now).sheet.max_seats }
    ensures answer { Settles result tape.new.left (begin (X.rules game.now) seats tape.old.left) }
    ensures sound { IfOk result (λ t. IsSound (X.rules game.now).sheet 0 t.ctx t.active) }
    ensures turn { IfOk result (λ t. t.ctx.turn ≤ 65) }
    ensures follows { Follows tape.old tape.new }
{
    maps_stay_sound();
    let _sheet = game.sheet();
    flow::begin(alloc, game, seats, tape)
}

/// The table after a seat's move was played: `table` has the state that it made, and `events` those that it queued.
///
/// A move that is `counted` counts toward the limits of its turn and of its seat's stage. The answer is `TooManyEvents` or
/// `TooManyWords` exactly where the flow comes to that, and never `TooEarly`. A refusal drops the table.
pub fn moved<X: Game>(
    alloc: Global,
    game: &X,
    table: Table<X::G>,
    seat: Seat,
    counted: bool,
    events: EventQueue,
    tape: &mut Tape,
) -> Result<Table<X::G>, FlowNo>
    requires sound { IsSound (X.rules game.now).sheet MOST_COUNT table.ctx table.active }
    requires turn { table.ctx.turn ≤ MOST_COUNT }
    requires seat { seat < table.ctx.seats }
    requires events { AllInSheet (X.rules game.now).sheet events }
    ensures answer { Settles result tape.new.left (moved (X.rules game.now) seat counted table tape.old.left events) }
    ensures sound { (most : ℕ) → IsSound (X.rules game.now).sheet most table.ctx table.active
        → IfOk result (λ t. IsSound (X.rules game.now).sheet (most + 1) t.ctx t.active) }
    ensures turn { IfOk result (λ t. t.ctx.turn ≤ table.ctx.turn + 64) }
    ensures follows { Follows tape.old tape.new }
{
    maps_stay_sound();
    let _sheet = game.sheet();
    flow::moved(alloc, game, table, seat, counted, events, tape)
}

/// The table after an event that a seat asks for.
///
/// It is `TooEarly` exactly where the turn or the seat's stage would end before its least count of moves; `TooManyEvents`
/// and `TooManyWords` come exactly where the flow comes to that. A refusal drops the table.
pub fn run_event<X: Game>(
    alloc: Global,
    game: &X,
    table: Table<X::G>,
    seat: Seat,
    event: Event,
    tape: &mut Tape,
) -> Result<Table<X::G>, FlowNo>
    requires sound { IsSound (X.rules game.now).sheet MOST_COUNT table.ctx table.active }
    requires turn { table.ctx.turn ≤ MOST_COUNT }
    requires seat { seat < table.ctx.seats }
    requires event { EventInSheet (X.rules game.now).sheet event }
    ensures answer { Settles result tape.new.left (run_event (X.rules game.now) seat event table tape.old.left) }
    ensures sound { (most : ℕ) → IsSound (X.rules game.now).sheet most table.ctx table.active
        → IfOk result (λ t. IsSound (X.rules game.now).sheet most t.ctx t.active) }
    ensures turn { IfOk result (λ t. t.ctx.turn ≤ table.ctx.turn + 64) }
    ensures follows { Follows tape.old tape.new }
{
    maps_stay_sound();
    let _sheet = game.sheet();
    flow::run_event(alloc, game, table, seat, event, tape)
}
