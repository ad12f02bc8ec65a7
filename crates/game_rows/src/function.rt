//! The functions of a game that a row may ask, by their names.

/// A function of a game.
#[derive(Clone, Copy, PartialEq, Eq, Debug)]
pub enum Function {
    /// How the match ends.
    EndIf,
    /// Whether the turn ends.
    TurnEndIf,
    /// Whether the phase ends.
    PhaseEndIf,
    /// The game's own play order.
    PlayOrder,
    /// What a viewer sees.
    View,
    /// What a seat is offered.
    Options,
    /// The first state.
    Setup,
    /// The state after a move.
    Play,
    /// What happens after a move.
    OnMove,
    /// What happens as a turn begins.
    TurnBegin,
    /// What happens as a turn ends.
    TurnEnd,
    /// What happens as a phase begins.
    PhaseBegin,
    /// What happens as a phase ends.
    PhaseEnd,
    /// What happens once the match has ended.
    GameEnd,
    /// Which seats a spec of active players lists.
    ActiveSeats,
    /// The scores of the seats.
    Scores,
}

impl Function {
    /// The function with this name.
    pub fn named(name: &str) -> Option<Function> {
        match name {
            "setup" => Some(Function::Setup),
            "play" => Some(Function::Play),
            "view" => Some(Function::View),
            "options" => Some(Function::Options),
            "play_order" => Some(Function::PlayOrder),
            "active_seats" => Some(Function::ActiveSeats),
            "scores" => Some(Function::Scores),
            _ => Function::end_named(name),
        }
    }

    /// The test of an end, or the hook, with this name.
    fn end_named(name: &str) -> Option<Function> {
        match name {
            "end_if" => Some(Function::EndIf),
            "turn_end_if" => Some(Function::TurnEndIf),
            "phase_end_if" => Some(Function::PhaseEndIf),
            _ => Function::hook_named(name),
        }
    }

    /// The hook with this name.
    fn hook_named(name: &str) -> Option<Function> {
        match name {
            "on_move" => Some(Function::OnMove),
            "turn_begin" => Some(Function::TurnBegin),
            "turn_end" => Some(Function::TurnEnd),
            "phase_begin" => Some(Function::PhaseBegin),
            "phase_end" => Some(Function::PhaseEnd),
            "game_end" => Some(Function::GameEnd),
            _ => None,
        }
    }
}
