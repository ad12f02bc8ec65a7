//! A match as the lobby shows it.

use game_sheet::{List, MatchName, Seat, Text};

/// One match and who sits in it.
pub struct MatchRow {
    /// The game's name.
    pub game: Text,
    /// Which match.
    pub name: MatchName,
    /// Whether the match has ended.
    pub over: bool,
    /// The seats in rising order, each with the name of its player, if any.
    pub players: List<(Seat, Option<Text>)>,
}

impl Drop for MatchRow {
    fn drop(self) {
        let MatchRow {
            game,
            name: _,
            over: _,
            players,
        } = self;
        drop(game);
        drop(players);
    }
}
