//! A row of the bench.

ghost use Rattle.std.specs.Prelude.{◌≡◌};
ghost use Rattle.bench_wishes.specs.Places.{is_at};

use game_sheet::{MatchName, Seat};

/// A bot's seat, and whether somebody wants it.
#[derive(Clone, Copy)]
pub struct Row {
    /// The match.
    pub(crate) name: MatchName,
    /// The bot's seat.
    pub(crate) seat: Seat,
    /// Whether somebody wants it.
    pub(crate) wished: bool,
}

/// Whether this is a seat's row.
pub(crate) fn is_at(row: &Row, name: MatchName, seat: Seat) -> bool
    ensures { result ≡ is_at name seat row.now.name row.now.seat }
{
    row.name.room() == name.room() && row.name.serial() == name.serial() && row.seat == seat
}
