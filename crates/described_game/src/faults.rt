//! Why parts make no game.

use game_sheet::SheetFault;

/// Why parts make no game: the first test of them that fails, in this order.
#[derive(Clone, Copy)]
pub enum PartFault {
    /// The sheet breaks a rule.
    Sheet(SheetFault),
    /// There isn't code for each move and each phase of the sheet.
    Counts,
    /// States have entries for another number of seats than a match may have.
    Seats,
    /// The names and rows of the slots make no form.
    Names,
    /// The text of a state may be too long.
    Text,
    /// A slot doesn't fit as it starts.
    Start,
    /// The code that makes the first state may queue events.
    Setup,
    /// A piece of code names what isn't in the sheet, or may queue more than sixteen events.
    Code,
    /// Whether a move is allowed, or offered, hangs on what the seat that moves doesn't see.
    Sight,
    /// A move has more than eight arguments, offers more than 4,096 rows of them, or has too large ranges for a list.
    Arguments,
}
