//! Who looks at a match.

ghost use Rattle.std.specs.Prelude.{◌≡◌};
ghost use Rattle.game_sheet.specs.Viewer.{seat_of};

use crate::ids::Seat;
use crate::key::Key;

/// Who a session is for: the player of a seat with the key that was shown for it, or a spectator.
pub type Viewer = Option<(Seat, Key)>;

/// The seat that looks; none for a spectator.
pub fn seat_of(viewer: &Viewer) -> Option<Seat>
    ensures { result ≡ seat_of viewer.now }
{
    match viewer {
        None => None,
        Some((seat, _)) => Some(*seat),
    }
}
