//! Why a roster refuses a call.

/// The rule of the roster that a call breaks. A refused call changes nothing, and no call is refused for want of memory.
#[derive(Clone, Copy, PartialEq, Eq)]
pub enum RosterNo {
    /// There is no such seat; or, where its player renames or leaves, nobody sits there.
    NoSeat,
    /// Somebody sits there already.
    SeatTaken,
    /// The name is empty, longer than 32 bytes, or has a byte below 32.
    BadName,
    /// The key isn't the key of the player who sits there.
    Unauthorized,
}
