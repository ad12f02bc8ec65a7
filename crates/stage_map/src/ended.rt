//! What an attempt to end a seat's stage comes to.

/// What an attempt to end a seat's stage comes to.
#[derive(Clone, Copy)]
pub enum Ended {
    /// The stage has ended.
    Done,
    /// The map doesn't list the seat.
    NotListed,
    /// The seat has made fewer moves than its least.
    Below,
}
