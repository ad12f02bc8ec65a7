//! The one refusal of a tape.

/// The action has no word left: it drew 256 already, or its tape is blank.
#[derive(Clone, Copy, PartialEq, Eq)]
pub struct Spent;
