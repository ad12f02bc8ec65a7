//! The protocols in which a session may be told of a match.

/// How a session is told of each accepted action.
#[derive(Clone, Copy)]
pub enum Protocol {
    /// By an update with the whole context and state. A sync that names no protocol asks for it.
    One,
    /// By a change line, which has the members alone that have changed.
    Two,
}
