//! What is guessed of one action.

use game_sheet::Number;

/// The state that an action is guessed to lead to, and its number.
pub(crate) struct Guess<G> {
    /// The number.
    pub(crate) number: Number,
    /// The state, as the client's viewer sees it.
    pub(crate) g: G,
}

impl<G: Drop> Drop for Guess<G> {
    fn drop(self) {
        let Guess { number: _, g } = self;
        drop(g);
    }
}
