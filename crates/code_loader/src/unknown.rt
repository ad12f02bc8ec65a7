//! Names that mean nothing where they stand, and what to write in their place.

use crate::drafter::Drafter;
use crate::scope::{Meaning, slot_named};
use crate::text::CodeText;
use crate::trouble::Trouble;
use game_syntax::{Called, FaultName, Hint, Span, called_of};

/// Words of other languages, and what is said of them.
static FOREIGN_WORDS: [(&str, Hint); 14] = [
    ("undefined", Hint::WriteNull),
    ("None", Hint::WriteNull),
    ("nil", Hint::WriteNull),
    ("True", Hint::WriteTrue),
    ("False", Hint::WriteTrue),
    ("G", Hint::NamesAreBare),
    ("ctx", Hint::NamesAreBare),
    ("state", Hint::NamesAreBare),
    ("playerID", Hint::WriteSeat),
    ("player", Hint::WriteSeat),
    ("const", Hint::NoSuchWord),
    ("return", Hint::NoSuchWord),
    ("Math", Hint::NoSuchWord),
    ("random", Hint::NoSuchWord),
];

impl Drafter<'_> {
    /// Refuses a name that means nothing.
    pub(crate) fn unknown(&mut self, code: &CodeText<'_>, name: Span) {
        let hint = self.hint_of(code.letters(name));
        self.fail(code, Trouble::about(FaultName::UnknownName, hint, name));
    }

    /// What to write in the place of a bare name.
    fn hint_of(&self, letters: &[u8]) -> Hint {
        let slots = &self.frame.names.slots;
        if slot_named(slots.players.as_slice(), letters).is_some() {
            return Hint::WriteMe;
        }
        if slot_named(slots.secret.as_slice(), letters).is_some() {
            return Hint::WriteSecret;
        }
        match called_of(letters) {
            Some(Called::Event(_)) => Hint::CallIt,
            _ => foreign(letters),
        }
    }

    /// Refuses a name behind a word, as `me.`, of which there is no such slot.
    pub(crate) fn unknown_slot(&mut self, code: &CodeText<'_>, name: Span) {
        let hint = match self.global(code.letters(name)) {
            Meaning::Common(_) => Hint::WriteBare,
            _ => Hint::Named,
        };
        self.fail(code, Trouble::about(FaultName::UnknownName, hint, name));
    }
}

/// What to say of a word of another language.
fn foreign(letters: &[u8]) -> Hint {
    for (word, hint) in &FOREIGN_WORDS {
        if word.as_bytes() == letters {
            return *hint;
        }
    }
    Hint::Named
}
