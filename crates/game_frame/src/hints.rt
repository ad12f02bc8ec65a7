//! Display hints, which have to be for what is there.

use crate::frame::{FrameSlots, MoveFrame, SlotFrame};
use crate::misfit::At;
use crate::rows::place_of;
use crate::turns::slot_named;
use game_file::{HintMember, MoveMember, Source, Unread};
use game_sheet::Text;
use game_syntax::FaultName;
use std::alloc::Global;

/// What hints may name.
#[derive(Clone, Copy)]
pub(crate) struct Hinted<'a> {
    pub(crate) alloc: Global,
    pub(crate) slots: &'a FrameSlots,
    pub(crate) members: &'a [MoveMember],
    pub(crate) moves: &'a [MoveFrame],
}

/// The words that a member of a hint may have.
#[derive(Clone, Copy)]
struct Words {
    member: &'static str,
    known: &'static [&'static str],
    wanted: &'static str,
}

static SHAPE: Words = Words {
    member: "as",
    known: &[
        "grid", "hand", "pile", "row", "counter", "counters", "hidden",
    ],
    wanted: "grid, hand, pile, row, counter, counters or hidden is wanted",
};

static ITEMS: Words = Words {
    member: "items",
    known: &["cards", "cards13", "dice"],
    wanted: "a list of texts, cards, cards13 or dice is wanted",
};

static OWNER: Words = Words {
    member: "of",
    known: &["seat"],
    wanted: "seat is wanted, for a list with an item for each seat",
};

/// What a click on one place gives.
static GIVEN: [&str; 4] = ["place", "row", "column", "item"];

impl Hinted<'_> {
    /// Refuses the first hint for what isn't there.
    pub(crate) fn check(&self, hints: &[HintMember]) -> Result<(), Unread> {
        for hint in hints {
            self.check_hint(hint)?;
        }
        Ok(())
    }

    fn check_hint(&self, hint: &HintMember) -> Result<(), Unread> {
        self.check_slot(hint)?;
        self.check_words(hint)?;
        self.check_click(hint)
    }

    fn check_words(&self, hint: &HintMember) -> Result<(), Unread> {
        self.check_word(hint, &hint.words.shape, &SHAPE)?;
        self.check_word(hint, &hint.words.items, &ITEMS)?;
        self.check_word(hint, &hint.words.of, &OWNER)
    }

    fn check_slot(&self, hint: &HintMember) -> Result<(), Unread> {
        if self.has_slot(hint.title.name.as_str()) {
            return Ok(());
        }
        Err(self.bad(
            hint,
            "",
            "a hint is for a slot of `common`, or of the viewer's own, as [show.\"me.hand\"]",
        ))
    }

    fn has_slot(&self, name: &str) -> bool {
        match name.strip_prefix("me.") {
            Some(own) => is_there(self.slots.players.as_slice(), own),
            None => is_there(self.slots.common.as_slice(), name),
        }
    }

    /// Refuses a word that isn't among those that a member may have.
    fn check_word(
        &self,
        hint: &HintMember,
        word: &Option<Text>,
        may_have: &Words,
    ) -> Result<(), Unread> {
        match word {
            Some(word) if !is_among(may_have.known, word.as_str()) => Err(self.bad(
                hint,
                may_have.member,
                may_have.wanted,
            )),
            _ => Ok(()),
        }
    }

    fn check_click(&self, hint: &HintMember) -> Result<(), Unread> {
        match hint.click.source() {
            None => Ok(()),
            Some(source) => self.check_call(hint, source),
        }
    }

    fn check_call(&self, hint: &HintMember, source: &Source) -> Result<(), Unread> {
        let Some((name, given)) = call_in(source.text.as_str()) else {
            return Err(self.bad(
                hint,
                "click",
                "a move is wanted with what a click gives, as place(row, column)",
            ));
        };
        match self.arguments(name) {
            None => Err(self.bad(hint, "click", "there is no such move")),
            Some(most) => self.check_given(hint, given, most),
        }
    }

    /// How many arguments the move with a name has.
    fn arguments(&self, name: &str) -> Option<usize> {
        let place = place_of(self.members, name)?;
        match self.moves.get(usize::from(place)) {
            Some(frame) => Some(frame.arguments.len()),
            None => None,
        }
    }

    fn check_given(&self, hint: &HintMember, given: &str, most: usize) -> Result<(), Unread> {
        if !is_given(given) {
            return Err(self.bad(
                hint,
                "click",
                "a click gives place, row, column and item, and two clicks (from, to)",
            ));
        }
        if count(given) > most {
            return Err(self.bad(hint, "click", "the move has fewer arguments"));
        }
        Ok(())
    }

    fn bad(&self, hint: &HintMember, member: &str, words: &str) -> Unread {
        let at = At {
            path: hint.title.path.as_str(),
            member,
        };
        at.fault(self.alloc, FaultName::BadShow, words)
    }
}

fn is_there(slots: &[SlotFrame], name: &str) -> bool {
    slot_named(slots, name).is_some()
}

fn is_among(known: &[&str], word: &str) -> bool {
    known.iter().any(|name| *name == word)
}

/// The name of a move, and what stands in its brackets.
fn call_in(text: &str) -> Option<(&str, &str)> {
    let (name, rest) = text.trim().split_once('(')?;
    let given = rest.strip_suffix(')')?;
    Some((name.trim(), given.trim()))
}

/// Whether this is what a click gives, or what two clicks give.
fn is_given(given: &str) -> bool {
    given.is_empty() || is_two_clicks(given) || are_given(given)
}

fn is_two_clicks(given: &str) -> bool {
    match given.split_once(',') {
        Some((first, second)) => first.trim() == "from" && second.trim() == "to",
        None => false,
    }
}

fn are_given(given: &str) -> bool {
    for word in given.split(',') {
        if !is_among(&GIVEN, word.trim()) {
            return false;
        }
    }
    true
}

/// How many arguments a click gives.
fn count(given: &str) -> usize {
    if given.is_empty() {
        return 0;
    }
    given.split(',').count()
}
