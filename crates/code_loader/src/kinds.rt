//! What kind of value is wanted.

use crate::drafter::Drafter;
use crate::text::CodeText;
use crate::trouble::Trouble;
use code_draft::{Kind, joined_kind};
use game_syntax::{FaultName, Hint};

impl Drafter<'_> {
    /// A number is wanted.
    pub(crate) fn want_number(&mut self, code: &CodeText<'_>, kind: Kind, at: usize) {
        match kind {
            Kind::Number | Kind::Null => {}
            Kind::Condition => self.fail(
                code,
                Trouble::hinted(FaultName::WantsNumber, at, Hint::AsNumber),
            ),
            Kind::Text => self.fail(
                code,
                Trouble::said(
                    FaultName::WantsNumber,
                    at,
                    "a number is wanted here, and this is a text",
                ),
            ),
        }
    }

    /// A condition is wanted.
    pub(crate) fn want_condition(&mut self, code: &CodeText<'_>, kind: Kind, at: usize) {
        if kind != Kind::Condition {
            self.fail(
                code,
                Trouble::hinted(FaultName::WantsCondition, at, Hint::Compare),
            );
        }
    }

    /// A number or a text is wanted.
    pub(crate) fn want_value(&mut self, code: &CodeText<'_>, kind: Kind, at: usize) {
        if kind == Kind::Condition {
            self.fail(
                code,
                Trouble::hinted(FaultName::WantsValue, at, Hint::AsNumber),
            );
        }
    }

    /// A text is wanted.
    pub(crate) fn want_text(&mut self, code: &CodeText<'_>, kind: Kind, at: usize) {
        match kind {
            Kind::Text | Kind::Null => {}
            _ => self.fail(
                code,
                Trouble::said(FaultName::WantsText, at, "a text is wanted here"),
            ),
        }
    }

    /// The kind of two that stand for one.
    pub(crate) fn same_kind(
        &mut self,
        code: &CodeText<'_>,
        one: Kind,
        other: Kind,
        at: usize,
    ) -> Kind {
        match joined_kind(one, other) {
            Some(kind) => kind,
            None => {
                self.fail(
                    code,
                    Trouble::said(FaultName::KindsDiffer, at, differing(one, other)),
                );
                one
            }
        }
    }

    /// What is put into a slot has to be a value of its kind.
    pub(crate) fn want_fitting(&mut self, code: &CodeText<'_>, slot: Kind, value: Kind, at: usize) {
        self.want_value(code, value, at);
        self.same_kind(code, slot, value, at);
    }
}

/// Which two kinds there are.
fn differing(one: Kind, other: Kind) -> &'static str {
    match (one, other) {
        (Kind::Condition, _) | (_, Kind::Condition) => {
            "one of the two is a condition and the other a value: a condition as a number is `c ? 1 : 0`"
        }
        _ => "one of the two is a number and the other a text",
    }
}
