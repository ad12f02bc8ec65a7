//! Uses of named code, which is written out where it is used, with its arguments as values.

use crate::drafter::Drafter;
use crate::named::{Named, Parts};
use crate::scope::Meaning;
use crate::text::CodeText;
use crate::trouble::Trouble;
use code_draft::{Deed, Draft};
use game_syntax::{FaultName, Hint, Id, Many, Span};

/// A use of named code.
#[derive(Clone, Copy)]
pub(crate) struct Calling {
    /// Which named code.
    pub(crate) target: usize,
    /// What it is.
    pub(crate) of: Id,
    pub(crate) arguments: Many,
    /// Where the name stands.
    pub(crate) at: usize,
    /// Where the piece uses it, itself or by other named code.
    pub(crate) used: usize,
    /// How much was given before.
    pub(crate) mark: usize,
}

impl<'a> Drafter<'a> {
    /// Named code that is used, if it may be used here with so many arguments.
    pub(crate) fn calling(
        &mut self,
        code: &CodeText<'_>,
        name: Span,
        arguments: Many,
        is_value: bool,
    ) -> Option<Calling> {
        match self.meaning(code, name) {
            Meaning::Code(target, of) if of == is_value => {
                self.callable(code, name, target, arguments)
            }
            Meaning::Code(_, true) => {
                self.fail(
                    code,
                    Trouble::about(FaultName::UnknownName, Hint::IsFunction, name),
                );
                None
            }
            Meaning::Code(_, false) => {
                self.fail(
                    code,
                    Trouble::about(FaultName::UnknownName, Hint::IsProcedure, name),
                );
                None
            }
            _ => {
                self.fail(
                    code,
                    Trouble::said(
                        FaultName::UnknownName,
                        name.from,
                        "no named code has this name",
                    ),
                );
                None
            }
        }
    }

    fn callable(
        &mut self,
        code: &CodeText<'_>,
        name: Span,
        target: usize,
        arguments: Many,
    ) -> Option<Calling> {
        if self.is_used(target) {
            self.fail(
                code,
                Trouble::said(
                    FaultName::GoesRound,
                    name.from,
                    "named code doesn't use itself, also not by other named code",
                ),
            );
            return None;
        }
        if self.is_full() {
            self.too_deep(code, name.from);
            return None;
        }
        let used = self.use_of(code, name.from);
        let parts = self.parts_of(code, target, used)?;
        self.check_count(code, name, code.count(arguments), parts, target);
        Some(Calling {
            target,
            of: parts.of,
            arguments,
            at: name.from,
            used,
            mark: self.gifts(),
        })
    }

    /// The parts of named code, or its fault, which stands in it.
    fn parts_of(&mut self, code: &CodeText<'_>, target: usize, used: usize) -> Option<Parts> {
        let named: &'a [Named<'a>] = self.named;
        match named.get(target) {
            Some(row) => match &row.tree {
                Ok(_) => row.parts(),
                Err(slip) => {
                    let inside = CodeText {
                        text: row.source.text.as_str(),
                        tree: code.tree,
                        code: Some(target),
                    };
                    self.used_at(used);
                    self.fail(&inside, Trouble::read(*slip));
                    None
                }
            },
            None => None,
        }
    }

    fn check_count(
        &mut self,
        code: &CodeText<'_>,
        name: Span,
        count: usize,
        parts: Parts,
        target: usize,
    ) {
        let wanted = match self.inside(target) {
            Some(inside) => inside.count(parts.parameters),
            None => count,
        };
        if wanted != count {
            self.fail(
                code,
                Trouble::said(
                    FaultName::WrongCount,
                    name.from,
                    "this named code has another number of parameters",
                ),
            );
        }
    }

    /// The text of named code.
    fn inside(&self, target: usize) -> Option<CodeText<'a>> {
        let named: &'a [Named<'a>] = self.named;
        match named.get(target) {
            Some(row) => match &row.tree {
                Ok(tree) => Some(CodeText {
                    text: row.source.text.as_str(),
                    tree,
                    code: Some(target),
                }),
                Err(_) => None,
            },
            None => None,
        }
    }

    /// The value of a named expression.
    #[cycle(value)]
    pub(crate) fn call(
        &mut self,
        code: &CodeText<'_>,
        name: Span,
        arguments: Many,
        left: usize,
    ) -> Draft {
        match self.calling(code, name, arguments, true) {
            Some(calling) => {
                let draft = self.called(code, calling, 0, left);
                self.take_back(calling.mark);
                draft
            }
            None => Draft::blank(),
        }
    }

    /// The arguments of a named expression from a place on, and what it is.
    #[cycle(value)]
    fn called(&mut self, code: &CodeText<'_>, calling: Calling, from: usize, left: usize) -> Draft {
        if left == 0 {
            self.too_deep(code, calling.at);
            return Draft::blank();
        }
        let Some(id) = code.child(calling.arguments, from) else {
            return self.written_out(calling, left - 1);
        };
        let value = self.given_value(code, id, left - 1);
        let rest = self.called(code, calling, from.saturating_add(1), left - 1);
        self.shallower();
        self.maker.bind(value, rest)
    }

    /// An argument of named code, which is the newest value from now on.
    #[cycle(value)]
    pub(crate) fn given_value(&mut self, code: &CodeText<'_>, id: Id, left: usize) -> Draft {
        let draft = self.expression(code, id, left);
        self.give(draft.facts.kind, draft.facts.bounds);
        self.as_value(draft)
    }

    /// A named expression, with its arguments in force.
    #[cycle(value)]
    fn written_out(&mut self, calling: Calling, left: usize) -> Draft {
        match self.inside(calling.target) {
            Some(inside) => {
                let back = self.step_in(&calling, &inside);
                let draft = self.expression(&inside, calling.of, left);
                self.step_out(back);
                draft
            }
            None => Draft::blank(),
        }
    }

    /// Named statements, as one.
    #[cycle(deed)]
    pub(crate) fn call_deed(
        &mut self,
        code: &CodeText<'_>,
        name: Span,
        arguments: Many,
        left: usize,
    ) -> Deed {
        match self.calling(code, name, arguments, false) {
            Some(calling) => {
                let deed = self.called_deed(code, calling, 0, left);
                self.take_back(calling.mark);
                self.maker.block(deed)
            }
            None => Deed::nothing(),
        }
    }

    /// The arguments of named statements from a place on, and what these are.
    #[cycle(deed)]
    fn called_deed(
        &mut self,
        code: &CodeText<'_>,
        calling: Calling,
        from: usize,
        left: usize,
    ) -> Deed {
        if left == 0 {
            self.too_deep(code, calling.at);
            return Deed::nothing();
        }
        let Some(id) = code.child(calling.arguments, from) else {
            return self.deed_written_out(calling, left - 1);
        };
        let value = self.given_value(code, id, left - 1);
        let rest = self.called_deed(code, calling, from.saturating_add(1), left - 1);
        self.shallower();
        self.maker.let_before(value, rest)
    }

    /// Named statements, with their arguments in force.
    #[cycle(deed)]
    fn deed_written_out(&mut self, calling: Calling, left: usize) -> Deed {
        match self.inside(calling.target) {
            Some(inside) => {
                let back = self.step_in(&calling, &inside);
                let deed = self.block_at(&inside, calling.of, left);
                self.step_out(back);
                self.maker.block(deed)
            }
            None => Deed::nothing(),
        }
    }
}
