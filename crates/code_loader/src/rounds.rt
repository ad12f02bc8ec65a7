//! What goes over rounds: `any`, `first` and the others, `len`, `find` and `has`.

use crate::drafter::Drafter;
use crate::slots::Wanted;
use crate::text::CodeText;
use crate::trouble::Trouble;
use code_draft::{Bounds, Draft, Kind, Span as Rounds, rounds_of};
use game_syntax::{Builtin, FaultName, Gathering, Hint, Id, Many, Shape, Span};
use slot_values::{Gather, Operator};

/// What is asked of each round, and by which binders.
#[derive(Clone, Copy)]
struct Asked {
    gathering: Gathering,
    binders: Many,
    body: Id,
}

/// `NAME in a..b`
#[derive(Clone, Copy)]
pub(crate) struct Within {
    pub(crate) name: Span,
    pub(crate) from: Id,
    pub(crate) to: Id,
    /// Whether the second end is the last one.
    pub(crate) last: bool,
}

/// What is sought in a list.
#[derive(Clone, Copy)]
struct Sought {
    list: Id,
    value: Id,
    gather: Gather,
}

impl Drafter<'_> {
    /// `any(.. : ..)` and the like.
    #[cycle(value)]
    pub(crate) fn round(
        &mut self,
        code: &CodeText<'_>,
        gathering: Gathering,
        binders: Many,
        body: Id,
        at: usize,
        left: usize,
    ) -> Draft {
        let asked = Asked {
            gathering,
            binders,
            body,
        };
        match gathering {
            Gathering::First | Gathering::Best => match one_span(code, binders) {
                Some(within) => self.one_round(code, within, asked, left),
                None => self.failed(
                    code,
                    Trouble::said(
                        FaultName::FirstWantsOneRange,
                        at,
                        "`first` and `best` go over one range, as in `first(i in 0..3: cells[i] == null)`",
                    ),
                ),
            },
            _ => self.rounds(code, asked, 0, left),
        }
    }

    #[cycle(value)]
    fn one_round(
        &mut self,
        code: &CodeText<'_>,
        within: Within,
        asked: Asked,
        left: usize,
    ) -> Draft {
        match asked.gathering {
            Gathering::Best => self.best(code, within, asked.body, left),
            _ => self.rounds(code, asked, 0, left),
        }
    }

    /// The binders from a place on, and what is asked inside of them.
    #[cycle(value)]
    fn rounds(&mut self, code: &CodeText<'_>, asked: Asked, from: usize, left: usize) -> Draft {
        if left == 0 {
            self.too_deep(code, code.at(asked.body));
            return Draft::blank();
        }
        let Some(id) = code.child(asked.binders, from) else {
            return self.question(code, asked, left - 1);
        };
        let next = from.saturating_add(1);
        match code.node(id).shape {
            Shape::Within(name, from, to, last) => {
                let within = Within {
                    name,
                    from,
                    to,
                    last,
                };
                self.over_span(code, asked, next, within, left - 1)
            }
            Shape::Among(name, list) => self.over_list(code, asked, next, (name, list), left - 1),
            _ => Draft::blank(),
        }
    }

    /// What is asked of a round.
    #[cycle(value)]
    fn question(&mut self, code: &CodeText<'_>, asked: Asked, left: usize) -> Draft {
        match asked.gathering {
            Gathering::Any | Gathering::All | Gathering::Count | Gathering::First => {
                self.condition(code, asked.body, left)
            }
            _ => self.number(code, asked.body, left),
        }
    }

    #[cycle(value)]
    fn over_span(
        &mut self,
        code: &CodeText<'_>,
        asked: Asked,
        next: usize,
        within: Within,
        left: usize,
    ) -> Draft {
        let span = self.span(code, within, left);
        self.enter(within.name, Kind::Number, span.bounds());
        let inner = self.rounds(code, asked, next, left);
        self.leave();
        let inner = self.counted(asked.gathering, inner);
        let draft = self.gathered(asked.gathering, span, inner);
        self.note_loop(code, within.name.from, draft.facts.cost.steps);
        draft
    }

    #[cycle(value)]
    fn over_list(
        &mut self,
        code: &CodeText<'_>,
        asked: Asked,
        next: usize,
        among: (Span, Id),
        left: usize,
    ) -> Draft {
        self.check_name(code, among.0);
        let span = self.places(code, among.1, left);
        self.deeper();
        let item = self.item_of(code, among.1, left);
        self.enter(among.0, item.facts.kind, item.facts.bounds);
        let inner = self.rounds(code, asked, next, left);
        self.leave();
        self.shallower();
        let inner = self.maker.bind(item, inner);
        let inner = self.counted(asked.gathering, inner);
        let draft = self.gathered(asked.gathering, span, inner);
        self.note_loop(code, among.0.from, draft.facts.cost.steps);
        draft
    }

    /// The span of a binder.
    #[cycle(value)]
    pub(crate) fn span(&mut self, code: &CodeText<'_>, within: Within, left: usize) -> Rounds {
        self.check_name(code, within.name);
        let from = self.number(code, within.from, left);
        let to = self.number(code, within.to, left);
        let past = if within.last { self.maker.past(to) } else { to };
        let rounds = match rounds_of(from.facts.bounds, past.facts.bounds) {
            Some(rounds) => rounds,
            None => self.unbounded(code, within.name.from),
        };
        Rounds { from, past, rounds }
    }

    fn unbounded(&mut self, code: &CodeText<'_>, at: usize) -> u32 {
        self.fail(
            code,
            Trouble::hinted(FaultName::Unbounded, at, Hint::GiveBound),
        );
        0
    }

    /// The places of a list.
    #[cycle(value)]
    pub(crate) fn places(&mut self, code: &CodeText<'_>, list: Id, left: usize) -> Rounds {
        let from = self.maker.number(0);
        let list = self.list(code, list, Wanted::List, left);
        let rounds = u32::from(list.facts.most);
        let past = self.maker.length(list);
        Rounds { from, past, rounds }
    }

    /// The item of a list at the place that is the newest value.
    #[cycle(value)]
    pub(crate) fn item_of(&mut self, code: &CodeText<'_>, list: Id, left: usize) -> Draft {
        let list = self.list(code, list, Wanted::List, left);
        let at = self.newest();
        let place = self.maker.item(list, at);
        self.maker.read(place)
    }

    /// The newest value, which is a number.
    fn newest(&mut self) -> Draft {
        self.maker.local(0, Kind::Number, Bounds::UNKNOWN)
    }

    /// What is counted: 1 or 0 for a condition, or the count of further binders.
    fn counted(&mut self, gathering: Gathering, inner: Draft) -> Draft {
        match gathering {
            Gathering::Count => self.as_value(inner),
            _ => inner,
        }
    }

    /// What is gathered over one binder.
    fn gathered(&mut self, gathering: Gathering, span: Rounds, inner: Draft) -> Draft {
        match gathering {
            Gathering::Any => self.maker.gather(Gather::Any, span, inner),
            Gathering::All => {
                let fails = self.maker.not(inner);
                let any = self.maker.gather(Gather::Any, span, fails);
                self.maker.not(any)
            }
            Gathering::Count | Gathering::Sum => self.maker.gather(Gather::Sum, span, inner),
            Gathering::Least => {
                let below = self.maker.negated(inner);
                let greatest = self.maker.gather(Gather::Greatest, span, below);
                self.maker.negated(greatest)
            }
            Gathering::Greatest => self.maker.gather(Gather::Greatest, span, inner),
            Gathering::First | Gathering::Best => self.maker.gather(Gather::First, span, inner),
        }
    }

    /// `best(NAME in a..b: e)`: the greatest as a value m, and then the first with it, if it is the only one.
    #[cycle(value)]
    fn best(&mut self, code: &CodeText<'_>, within: Within, body: Id, left: usize) -> Draft {
        if left == 0 {
            self.too_deep(code, code.at(body));
            return Draft::blank();
        }
        let greatest = self.best_round(code, within, body, Gather::Greatest, left - 1);
        self.deeper();
        let count = self.best_round(code, within, body, Gather::Sum, left - 1);
        let first = self.best_round(code, within, body, Gather::First, left - 1);
        self.shallower();
        self.best_of(greatest, count, first)
    }

    /// One of the three rounds of `best`.
    #[cycle(value)]
    fn best_round(
        &mut self,
        code: &CodeText<'_>,
        within: Within,
        body: Id,
        gather: Gather,
        left: usize,
    ) -> Draft {
        let span = self.span(code, within, left);
        self.enter(within.name, Kind::Number, span.bounds());
        let value = self.number(code, body, left);
        self.leave();
        let inner = match gather {
            Gather::Greatest => value,
            Gather::Sum => {
                let best = self.is_best(value);
                self.maker.one_or_zero(best)
            }
            _ => self.is_best(value),
        };
        self.maker.gather(gather, span, inner)
    }

    /// Whether a value is the one before the newest.
    fn is_best(&mut self, value: Draft) -> Draft {
        let best = self.maker.local(1, Kind::Number, Bounds::UNKNOWN);
        self.maker.operate(Operator::Equal, value, best)
    }

    /// The first with the greatest, if there is one and it is the only one.
    fn best_of(&mut self, greatest: Draft, count: Draft, first: Draft) -> Draft {
        let best = self.newest();
        let null = self.maker.null();
        let none = self.maker.operate(Operator::Equal, best, null);
        let some = self.maker.not(none);
        let one = self.maker.number(1);
        let alone = self.maker.operate(Operator::Equal, count, one);
        let test = self.maker.and(some, alone);
        let null = self.maker.null();
        let found = self.maker.choose(test, first, null, Kind::Number);
        self.maker.bind(greatest, found)
    }

    /// `len(..)` and the like.
    #[cycle(value)]
    pub(crate) fn built(
        &mut self,
        code: &CodeText<'_>,
        builtin: Builtin,
        arguments: Many,
        left: usize,
    ) -> Draft {
        let first = code.child(arguments, 0).unwrap_or(0);
        let second = code.child(arguments, 1).unwrap_or(0);
        match builtin {
            Builtin::Len => {
                let list = self.list(code, first, Wanted::List, left);
                self.maker.length(list)
            }
            Builtin::Find => self.found(code, sought_by(first, second, Gather::First), left),
            Builtin::Has => self.found(code, sought_by(first, second, Gather::Any), left),
            Builtin::Size => self.size(code, first, left),
            Builtin::Abs => self.magnitude(code, first, left),
            Builtin::Min => self.lesser(code, (first, second), Operator::Least, left),
            Builtin::Max => self.lesser(code, (first, second), Operator::Greatest, left),
        }
    }

    /// `size(t)`
    #[cycle(value)]
    fn size(&mut self, code: &CodeText<'_>, of: Id, left: usize) -> Draft {
        let text = self.expression(code, of, left);
        self.want_text(code, text.facts.kind, code.at(of));
        self.maker.size(text)
    }

    /// `abs(a)`
    #[cycle(value)]
    fn magnitude(&mut self, code: &CodeText<'_>, of: Id, left: usize) -> Draft {
        let value = self.number(code, of, left);
        let bounds = value.facts.bounds;
        let positive = self.maker.local(0, Kind::Number, bounds);
        let same = self.maker.local(0, Kind::Number, bounds);
        let negative = self.maker.negated(same);
        let greater = self.maker.operate(Operator::Greatest, positive, negative);
        self.maker.bind(value, greater)
    }

    /// `min(a, b)` and `max(a, b)`.
    #[cycle(value)]
    fn lesser(
        &mut self,
        code: &CodeText<'_>,
        of: (Id, Id),
        operator: Operator,
        left: usize,
    ) -> Draft {
        let a = self.number(code, of.0, left);
        let b = self.number(code, of.1, left);
        self.maker.operate(operator, a, b)
    }

    /// `find(l, v)` and `has(l, v)`.
    #[cycle(value)]
    fn found(&mut self, code: &CodeText<'_>, sought: Sought, left: usize) -> Draft {
        let (span, item) = self.sought_in(code, sought.list, left);
        let value = self.expression(code, sought.value, left);
        let at = code.at(sought.value);
        self.want_fitting(code, item.facts.kind, value.facts.kind, at);
        self.found_in(sought.gather, span, item, value)
    }

    /// The places and an item of a list, with the value that is sought in force.
    #[cycle(value)]
    fn sought_in(&mut self, code: &CodeText<'_>, list: Id, left: usize) -> (Rounds, Draft) {
        self.deeper();
        let span = self.places(code, list, left);
        self.deeper();
        let item = self.item_of(code, list, left);
        self.shallower();
        self.shallower();
        (span, item)
    }

    /// Where a value is found in a list, or whether it is.
    pub(crate) fn found_in(
        &mut self,
        gather: Gather,
        span: Rounds,
        item: Draft,
        value: Draft,
    ) -> Draft {
        let wanted = self.maker.local(1, value.facts.kind, value.facts.bounds);
        let same = self.maker.operate(Operator::Equal, item, wanted);
        let found = self.maker.gather(gather, span, same);
        self.maker.bind(value, found)
    }
}

fn sought_by(list: Id, value: Id, gather: Gather) -> Sought {
    Sought {
        list,
        value,
        gather,
    }
}

/// The one binder, if it goes over a range.
fn one_span(code: &CodeText<'_>, binders: Many) -> Option<Within> {
    if code.count(binders) != 1 {
        return None;
    }
    match code.child(binders, 0) {
        Some(id) => match code.node(id).shape {
            Shape::Within(name, from, to, last) => Some(Within {
                name,
                from,
                to,
                last,
            }),
            _ => None,
        },
        None => None,
    }
}
