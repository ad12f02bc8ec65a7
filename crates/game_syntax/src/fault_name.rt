//! The names of errors in a description.

ghost use Rattle.std.specs.Prelude.{◌≡◌};
ghost use Rattle.game_syntax.specs.FaultWords.{fault_word};

use std::fmt;

/// The name of an error.
#[derive(Clone, Copy, PartialEq, Eq)]
pub enum FaultName {
    /// The file is no TOML.
    BadToml,
    /// A member is missing.
    MissingMember,
    /// A member isn't known.
    UnknownMember,
    /// A member has another type.
    BadType,
    /// A name has another form.
    BadName,
    /// A name is one of the words of code.
    ReservedName,
    /// A name means something else already.
    NameTaken,
    /// The number of seats is out of its limits.
    BadSeats,
    /// The limits of a turn or a spec contradict each other.
    BadLimits,
    /// An order can't be.
    BadOrder,
    /// Two phases start.
    TwoStarts,
    /// Too few of something.
    TooFew,
    /// Too many of something.
    TooMany,
    /// A turn of one move would be ended twice.
    EndsTwice,
    /// The scores are no list of numbers, one for each seat.
    BadScores,
    /// A phase isn't there.
    UnknownPhase,
    /// A stage isn't there.
    UnknownStage,
    /// A spec of active players isn't there.
    UnknownActive,
    /// A move isn't there.
    UnknownMove,
    /// An event isn't there.
    UnknownEvent,
    /// A name isn't there.
    UnknownName,
    /// Named code, or specs, come back to themselves.
    GoesRound,
    /// A character that code never has.
    BadCharacter,
    /// Code in another form.
    Syntax,
    /// A text of more than 64 bytes.
    LongText,
    /// A number of more than 32 bits.
    OutOfRange,
    /// A range without numbers.
    EmptyRange,
    /// A list of none or of more than 1,024 items.
    BadLength,
    /// A start or an offer outside of its range.
    StartOutsideRange,
    /// A number is wanted.
    WantsNumber,
    /// A condition is wanted.
    WantsCondition,
    /// A text is wanted.
    WantsText,
    /// A number or a text is wanted.
    WantsValue,
    /// A list is wanted.
    WantsList,
    /// Two kinds differ.
    KindsDiffer,
    /// A list is used as a value.
    ListNeedsIndex,
    /// A value is used as a list.
    NotAList,
    /// A list is used as a grid.
    NotAGrid,
    /// What is fixed is assigned.
    NotAssignable,
    /// A call with another number of arguments.
    WrongCount,
    /// `first` or `best` goes over something else than one range.
    FirstWantsOneRange,
    /// A die inside of an expression.
    DieNotHere,
    /// An end with none or two of its members.
    EndWantsOne,
    /// No seat is in sight.
    NoSeatHere,
    /// The context isn't in sight.
    NoContextHere,
    /// Slots of `work` are not in sight.
    NoWorkHere,
    /// What is hidden is not in sight.
    ReadsHidden,
    /// It isn't said whether others see the arguments.
    SayRedact,
    /// A span without a known bound.
    Unbounded,
    /// Too many steps.
    TooCostly,
    /// Too many random words.
    TooManyWords,
    /// Too many events.
    TooManyEvents,
    /// Too many offers.
    TooManyOffers,
    /// Too many vars and slots of `work`.
    TooManyVars,
    /// Too many nodes.
    TooMuchCode,
    /// Too many in one another.
    TooDeep,
    /// The text of a state may be too long.
    StateTooLong,
    /// A hint for what isn't there.
    BadShow,
}

impl FaultName {
    /// Its word, as authors read it.
    pub fn word(self) -> &'static str
        ensures { result.now ≡ fault_word self }
    {
        match self {
            FaultName::BadToml => "bad-toml",
            FaultName::MissingMember => "missing-member",
            FaultName::UnknownMember => "unknown-member",
            FaultName::BadType => "bad-type",
            FaultName::BadName => "bad-name",
            FaultName::ReservedName => "reserved-name",
            FaultName::NameTaken => "name-taken",
            FaultName::BadSeats => "bad-seats",
            FaultName::BadLimits => "bad-limits",
            FaultName::BadOrder => "bad-order",
            FaultName::TwoStarts => "two-starts",
            FaultName::TooFew => "too-few",
            FaultName::TooMany => "too-many",
            FaultName::EndsTwice => "ends-twice",
            FaultName::BadScores => "bad-scores",
            FaultName::UnknownPhase => "unknown-phase",
            FaultName::UnknownStage => "unknown-stage",
            FaultName::UnknownActive => "unknown-active",
            FaultName::UnknownMove => "unknown-move",
            FaultName::UnknownEvent => "unknown-event",
            FaultName::UnknownName => "unknown-name",
            FaultName::GoesRound => "goes-round",
            FaultName::BadCharacter => "bad-character",
            FaultName::Syntax => "syntax",
            FaultName::LongText => "long-text",
            FaultName::OutOfRange => "out-of-range",
            FaultName::EmptyRange => "empty-range",
            FaultName::BadLength => "bad-length",
            FaultName::StartOutsideRange => "start-outside-range",
            FaultName::WantsNumber => "wants-number",
            FaultName::WantsCondition => "wants-condition",
            FaultName::WantsText => "wants-text",
            FaultName::WantsValue => "wants-value",
            FaultName::WantsList => "wants-list",
            FaultName::KindsDiffer => "kinds-differ",
            FaultName::ListNeedsIndex => "list-needs-index",
            FaultName::NotAList => "not-a-list",
            FaultName::NotAGrid => "not-a-grid",
            FaultName::NotAssignable => "not-assignable",
            FaultName::WrongCount => "wrong-count",
            FaultName::FirstWantsOneRange => "first-wants-one-range",
            FaultName::DieNotHere => "die-not-here",
            FaultName::EndWantsOne => "end-wants-one",
            FaultName::NoSeatHere => "no-seat-here",
            FaultName::NoContextHere => "no-context-here",
            FaultName::NoWorkHere => "no-work-here",
            FaultName::ReadsHidden => "reads-hidden",
            FaultName::SayRedact => "say-redact",
            FaultName::Unbounded => "unbounded",
            FaultName::TooCostly => "too-costly",
            FaultName::TooManyWords => "too-many-words",
            FaultName::TooManyEvents => "too-many-events",
            FaultName::TooManyOffers => "too-many-offers",
            FaultName::TooManyVars => "too-many-vars",
            FaultName::TooMuchCode => "too-much-code",
            FaultName::TooDeep => "too-deep",
            FaultName::StateTooLong => "state-too-long",
            FaultName::BadShow => "bad-show",
        }
    }
}

impl fmt::Debug for FaultName {
    fn fmt<W: fmt::Write>(&self, f: &mut fmt::Formatter<W>) -> fmt::Result {
        f.write_str(self.word())
    }
}
