//! Words that are called, taken as such before a bracket alone.

/// What gathers over rounds.
#[derive(Clone, Copy, PartialEq, Eq)]
pub enum Gathering {
    Any,
    All,
    Count,
    Sum,
    Least,
    Greatest,
    First,
    Best,
}

/// What is called for a value.
#[derive(Clone, Copy, PartialEq, Eq)]
pub enum Builtin {
    Len,
    Find,
    Has,
    Size,
    Abs,
    Min,
    Max,
}

/// What changes a list.
#[derive(Clone, Copy, PartialEq, Eq)]
pub enum Change {
    Push,
    Fill,
    Remove,
    Clear,
    Shuffle,
}

/// What puts an event into the queue.
#[derive(Clone, Copy, PartialEq, Eq)]
pub enum EventWord {
    EndTurn,
    EndPhase,
    EndStage,
    Draw,
    End,
    Win,
    SetPhase,
    SetStage,
    SetActive,
}

/// A word that is called.
#[derive(Clone, Copy, PartialEq, Eq)]
pub enum Called {
    Gathering(Gathering),
    Builtin(Builtin),
    Change(Change),
    Event(EventWord),
    Die,
}

/// The words that are called.
static CALLED: [(&str, Called); 30] = [
    ("any", Called::Gathering(Gathering::Any)),
    ("all", Called::Gathering(Gathering::All)),
    ("count", Called::Gathering(Gathering::Count)),
    ("sum", Called::Gathering(Gathering::Sum)),
    ("least", Called::Gathering(Gathering::Least)),
    ("greatest", Called::Gathering(Gathering::Greatest)),
    ("first", Called::Gathering(Gathering::First)),
    ("best", Called::Gathering(Gathering::Best)),
    ("len", Called::Builtin(Builtin::Len)),
    ("find", Called::Builtin(Builtin::Find)),
    ("has", Called::Builtin(Builtin::Has)),
    ("size", Called::Builtin(Builtin::Size)),
    ("abs", Called::Builtin(Builtin::Abs)),
    ("min", Called::Builtin(Builtin::Min)),
    ("max", Called::Builtin(Builtin::Max)),
    ("push", Called::Change(Change::Push)),
    ("fill", Called::Change(Change::Fill)),
    ("remove", Called::Change(Change::Remove)),
    ("clear", Called::Change(Change::Clear)),
    ("shuffle", Called::Change(Change::Shuffle)),
    ("endTurn", Called::Event(EventWord::EndTurn)),
    ("endPhase", Called::Event(EventWord::EndPhase)),
    ("endStage", Called::Event(EventWord::EndStage)),
    ("draw", Called::Event(EventWord::Draw)),
    ("end", Called::Event(EventWord::End)),
    ("win", Called::Event(EventWord::Win)),
    ("setPhase", Called::Event(EventWord::SetPhase)),
    ("setStage", Called::Event(EventWord::SetStage)),
    ("setActive", Called::Event(EventWord::SetActive)),
    ("die", Called::Die),
];

/// The word of a name, if it is one that is called.
pub fn called_of(name: &[u8]) -> Option<Called> {
    for (text, called) in &CALLED {
        if text.as_bytes() == name {
            return Some(*called);
        }
    }
    None
}

impl Builtin {
    /// How many arguments it has.
    pub fn arguments(self) -> usize {
        match self {
            Builtin::Len | Builtin::Size | Builtin::Abs => 1,
            Builtin::Find | Builtin::Has | Builtin::Min | Builtin::Max => 2,
        }
    }
}

impl Change {
    /// How many arguments it has.
    pub fn arguments(self) -> usize {
        match self {
            Change::Push | Change::Fill | Change::Remove => 2,
            Change::Clear | Change::Shuffle => 1,
        }
    }
}
