//! Tokens: the words, numbers, texts and signs of a code text.

use crate::fault_name::FaultName;

/// A part of a text, by its bytes.
#[derive(Clone, Copy, PartialEq, Eq)]
pub struct Span {
    /// Its first byte.
    pub from: usize,
    /// The byte past its last.
    pub past: usize,
}

/// A word that names nothing else.
#[derive(Clone, Copy, PartialEq, Eq)]
pub enum Word {
    Let,
    Var,
    For,
    In,
    If,
    Else,
    Null,
    True,
    False,
    Me,
    Players,
    Secret,
    Order,
    Seat,
    Seats,
    Current,
    Turn,
    Moves,
    Pos,
    Phase,
}

/// A sign.
#[derive(Clone, Copy, PartialEq, Eq)]
pub enum Sign {
    /// `(`
    OpenRound,
    /// `)`
    CloseRound,
    /// `[`
    OpenSquare,
    /// `]`
    CloseSquare,
    /// `{`
    OpenCurly,
    /// `}`
    CloseCurly,
    /// `,`
    Comma,
    /// `;`
    Semicolon,
    /// `:`
    Colon,
    /// `?`
    Question,
    /// `.`
    Dot,
    /// `..`
    Through,
    /// `..<`
    Below,
    /// `=`
    Put,
    /// `==`
    Equal,
    /// `!=`
    Differs,
    /// `!`
    Not,
    /// `<`
    Less,
    /// `<=`
    AtMost,
    /// `>`
    Greater,
    /// `>=`
    AtLeast,
    /// `+`
    Plus,
    /// `-`
    Minus,
    /// `*`
    Times,
    /// `/`
    Over,
    /// `%`
    Rest,
    /// `&&`
    And,
    /// `||`
    Or,
    /// `=>`
    Arrow,
    /// `+=`
    PlusPut,
    /// `-=`
    MinusPut,
}

/// What a token is.
#[derive(Clone, Copy, PartialEq, Eq)]
pub enum TokenKind {
    /// A name.
    Name,
    /// A number of at most 2,147,483,648.
    Number(u32),
    /// A text in quotes; its bytes stand between them.
    Text,
    /// A sign.
    Sign(Sign),
    /// A word that names nothing else.
    Word(Word),
    /// What is no token, and why. Nothing is read behind it.
    Bad(FaultName),
    /// Where the text ends.
    End,
}

/// A token with its place.
#[derive(Clone, Copy, PartialEq, Eq)]
pub struct Token {
    /// What it is.
    pub kind: TokenKind,
    /// Where it stands.
    pub span: Span,
}
