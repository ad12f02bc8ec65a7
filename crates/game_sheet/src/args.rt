//! The arguments of a move.

ghost use Rattle.std.specs.Prelude.{◌≡◌, ◌<◌, ◌≤◌, ◌∷◌, ◌++◌, [], length};

use crate::short::Short;
use std::marker::Model;

/// One argument: a whole number of 32 bits with sign, or a short text.
#[derive(Clone, Copy, PartialEq, Eq)]
pub enum Arg {
    /// A whole number.
    Whole(i32),
    /// A text.
    Text(Short),
}

/// At most eight arguments. Contracts see their list.
pub struct Args {
    items: [Arg; 8],
    len: usize,
}

impl Drop for Args {
    fn drop(self) {
        let Args { items: _, len: _ } = self;
    }
}

impl Model for Args {
    ghost use Rattle.std.specs.Prelude.{List, take, ◌≤◌};
    ghost use Rattle.game_sheet.specs.declared.args.Arg.{Arg};

    ghost Value = { List Arg };

    ghost view = { λ a. take a.len a.items };

    ghost invariant = { λ a. a.len ≤ 8 };
}

impl Args {
    /// The greatest count of arguments.
    pub const MOST: usize = 8;

    /// No arguments.
    pub fn new() -> Self
        ensures { result ≡ [] }
    {
        Args {
            items: [Arg::Whole(0); 8],
            len: 0,
        }
    }

    /// How many arguments there are, at most 8.
    pub fn len(&self) -> usize
        ensures count { result ≡ length self.now }
        ensures most { result ≤ 8 }
    {
        self.as_slice().len()
    }

    /// The arguments in order.
    pub fn as_slice(&self) -> &[Arg]
        ensures value { result.now ≡ self.now }
        ensures most { length self.now ≤ 8 }
    {
        &self.items[..self.len]
    }

    /// Adds an argument at the end.
    pub fn push(&mut self, argument: Arg)
        requires { length self.old < 8 }
        ensures { self.new ≡ self.old ++ argument ∷ [] }
    {
        self.items[self.len] = argument;
        self.len += 1;
    }

    /// Equal arguments.
    pub fn copy(&self) -> Self
        ensures { result ≡ self.now }
    {
        let mut copied = Args::new();
        for argument in self.as_slice() {
            copied.push(*argument);
        }
        copied
    }
}
