//! Reading a whole text.

use crate::cursor::{MOST_DEPTH, Reader};
use crate::lexer::read_tokens;
use crate::slip::Halt;
use crate::token::Token;
use crate::tree::{Id, Shape, Tree};
use std::alloc::Global;

/// What a text is read as.
#[derive(Clone, Copy, PartialEq, Eq)]
pub enum Form {
    /// A condition or a value.
    Expression,
    Statements,
    /// A named expression.
    Function,
    /// Named statements.
    Procedure,
    /// Named code of which no more than its head is read.
    Head,
    Slot,
    /// An argument of a move, or arguments in a list.
    Arguments,
}

/// The tree of a text, or its first error.
pub fn read_code(alloc: Global, form: Form, text: &str) -> Result<Tree, Halt> {
    let text = text.as_bytes();
    match read_tokens(alloc, text) {
        Ok(tokens) => {
            let result = tree_of(alloc, form, text, &tokens);
            drop(tokens);
            result
        }
        Err(_) => Err(Halt::Memory),
    }
}

/// The tree of tokens.
fn tree_of(alloc: Global, form: Form, text: &[u8], tokens: &[Token]) -> Result<Tree, Halt> {
    let mut reader = Reader::new(alloc, text, tokens);
    let root = reader.part(form);
    if form != Form::Head {
        reader.finish();
    }
    reader.result(root)
}

impl<'a> Reader<'a> {
    /// The root of what is read in this form.
    fn part(&mut self, form: Form) -> Id {
        match form {
            Form::Expression => self.body(MOST_DEPTH),
            Form::Statements => self.statements(MOST_DEPTH),
            Form::Function | Form::Procedure | Form::Head => self.code(form),
            Form::Slot => self.slot(),
            Form::Arguments => self.move_arguments(),
        }
    }

    /// Named code: its head, and what it is.
    fn code(&mut self, form: Form) -> Id {
        let at = self.at();
        let parameters = self.head();
        let of = match form {
            Form::Function => Some(self.body(MOST_DEPTH)),
            Form::Procedure => Some(self.block(MOST_DEPTH)),
            _ => None,
        };
        self.add(Shape::Code(parameters, of), at)
    }
}
