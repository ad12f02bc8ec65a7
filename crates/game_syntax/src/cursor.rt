//! A cursor over tokens, which makes the nodes of a tree.

use crate::called::{Called, called_of};
use crate::fault_name::FaultName;
use crate::hint::Hint;
use crate::slip::{Halt, Slip};
use crate::token::{Sign, Span, Token, TokenKind, Word};
use crate::tree::{Id, Many, Node, Shape, Tree};
use std::alloc::{AllocError, Global};

/// How many expressions and blocks stand in one another at most, and operands in a row.
pub const MOST_DEPTH: usize = 64;

/// What stands in the place of a node that an error left out.
pub const NO_NODE: Id = 0;

/// Where a text ends that has no tokens.
const END: Token = Token {
    kind: TokenKind::End,
    span: Span { from: 0, past: 0 },
};

/// A reader of one text.
#[derive(Drop)]
pub struct Reader<'a> {
    text: &'a [u8],
    tokens: &'a [Token],
    next: usize,
    /// The first error. Once there is one, the text seems to end.
    halt: Option<Halt>,
    nodes: Vec<Node>,
    /// Nodes that wait to become children of one node.
    waiting: Vec<Id>,
    children: Vec<Id>,
}

impl<'a> Reader<'a> {
    pub fn new(alloc: Global, text: &'a [u8], tokens: &'a [Token]) -> Reader<'a> {
        Reader {
            text,
            tokens,
            next: 0,
            halt: None,
            nodes: Vec::new(alloc),
            waiting: Vec::new(alloc),
            children: Vec::new(alloc),
        }
    }

    /// How often a list can go on: no more often than there are tokens.
    pub fn turns(&self) -> usize {
        self.tokens.len()
    }

    pub fn peek(&self) -> Token {
        self.ahead(0)
    }

    /// The token some places further.
    pub fn ahead(&self, places: usize) -> Token {
        if self.halted() {
            return END;
        }
        match self.tokens.get(self.next.saturating_add(places)) {
            Some(token) => *token,
            None => self.end(),
        }
    }

    fn end(&self) -> Token {
        match self.tokens.last() {
            Some(token) => *token,
            None => END,
        }
    }

    /// Whether there was an error.
    pub fn halted(&self) -> bool {
        self.halt.is_some()
    }

    /// An error, if it is the first one.
    pub fn fail(&mut self, slip: Slip) {
        if self.halt.is_none() {
            self.halt = Some(Halt::Slip(slip));
        }
    }

    fn no_memory(&mut self) {
        if self.halt.is_none() {
            self.halt = Some(Halt::Memory);
        }
    }

    /// An error in the place of a node.
    pub fn failed(&mut self, slip: Slip) -> Id {
        self.fail(slip);
        NO_NODE
    }

    /// That something else was wanted, in the place of a node.
    pub fn refused(&mut self, hint: Hint) -> Id {
        self.refuse(hint);
        NO_NODE
    }

    /// Too many in one another, in the place of a node.
    pub fn too_deep(&mut self) -> Id {
        let at = self.at();
        self.failed(Slip::plain(FaultName::TooDeep, at))
    }

    /// The token before the next one.
    fn before(&self) -> Token {
        match self.tokens.get(self.next.saturating_sub(1)) {
            Some(token) => *token,
            None => self.end(),
        }
    }

    /// Where the next token begins.
    pub fn at(&self) -> usize {
        self.peek().span.from
    }

    pub fn take(&mut self) -> Token {
        let token = self.peek();
        self.next = self.next.saturating_add(1);
        token
    }

    pub fn sees(&self, sign: Sign) -> bool {
        self.peek().kind == TokenKind::Sign(sign)
    }

    pub fn sees_word(&self, word: Word) -> bool {
        self.peek().kind == TokenKind::Word(word)
    }

    pub fn eat(&mut self, sign: Sign) -> bool {
        let found = self.sees(sign);
        if found {
            self.take();
        }
        found
    }

    pub fn eat_word(&mut self, word: Word) -> bool {
        let found = self.sees_word(word);
        if found {
            self.take();
        }
        found
    }

    /// The letters of a token.
    pub fn letters(&self, token: Token) -> &'a [u8] {
        self.text
            .get(token.span.from..token.span.past)
            .unwrap_or(&[])
    }

    /// What a name is called for, where it stands before a bracket.
    pub fn called(&self, token: Token) -> Option<Called> {
        called_of(self.letters(token))
    }

    /// Whether the next token is this name.
    pub fn sees_name(&self, name: &[u8]) -> bool {
        let token = self.peek();
        token.kind == TokenKind::Name && self.letters(token) == name
    }

    /// The error at the next token: its own, if it is no token; else that something else was wanted.
    pub fn refuse(&mut self, hint: Hint) {
        let slip = self.refusal(hint);
        self.fail(slip);
    }

    pub fn refusal(&self, hint: Hint) -> Slip {
        let token = self.peek();
        match token.kind {
            TokenKind::Bad(FaultName::Syntax) => Slip::hinted(
                FaultName::Syntax,
                token.span.from,
                Hint::TextEnd,
            ),
            TokenKind::Bad(name) => Slip::hinted(name, token.span.from, self.bad(token)),
            _ => Slip::hinted(FaultName::Syntax, token.span.from, hint),
        }
    }

    /// What to say of what is no token.
    fn bad(&self, token: Token) -> Hint {
        if self.letters(token) == b"#".as_slice() {
            Hint::Comment
        } else {
            Hint::Nothing
        }
    }

    pub fn expect(&mut self, sign: Sign, hint: Hint) {
        if !self.eat(sign) {
            self.refuse(hint);
        }
    }

    /// A semicolon; where it is missing the error stands behind the token before.
    pub fn semicolon(&mut self) {
        if self.eat(Sign::Semicolon) {
            return;
        }
        let slip = match self.peek().kind {
            TokenKind::Bad(_) => self.refusal(Hint::Semicolon),
            _ => Slip::hinted(FaultName::Syntax, self.before().span.past, Hint::Semicolon),
        };
        self.fail(slip);
    }

    pub fn expect_in(&mut self) {
        if !self.eat_word(Word::In) {
            self.refuse(Hint::In);
        }
    }

    /// A name that is none of the words of code.
    pub fn name(&mut self, hint: Hint) -> Span {
        let token = self.peek();
        if token.kind == TokenKind::Name {
            self.take();
        } else {
            self.refuse(hint);
        }
        token.span
    }

    /// Nothing may follow.
    pub fn finish(&mut self) {
        if self.peek().kind != TokenKind::End {
            let hint = self.left_over();
            self.refuse(hint);
        }
    }

    /// What to say of what follows an expression that is whole.
    fn left_over(&self) -> Hint {
        match self.peek().kind {
            TokenKind::Sign(Sign::Put) => Hint::OneEqual,
            TokenKind::Sign(Sign::Dot) => Hint::NoMember,
            TokenKind::Sign(Sign::OpenSquare) => Hint::Grid,
            _ => Hint::End,
        }
    }

    /// Makes a node.
    pub fn add(&mut self, shape: Shape, at: usize) -> Id {
        let id = self.nodes.len();
        match self.nodes.push(Node { shape, at }) {
            Ok(()) => {}
            Err(_) => self.no_memory(),
        }
        id
    }

    /// Where those begin that come to wait from now on.
    pub fn mark(&self) -> usize {
        self.waiting.len()
    }

    /// Lets a node wait for the node that it becomes a child of.
    pub fn wait(&mut self, id: Id) {
        match self.waiting.push(id) {
            Ok(()) => {}
            Err(_) => self.no_memory(),
        }
    }

    /// Those that wait since the mark become the children of one node.
    pub fn gather(&mut self, mark: usize) -> Many {
        let from = self.children.len();
        match move_from(&self.waiting, mark, &mut self.children) {
            Ok(()) => {}
            Err(_) => self.no_memory(),
        }
        self.waiting.truncate(mark);
        Many {
            from,
            past: self.children.len(),
        }
    }

    /// The first error, or the tree whose root is given.
    pub fn result(self, root: Id) -> Result<Tree, Halt> {
        let Reader {
            text: _,
            tokens: _,
            next: _,
            halt,
            nodes,
            waiting,
            children,
        } = self;
        drop(waiting);
        match halt {
            None => Ok(Tree {
                nodes,
                children,
                root,
            }),
            Some(halt) => {
                drop(nodes);
                drop(children);
                Err(halt)
            }
        }
    }
}

/// Adds those from a place on.
fn move_from(from: &[Id], mark: usize, to: &mut Vec<Id>) -> Result<(), AllocError> {
    for id in from.iter().skip(mark) {
        to.push(*id)?;
    }
    Ok(())
}
