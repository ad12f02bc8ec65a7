//! Named code: its heads, which are read of all, and its bodies, which count where they are used.

use crate::trouble::{Spot, Stop, Trouble, told};
use game_file::{CodeMember, GameFile, Source, Unread, is_taken};
use game_syntax::{FaultName, Form, Halt, Hint, Id, Many, Shape, Slip, Span, Tree, read_code};
use std::alloc::Global;

/// A named expression, or named statements.
#[derive(Drop)]
pub(crate) struct Named<'a> {
    pub(crate) name: &'a str,
    pub(crate) source: &'a Source,
    /// Whether it is an expression.
    pub(crate) is_value: bool,
    /// Its tree; none where it has a fault, which counts where it is used.
    pub(crate) tree: Result<Tree, Slip>,
}

/// All named code of a file.
#[derive(Drop)]
pub(crate) struct NamedCode<'a> {
    all: Vec<Named<'a>>,
}

/// Parameters, and what named code is.
#[derive(Clone, Copy)]
pub(crate) struct Parts {
    pub(crate) parameters: Many,
    pub(crate) of: Id,
}

impl<'a> NamedCode<'a> {
    /// The named code of a file, expressions first. A fault of a head is told here, one of a body where it is used.
    pub(crate) fn read(alloc: Global, file: &'a GameFile) -> Result<NamedCode<'a>, Unread> {
        let mut named = NamedCode {
            all: Vec::new(alloc),
        };
        match named.add_all(alloc, file) {
            Ok(()) => Ok(named),
            Err(unread) => {
                drop(named);
                Err(unread)
            }
        }
    }

    fn add_all(&mut self, alloc: Global, file: &'a GameFile) -> Result<(), Unread> {
        self.add_rows(alloc, file, file.names.functions.as_slice(), true)?;
        self.add_rows(alloc, file, file.names.procedures.as_slice(), false)
    }

    fn add_rows(
        &mut self,
        alloc: Global,
        file: &'a GameFile,
        rows: &'a [CodeMember],
        is_value: bool,
    ) -> Result<(), Unread> {
        for row in rows {
            check_head(alloc, file, &row.source)?;
            let tree = tree_of(alloc, &row.source, is_value)?;
            self.all.push(Named {
                name: row.name.as_str(),
                source: &row.source,
                is_value,
                tree,
            })?;
        }
        Ok(())
    }

    /// All of it, in order.
    pub(crate) fn as_slice(&self) -> &[Named<'a>] {
        self.all.as_slice()
    }
}

impl Named<'_> {
    /// Its parameters and what it is, where it has no fault.
    pub(crate) fn parts(&self) -> Option<Parts> {
        match &self.tree {
            Ok(tree) => parts_of(tree),
            Err(_) => None,
        }
    }
}

fn parts_of(tree: &Tree) -> Option<Parts> {
    match tree.node(tree.root) {
        Some(node) => match node.shape {
            Shape::Code(parameters, Some(of)) => Some(Parts { parameters, of }),
            _ => None,
        },
        None => None,
    }
}

/// The tree of named code, or its fault.
fn tree_of(alloc: Global, source: &Source, is_value: bool) -> Result<Result<Tree, Slip>, Unread> {
    let form = if is_value {
        Form::Function
    } else {
        Form::Procedure
    };
    match read_code(alloc, form, source.text.as_str()) {
        Ok(tree) => Ok(Ok(tree)),
        Err(Halt::Slip(slip)) => Ok(Err(slip)),
        Err(Halt::Memory) => Err(Unread::NoMemory),
    }
}

/// Refuses a head in another form, and parameters whose names mean something else.
fn check_head(alloc: Global, file: &GameFile, source: &Source) -> Result<(), Unread> {
    match read_code(alloc, Form::Head, source.text.as_str()) {
        Ok(tree) => {
            let trouble = head_trouble(file, source, &tree);
            drop(tree);
            match trouble {
                None => Ok(()),
                Some(trouble) => Err(told_plainly(alloc, trouble, source)),
            }
        }
        Err(Halt::Slip(slip)) => Err(told_plainly(alloc, Trouble::read(slip), source)),
        Err(Halt::Memory) => Err(Unread::NoMemory),
    }
}

fn told_plainly(alloc: Global, trouble: Trouble, source: &Source) -> Unread {
    let spot = Spot {
        at: trouble.at,
        code: None,
        used: 0,
    };
    told(alloc, Stop::Trouble(trouble, spot), source, &[])
}

/// What is wrong with the first parameter with which something is wrong.
fn head_trouble(file: &GameFile, source: &Source, tree: &Tree) -> Option<Trouble> {
    let ids = parameters_of(tree);
    for (place, id) in ids.iter().enumerate() {
        if let Some(name) = name_at(tree, *id) {
            if is_taken(&file.names, letters(source, name)) {
                return Some(Trouble::about(FaultName::NameTaken, Hint::Named, name));
            }
            if is_earlier(tree, source, ids.get(..place).unwrap_or(&[]), name) {
                return Some(Trouble::about(FaultName::NameTaken, Hint::TakenByLocal, name));
            }
        }
    }
    None
}

fn parameters_of(tree: &Tree) -> &[Id] {
    match tree.node(tree.root) {
        Some(node) => match node.shape {
            Shape::Code(parameters, _) => tree.many(parameters),
            _ => &[],
        },
        None => &[],
    }
}

/// The name that a node is.
fn name_at(tree: &Tree, id: Id) -> Option<Span> {
    match tree.node(id) {
        Some(node) => match node.shape {
            Shape::Name(name) => Some(name),
            _ => None,
        },
        None => None,
    }
}

/// Whether one of some parameters has a name.
fn is_earlier(tree: &Tree, source: &Source, earlier: &[Id], name: Span) -> bool {
    for id in earlier {
        if let Some(other) = name_at(tree, *id) {
            if letters(source, other) == letters(source, name) {
                return true;
            }
        }
    }
    false
}

fn letters(source: &Source, name: Span) -> &str {
    match source.text.as_bytes().get(name.from..name.past) {
        Some(bytes) => std::str::from_utf8(bytes).unwrap_or(""),
        None => "",
    }
}
