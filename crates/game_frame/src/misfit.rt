//! Faults, told of a text by its bytes or of a member by its path.

use game_file::{Source, Unread};
use game_syntax::{Fault, FaultName, Form, Halt, Slip, Tree, place_in, read_code};
use std::alloc::{AllocError, Global};

/// A fault in a text of the file.
#[derive(Clone, Copy)]
pub struct Misfit {
    /// Its name.
    pub name: FaultName,
    /// The byte of the text where it stands.
    pub at: usize,
    /// What is wrong, and what to write.
    pub words: &'static str,
}

impl Misfit {
    /// A fault at a byte.
    pub fn new(name: FaultName, at: usize, words: &'static str) -> Misfit {
        Misfit { name, at, words }
    }

    /// A node of a tree that no type has.
    pub(crate) fn shape(at: usize) -> Misfit {
        Misfit::new(FaultName::Syntax, at, "a type is wanted here")
    }

    /// The fault as one of the member whose text it stands in.
    pub fn told(self, alloc: Global, source: &Source) -> Unread {
        match self.made(alloc, source) {
            Ok(fault) => Unread::Fault(fault),
            Err(_) => Unread::NoMemory,
        }
    }

    fn made(self, alloc: Global, source: &Source) -> Result<Fault, AllocError> {
        let path = source.path.clone()?;
        let words = String::from_str(alloc, self.words)?;
        Ok(Fault {
            name: self.name,
            path,
            place: Some(place_in(source.text.as_bytes(), self.at)),
            words,
        })
    }
}

/// The tree of a text of the file.
pub(crate) fn tree_of(alloc: Global, form: Form, source: &Source) -> Result<Tree, Unread> {
    match read_code(alloc, form, source.text.as_str()) {
        Ok(tree) => Ok(tree),
        Err(Halt::Memory) => Err(Unread::NoMemory),
        Err(Halt::Slip(slip)) => Err(slip_told(alloc, slip, source)),
    }
}

fn slip_told(alloc: Global, slip: Slip, source: &Source) -> Unread {
    match slip.told(alloc, source.path.as_str(), source.text.as_str()) {
        Ok(fault) => Unread::Fault(fault),
        Err(_) => Unread::NoMemory,
    }
}

/// A member of the file: the path of a table, and a member of it; one of both may be empty.
#[derive(Clone, Copy)]
pub(crate) struct At<'a> {
    pub(crate) path: &'a str,
    pub(crate) member: &'a str,
}

impl At<'_> {
    /// A member of the whole, or the whole where it is empty.
    pub(crate) fn whole(member: &str) -> At<'_> {
        At { path: "", member }
    }

    /// A fault of the member.
    pub(crate) fn fault(&self, alloc: Global, name: FaultName, words: &str) -> Unread {
        self.about(alloc, name, words, "")
    }

    /// A fault of the member that says a name behind its words.
    pub(crate) fn about(&self, alloc: Global, name: FaultName, words: &str, said: &str) -> Unread {
        match self.made(alloc, name, words, said) {
            Ok(fault) => Unread::Fault(fault),
            Err(_) => Unread::NoMemory,
        }
    }

    fn made(
        &self,
        alloc: Global,
        name: FaultName,
        words: &str,
        said: &str,
    ) -> Result<Fault, AllocError> {
        let path = self.joined(alloc)?;
        let words = format!(in alloc; "{words}{said}")?;
        Ok(Fault {
            name,
            path,
            place: None,
            words,
        })
    }

    fn joined(&self, alloc: Global) -> Result<String, AllocError> {
        let mut path = String::from_str(alloc, self.path)?;
        if !self.path.is_empty() && !self.member.is_empty() {
            path.push_str(".")?;
        }
        path.push_str(self.member)?;
        Ok(path)
    }
}
