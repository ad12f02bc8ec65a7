//! Want of memory, the one answer that no rule explains.

use std::alloc::{AllocError, AllocFailed};
use std::fmt;

/// The call asked for memory that wasn't there. Unless a call says otherwise, all is then as before it.
#[derive(Clone, Copy, Debug)]
pub struct NoMemory;

impl fmt::Display for NoMemory {
    ghost use Rattle.std.specs.Prelude.{Some, codes};

    ghost output = { λ _. Some (codes "no memory") };

    fn fmt<W: fmt::Write>(&self, f: &mut fmt::Formatter<W>) -> fmt::Result {
        write!(f, "no memory")
    }
}

impl From<AllocError> for NoMemory {
    fn from(_error: AllocError) -> Self {
        NoMemory
    }
}

impl<T: Drop> From<AllocFailed<T>> for NoMemory {
    fn from(_error: AllocFailed<T>) -> Self {
        NoMemory
    }
}
