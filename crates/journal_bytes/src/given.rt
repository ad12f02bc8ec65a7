//! Reads a source whole.

ghost use Rattle.std.specs.Prelude.{◌≡◌, ◌≤◌, [], length, Some, IsSome, IfOk, IfErr, OnOk};
ghost use Rattle.board_links.specs.Pieces.{told_bytes};
ghost use Rattle.journal_bytes.specs.Given.{GivesAll, IsNotGiven, NotGivenRaises};

use board_links::{Piece, Source};
use record_file::LONGEST;
use std::alloc::Global;

/// Why the bytes of a source weren't read.
#[derive(Clone, Copy)]
pub enum NotGiven {
    /// The source failed.
    ReadFault,
    /// It gives more than a journal may have.
    Long,
    /// There was no memory.
    NoMemory,
}

/// The bytes of a source, of which a journal may have 268,435,456.
pub fn all_bytes<S: Source>(alloc: Global, source: &mut S) -> Result<Vec<u8>, NotGiven>
    ensures never_falls { S.faults source.old ≤ S.faults source.new }
    ensures quiet { OnOk result (S.faults source.new ≡ S.faults source.old) }
    ensures raises { IfErr result (λ e. NotGivenRaises e (S.faults source.old) (S.faults source.new)) }
    ensures few { IfOk result (λ v. length v.items ≤ 268435456) }
    ensures gives { IsSome (S.left source.old) → IfOk result (λ v. GivesAll v.items (told_bytes (S.left source.old)) (S.left source.new)) }
    ensures refused { IsSome (S.left source.old) → IfErr result (λ e. IsNotGiven e (told_bytes (S.left source.old))) }
{
    let mut bytes = Vec::new(alloc);
    let mut room = [0; 4096];
    'source: while bytes.len() as u64 <= LONGEST {
        match source.next(&mut room) {
            Piece::Got(n) => match bytes.extend_from_slice(&room[..n]) {
                Ok(()) => {}
                Err(_) => return Err(NotGiven::NoMemory),
            },
            Piece::End => return Ok(bytes),
            Piece::Failed => return Err(NotGiven::ReadFault),
        }
    }
    Err(NotGiven::Long)
}
