//! Lines as far as they are there.

ghost use Rattle.std.specs.Prelude.{IfSome, MatchOption};
ghost use Rattle.board_links.specs.Answers.{IsWithin};
ghost use Rattle.tcp_links.specs.Cuts.{Comes, Grows, IsPart};

use board_links::Came;
use std::io::Read;
use std::sync::Wait;
use tcp_links::{Cut, Fill, LineBuffer};

/// The next line, of at most `limit` bytes. It reads until a line stands or the reader has no more for now; a line that passes the limit
/// ends the reading too.
pub(crate) fn come<T: Read, R: Wait>(
    rt: &R,
    lines: &mut LineBuffer,
    reader: &mut T,
    limit: u32,
) -> Came
    ensures comes { Comes limit result lines.old lines.new }
    ensures within { IsWithin limit result }
{
    for _ in rt.forever() {
        if let Some(came) = look(lines, reader, limit) {
            return came;
        }
    }
    unreachable!()
}

/// What came, where a whole line stands or one read tells; none where another look may bring more.
fn look<T: Read>(lines: &mut LineBuffer, reader: &mut T, limit: u32) -> Option<Came>
    ensures comes { MatchOption result (Grows lines.old lines.new) (λ came. Comes limit came lines.old lines.new) }
    ensures within { IfSome result (IsWithin limit) }
{
    match lines.cut(limit) {
        Cut::Line(line) => Some(Came::Line(line)),
        Cut::TooLong => Some(Came::TooLong),
        Cut::NoMemory => Some(Came::NoMemory),
        Cut::Part => read(lines, reader, limit),
    }
}

/// What one read tells where no whole line stands; none where it brought bytes.
fn read<T: Read>(lines: &mut LineBuffer, reader: &mut T, _limit: u32) -> Option<Came>
    requires { IsPart _limit lines.old }
    ensures comes { MatchOption result (Grows lines.old lines.new) (λ came. Comes _limit came lines.old lines.new) }
    ensures within { IfSome result (IsWithin _limit) }
{
    match lines.fill(reader) {
        Fill::Some => None,
        Fill::Nothing => Some(Came::Quiet),
        Fill::Ended => Some(Came::Ended),
        Fill::Failed => Some(Came::Failed),
        Fill::NoMemory => Some(Came::NoMemory),
    }
}
