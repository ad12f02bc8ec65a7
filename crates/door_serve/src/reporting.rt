//! Prints what a server reports at its end. It takes no memory.

ghost use Rattle.std.specs.Prelude.{◌≡◌, ◌≤◌, ◌+◌, ◌++◌, List, IsSome, length};
ghost use Rattle.board_links.specs.Pieces.{WriteRaises, Writes, told_bytes};
ghost use Rattle.door_serve.specs.Report.{line_text, number_text, report, rooms_text, row_text, sessions_text, stopped_text};
ghost use Rattle.door_serve.specs.Rooms.{Calls, Numbered, Stand, hosted, rows_of};

use any_game::AnyGame;
use arrayvec::ArrayString;
use board_links::{Put, Sink};
use game_sheet::Number;
use hosted_room::HostedRoom;
use itoa::Buffer;

/// The line that says how many sessions there were.
fn sessions_line(count: u64) -> ArrayString<64>
    ensures { result.bytes ≡ sessions_text count }
{
    let mut line = ArrayString::new();
    let mut digits = Buffer::new();
    line.push_str("sessions ");
    line.push_str(digits.format(count));
    line.push_str("\n");
    line
}

/// The line of a room that has had so many matches, of which one may stand with this state number; nothing where it has had none.
fn match_line(room: u8, serial: u64, number: Option<Number>) -> ArrayString<64>
    requires { room ≤ 63 }
    ensures { result.bytes ≡ row_text room serial number }
{
    if serial == 0 {
        return ArrayString::new();
    }
    let mut line = ArrayString::new();
    let mut rooms = Buffer::new();
    let mut serials = Buffer::new();
    line.push_str("room ");
    line.push_str(rooms.format(room));
    line.push_str(" serial ");
    line.push_str(serials.format(serial));
    line.push_str(" number ");
    push_number(&mut line, number);
    line.push_str("\n");
    line
}

/// The line of a room that has stopped.
fn stopped_line(room: u8) -> ArrayString<64>
    ensures { result.bytes ≡ stopped_text room }
{
    let mut line = ArrayString::new();
    let mut rooms = Buffer::new();
    line.push_str("room ");
    line.push_str(rooms.format(room));
    line.push_str(" stopped\n");
    line
}

/// The line of a room by its row.
fn room_line(room: u8, row: Option<(u64, Option<Number>)>) -> ArrayString<64>
    requires { room ≤ 63 }
    ensures { result.bytes ≡ line_text room row }
{
    match row {
        Some((serial, number)) => match_line(room, serial, number),
        None => stopped_line(room),
    }
}

fn push_number(line: &mut ArrayString<64>, number: Option<Number>)
    requires { length line.old.bytes ≤ 50 }
    ensures text { line.new.bytes ≡ line.old.bytes ++ number_text number }
    ensures len { length line.new.bytes ≤ 60 }
{
    match number {
        None => line.push_str("-"),
        Some(number) => {
            let mut digits = Buffer::new();
            line.push_str(digits.format(number));
        }
    }
}

/// Puts bytes into a sink, unless there are none.
fn print<K: Sink>(sink: &mut K, bytes: &[u8]) -> Put
    ensures never_falls { K.faults sink.old ≤ K.faults sink.new }
    ensures raises { WriteRaises result (K.faults sink.old) (K.faults sink.new) }
    ensures tells { IsSome (K.held sink.old) → IsSome (K.held sink.new) }
    ensures told { IsSome (K.held sink.old) → Writes result bytes.now (told_bytes (K.held sink.old)) (K.held sink.new) }
{
    if bytes.is_empty() {
        return Put::Done;
    }
    sink.put(bytes)
}

/// Prints the lines of these rooms, which are numbered from `room` on.
fn print_rooms<B: HostedRoom<AnyGame>, K: Sink>(sink: &mut K, room: u8, rooms: &[B]) -> Put
    requires { room + length rooms.now ≤ 64 }
    ensures never_falls { K.faults sink.old ≤ K.faults sink.new }
    ensures raises { WriteRaises result (K.faults sink.old) (K.faults sink.new) }
    ensures tells { IsSome (K.held sink.old) → IsSome (K.held sink.new) }
    ensures told { let known = hosted B.number B.stands_for B.has_stopped in IsSome (K.held sink.old)
        → (histories : List Calls) → Stand B.stands_for rooms.now histories → Numbered B.number room rooms.now
        → Writes result (rooms_text room (rows_of known rooms.now histories)) (told_bytes (K.held sink.old)) (K.held sink.new) }
{
    let [first, rest @ ..] = rooms else {
        return Put::Done;
    };
    let line = room_line(room, first.row());
    match print(sink, line.as_bytes()) {
        Put::Done => print_rooms(sink, room + 1, rest),
        Put::Failed => Put::Failed,
    }
}

/// Prints the whole report.
pub(crate) fn print_report<B: HostedRoom<AnyGame>, K: Sink>(
    sink: &mut K,
    count: u64,
    rooms: &[B],
) -> Put
    requires { length rooms.now ≤ 64 }
    ensures never_falls { K.faults sink.old ≤ K.faults sink.new }
    ensures raises { WriteRaises result (K.faults sink.old) (K.faults sink.new) }
    ensures told { let known = hosted B.number B.stands_for B.has_stopped in IsSome (K.held sink.old)
        → (histories : List Calls) → Stand B.stands_for rooms.now histories → Numbered B.number 0 rooms.now
        → Writes result (report count (rows_of known rooms.now histories)) (told_bytes (K.held sink.old)) (K.held sink.new) }
{
    match print(sink, sessions_line(count).as_bytes()) {
        Put::Done => print_rooms(sink, 0, rooms),
        Put::Failed => Put::Failed,
    }
}
