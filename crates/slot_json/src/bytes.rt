//! How long the texts of states may be.

ghost use Rattle.std.specs.Prelude.{◌≡◌, ◌≤◌, ◌+◌, ◌*◌, codes, max, nat_le, true};
ghost use Rattle.slot_json.specs.TableForms.{layout_fits};
ghost use Rattle.slot_json.specs.TextBytes.{HasShortTexts, digits, item_bytes, kind_bytes, most_bytes, number_bytes, object_bytes, part_bytes, rows_bytes, slot_bytes, taken, text_limit};

use crate::layout::Layout;
use crate::rows::{has_slots, rest_of};
use game_sheet::Text;
use game_slots::{ItemKind, SlotRow};

/// Whether by the rows of the slots the text of each state has at most 8,192 bytes.
pub fn text_fits(layout: &Layout) -> bool
    ensures value { result ≡ nat_le (most_bytes layout.now) text_limit }
    ensures short { layout_fits layout.now ≡ true → result ≡ true → HasShortTexts layout.now }
{
    bytes_fit(layout)
}

/// Whether all parts and the two brackets have at most so many bytes.
fn bytes_fit(layout: &Layout) -> bool
    ensures { result ≡ nat_le (most_bytes layout.now) text_limit }
{
    let left = common_taken(Some(8190), layout);
    let left = players_taken(left, layout);
    secret_taken(left, layout).is_some()
}

/// What is left without the part that all see.
#[tactic(auto, using(crate::proofs::TakenLaws::taken_more))]
fn common_taken(left: Option<u64>, layout: &Layout) -> Option<u64>
    ensures { result ≡ taken left (part_bytes layout.now.rows.common (codes "common") (object_bytes layout.now.common layout.now.rows.common)) }
{
    let rows = layout.rows.common.as_slice();
    if has_slots(rows) {
        taken(rows_taken(left, layout.common.as_slice(), rows), 12)
    } else {
        taken(left, 0)
    }
}

/// What is left without the parts of the seats.
#[tactic(auto, using(crate::proofs::TakenLaws::taken_more))]
fn players_taken(left: Option<u64>, layout: &Layout) -> Option<u64>
    ensures { result ≡ taken left (part_bytes layout.now.rows.players (codes "players") ((object_bytes layout.now.players layout.now.rows.players + 1) * layout.now.rows.most_seats + 2)) }
{
    let rows = layout.rows.players.as_slice();
    if has_slots(rows) {
        let names = layout.players.as_slice();
        taken(entries_taken(left, names, rows, layout.rows.most_seats), 13)
    } else {
        taken(left, 0)
    }
}

/// What is left without the part that nobody sees.
#[tactic(auto, using(crate::proofs::TakenLaws::taken_more))]
fn secret_taken(left: Option<u64>, layout: &Layout) -> Option<u64>
    ensures { result ≡ taken left (part_bytes layout.now.rows.secret (codes "secret") (object_bytes layout.now.secret layout.now.rows.secret)) }
{
    let rows = layout.rows.secret.as_slice();
    if has_slots(rows) {
        taken(rows_taken(left, layout.secret.as_slice(), rows), 12)
    } else {
        taken(left, 0)
    }
}

/// What is left without so many equal objects, each with a comma.
fn entries_taken(left: Option<u64>, names: &[Text], rows: &[SlotRow], seats: u8) -> Option<u64>
    ensures { result ≡ taken left ((object_bytes names.now rows.now + 1) * seats) }
{
    if seats == 0 {
        return taken(left, 0);
    }
    let left = taken(rows_taken(left, names, rows), 3);
    entries_taken(left, names, rows, seats - 1)
}

/// What is left without the members of these slots.
#[tactic(auto, using(crate::proofs::TakenLaws::taken_more))]
fn rows_taken(left: Option<u64>, names: &[Text], rows: &[SlotRow]) -> Option<u64>
    ensures { result ≡ taken left (rows_bytes names.now rows.now) }
{
    match (names, rows) {
        ([name, ..], [row, ..]) => {
            let left = taken(left, name.as_str().len() as u64);
            let left = slot_taken(taken(left, 4), row);
            rows_taken(left, rest_of(names), rest_of(rows))
        }
        _ => taken(left, 0),
    }
}

#[tactic(auto, using(crate::proofs::TakenLaws::taken_more))]
fn slot_taken(left: Option<u64>, row: &SlotRow) -> Option<u64>
    ensures { result ≡ taken left (slot_bytes row.now) }
{
    let bytes = item_bytes(row);
    if row.lone {
        taken(left, u64::from(bytes))
    } else {
        taken(taken(left, times(bytes + 1, u32::from(row.most))), 1)
    }
}

/// What is left once so many bytes are taken, where there are so many.
fn taken(left: Option<u64>, bytes: u64) -> Option<u64>
    ensures { result ≡ taken left bytes }
{
    match left {
        Some(left) => {
            if bytes <= left {
                Some(left - bytes)
            } else {
                None
            }
        }
        None => None,
    }
}

fn times(x: u32, y: u32) -> u64
    ensures { result ≡ x * y }
{
    u64::from(x) * u64::from(y)
}

fn item_bytes(row: &SlotRow) -> u32
    ensures value { result ≡ item_bytes row.now }
    ensures most { result ≤ 130 }
{
    let bytes = kind_bytes(&row.kind);
    if row.null { greater(4, bytes) } else { bytes }
}

fn kind_bytes(kind: &ItemKind) -> u32
    ensures value { result ≡ kind_bytes kind.now }
    ensures most { result ≤ 130 }
{
    match kind {
        ItemKind::Number { least, greatest } => {
            greater(number_bytes(*least), number_bytes(*greatest))
        }
        ItemKind::Text => 130,
    }
}

fn greater(x: u32, y: u32) -> u32
    ensures { result ≡ max x y }
{
    if x <= y { y } else { x }
}

/// How many digits a number has, with its sign.
fn number_bytes(number: i32) -> u32
    ensures value { result ≡ number_bytes number }
    ensures most { result ≤ 11 }
{
    let count = digits(number.unsigned_abs());
    if number < 0 { count + 1 } else { count }
}

fn digits(n: u32) -> u32
    ensures value { result ≡ digits n }
    ensures most { result ≤ 10 }
{
    if n < 10 {
        1
    } else if n < 100 {
        2
    } else if n < 1_000 {
        3
    } else if n < 10_000 {
        4
    } else if n < 100_000 {
        5
    } else if n < 1_000_000 {
        6
    } else if n < 10_000_000 {
        7
    } else if n < 100_000_000 {
        8
    } else if n < 1_000_000_000 {
        9
    } else {
        10
    }
}
