//! How long the text of a state may be.

use game_sheet::Text;
use game_slots::{ItemKind, SlotRow};
use slot_json::Layout;

/// How many bytes the text of a state has at most, by the rows of its slots.
pub fn state_bytes(layout: &Layout) -> u64 {
    let rows = &layout.rows;
    let common = object_bytes(layout.common.as_slice(), rows.common.as_slice());
    let entry = object_bytes(layout.players.as_slice(), rows.players.as_slice());
    let secret = object_bytes(layout.secret.as_slice(), rows.secret.as_slice());
    let entries = plus(times(plus(entry, 1), u64::from(rows.most_seats)), 2);
    let whole = part_bytes(rows.common.as_slice(), 10, common);
    let whole = plus(whole, part_bytes(rows.players.as_slice(), 11, entries));
    let whole = plus(whole, part_bytes(rows.secret.as_slice(), 10, secret));
    plus(whole, 2)
}

/// Bytes of a part as a member, if it has slots: those of its name with quotation marks, colon and comma, and its own.
fn part_bytes(rows: &[SlotRow], name: u64, bytes: u64) -> u64 {
    if rows.is_empty() {
        0
    } else {
        plus(name, bytes)
    }
}

/// Bytes of an object of slots.
fn object_bytes(names: &[Text], rows: &[SlotRow]) -> u64 {
    let mut bytes = 2;
    for (name, row) in names.iter().zip(rows.iter()) {
        let own = plus(name.as_str().len() as u64, 4);
        bytes = plus(bytes, plus(own, slot_bytes(row)));
    }
    bytes
}

fn slot_bytes(row: &SlotRow) -> u64 {
    let item = item_bytes(row);
    if row.lone {
        item
    } else {
        plus(times(plus(item, 1), u64::from(row.most)), 1)
    }
}

fn item_bytes(row: &SlotRow) -> u64 {
    let bytes = kind_bytes(&row.kind);
    if row.null { bytes.max(4) } else { bytes }
}

fn kind_bytes(kind: &ItemKind) -> u64 {
    match kind {
        ItemKind::Number { least, greatest } => number_bytes(*least).max(number_bytes(*greatest)),
        ItemKind::Text => 130,
    }
}

/// How many digits a number has, with its sign.
fn number_bytes(number: i32) -> u64 {
    let sign = u64::from(number < 0);
    plus(sign, digits(number.unsigned_abs()))
}

fn digits(number: u32) -> u64 {
    let mut rest = number;
    let mut count = 1;
    for _digit in 0..10 {
        if rest >= 10 {
            rest = rest / 10;
            count = plus(count, 1);
        }
    }
    count
}

fn plus(one: u64, other: u64) -> u64 {
    one.saturating_add(other)
}

fn times(one: u64, other: u64) -> u64 {
    one.saturating_mul(other)
}
