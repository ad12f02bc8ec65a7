//! Which names and rows make a form.

ghost use Rattle.std.specs.Prelude.{◌≡◌, ◌≤◌, drop, length, true};
ghost use Rattle.std.specs.List.{list_all};
ghost use Rattle.open_game.specs.Form.{StateLaws};
ghost use Rattle.slot_json.specs.SlotForms.{below_first, is_name_byte, kind_fits, most_fits, row_fits, rows_fit};
ghost use Rattle.slot_json.specs.TableForms.{has_slots, layout_fits, table_form};

use crate::layout::Layout;
use game_sheet::Text;
use game_slots::{ItemKind, SlotRow};
use std::cmp::Ordering;

/// Whether the names and rows of each part make a form: the names rise and are of letters, digits and `_`, numbers have 32 bits, and a slot may hold an item.
/// Then the laws of a game hold of the states' form.
pub fn layout_fits(layout: &Layout) -> bool
    ensures value { result ≡ layout_fits layout.now }
    ensures lawful { result ≡ true → StateLaws (table_form layout.now) }
{
    parts_fit(layout)
}

fn parts_fit(layout: &Layout) -> bool
    ensures { result ≡ layout_fits layout.now }
{
    rows_fit(layout.common.as_slice(), layout.rows.common.as_slice())
        && rows_fit(layout.players.as_slice(), layout.rows.players.as_slice())
        && rows_fit(layout.secret.as_slice(), layout.rows.secret.as_slice())
}

/// Whether there are as many names as rows, which rise, and each row fits.
pub(crate) fn rows_fit(names: &[Text], rows: &[SlotRow]) -> bool
    ensures { result ≡ rows_fit names.now rows.now }
{
    match (names, rows) {
        ([name, ..], [row, ..]) => {
            is_name(name.as_str())
                && below_first(name.as_str(), rest_of(names))
                && row_fits(row)
                && rows_fit(rest_of(names), rest_of(rows))
        }
        _ => names.is_empty() && rows.is_empty(),
    }
}

/// Whether a part has slots.
pub(crate) fn has_slots(rows: &[SlotRow]) -> bool
    ensures { result ≡ has_slots rows.now }
{
    match rows {
        [_, ..] => true,
        [] => false,
    }
}

/// All but the first.
pub(crate) fn rest_of<T>(items: &[T]) -> &[T]
    requires { 1 ≤ length items.now }
    ensures { result.now ≡ drop 1 items.now }
{
    &items[1..]
}

/// Whether a name is of letters, digits and `_`.
fn is_name(name: &str) -> bool
    ensures { result ≡ list_all is_name_byte name.now }
{
    name.as_bytes().iter().all(|byte| is_name_byte(*byte))
}

fn is_name_byte(byte: u8) -> bool
    ensures { result ≡ is_name_byte byte }
{
    (48 <= byte && byte <= 57)
        || (65 <= byte && byte <= 90)
        || byte == 95
        || (97 <= byte && byte <= 122)
}

/// Whether a name stands below the first of these, where there is one.
fn below_first(name: &str, names: &[Text]) -> bool
    ensures { result ≡ below_first name.now names.now }
{
    match names {
        [next, ..] => name.cmp(next.as_str()) == Ordering::Less,
        [] => true,
    }
}

fn row_fits(row: &SlotRow) -> bool
    ensures { result ≡ row_fits row.now }
{
    kind_fits(&row.kind) && most_fits(row)
}

fn kind_fits(kind: &ItemKind) -> bool
    ensures { result ≡ kind_fits kind.now }
{
    match kind {
        ItemKind::Number { least, greatest } => {
            i64::from(*least) >= -2_147_483_648 && i64::from(*greatest) <= 2_147_483_647
        }
        ItemKind::Text => true,
    }
}

fn most_fits(row: &SlotRow) -> bool
    ensures { result ≡ most_fits row.now }
{
    if row.lone {
        row.most == 1
    } else {
        row.most >= 1
    }
}
