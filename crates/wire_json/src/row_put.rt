//! Writes the rows of matches into bytes.

ghost use Rattle.std.specs.Prelude.{◌≡◌, ◌++◌, true, OnOk};
ghost use Rattle.serde_json.specs.Data.{array};
ghost use Rattle.serde_json.specs.Written.{compact_text, members_text};
ghost use Rattle.json_tree.specs.Writable.{IsWritable, ItemsAreWritable};
ghost use Rattle.wire_json.specs.RowText.{from_over, player_data, players_data, row_data, rows_data};
ghost use Rattle.sheet_json.specs.Seats.{text_or_null};

use crate::match_row::MatchRow;
use crate::put_member::{put_match, put_text};
use game_sheet::{NoMemory, Seat, Text};
use json_text::{put_boolean, put_comma, put_natural, put_null};
use std::alloc::Global;

/// Appends the array of rows, in order.
pub fn put_rows(alloc: Global, out: &mut Vec<u8>, rows: &[MatchRow]) -> Result<(), NoMemory>
    ensures text { OnOk result (out.new.items ≡ out.old.items ++ compact_text (array (rows_data rows.now))) }
    ensures writable { OnOk result (ItemsAreWritable (rows_data rows.now)) }
{
    out.push(b'[')?;
    let mut later = false;
    for row in rows {
        put_comma(out, later)?;
        put_row(alloc, out, row)?;
        later = true;
    }
    out.push(b']')?;
    Ok(())
}

/// Appends a row.
#[tactic(auto, unfolding(json::specs::Print::escape_byte), using(crate::proofs::RowTelling::row_writable))]
pub fn put_row(alloc: Global, out: &mut Vec<u8>, row: &MatchRow) -> Result<(), NoMemory>
    ensures text { OnOk result (out.new.items ≡ out.old.items ++ compact_text (row_data row.now)) }
    ensures writable { OnOk result (IsWritable (row_data row.now)) }
{
    out.extend_from_slice(b"{\"game\":")?;
    put_text(alloc, out, row.game.as_str())?;
    out.extend_from_slice(b",\"match\":")?;
    put_match(alloc, out, &row.name)?;
    put_from_over(alloc, out, row)
}

#[tactic(auto, unfolding(json::specs::Print::escape_byte))]
fn put_from_over(alloc: Global, out: &mut Vec<u8>, row: &MatchRow) -> Result<(), NoMemory>
    ensures text { OnOk result (out.new.items ≡ out.old.items ++ members_text true (from_over row.now)) }
    ensures writable { OnOk result (ItemsAreWritable (players_data row.now.players)) }
{
    out.extend_from_slice(b",\"over\":")?;
    put_boolean(out, row.over)?;
    out.extend_from_slice(b",\"players\":")?;
    put_players(alloc, out, row.players.as_slice())?;
    out.push(b'}')?;
    Ok(())
}

fn put_players(
    alloc: Global,
    out: &mut Vec<u8>,
    players: &[(Seat, Option<Text>)],
) -> Result<(), NoMemory>
    ensures text { OnOk result (out.new.items ≡ out.old.items ++ compact_text (array (players_data players.now))) }
    ensures writable { OnOk result (ItemsAreWritable (players_data players.now)) }
{
    out.push(b'[')?;
    let mut later = false;
    for player in players {
        put_comma(out, later)?;
        put_player(alloc, out, player)?;
        later = true;
    }
    out.push(b']')?;
    Ok(())
}

#[tactic(auto, unfolding(json::specs::Print::escape_byte), using(crate::proofs::RowTelling::player_writable))]
fn put_player(
    alloc: Global,
    out: &mut Vec<u8>,
    player: &(Seat, Option<Text>),
) -> Result<(), NoMemory>
    ensures text { OnOk result (out.new.items ≡ out.old.items ++ compact_text (player_data player.now)) }
    ensures writable { OnOk result (IsWritable (player_data player.now)) }
{
    out.extend_from_slice(b"{\"name\":")?;
    put_name(alloc, out, &player.1)?;
    out.extend_from_slice(b",\"seat\":")?;
    put_natural(out, u64::from(player.0))?;
    out.push(b'}')?;
    Ok(())
}

fn put_name(alloc: Global, out: &mut Vec<u8>, name: &Option<Text>) -> Result<(), NoMemory>
    ensures text { OnOk result (out.new.items ≡ out.old.items ++ compact_text (text_or_null name.now)) }
    ensures writable { OnOk result (IsWritable (text_or_null name.now)) }
{
    match name {
        Some(name) => put_text(alloc, out, name.as_str()),
        None => Ok(put_null(out)?),
    }
}
