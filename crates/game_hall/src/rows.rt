//! The rows of matches, and the lines that show them.

ghost use Rattle.std.specs.Prelude.{◌≡◌, ◌≤◌, ◌-◌, ◌++◌, ◌∷◌, [], length, take, IfOk};
ghost use Rattle.serde_json.specs.Written.{comma_if, compact_text};
ghost use Rattle.wire_json.specs.RowText.{row_data};
ghost use Rattle.wire_json.specs.ServerText.{text};
ghost use Rattle.wire_json.specs.declared.server.ServerMsg.TheVariants as message;
ghost use Rattle.game_hall.specs.RowLines.{ending};

use game_sheet::{List, NoMemory};
use json_text::put_comma;
use std::alloc::Global;
use std::marker::Model;
use wire_json::{MatchRow, put_row};

/// How a line of rows ends.
const ENDING: &[u8] = b"],\"type\":\"matches\"}\n";

/// The rows of a game's matches so far, and the line that answers by them. Contracts see the rows.
pub struct Rows {
    rows: List<MatchRow>,
    line: Vec<u8>,
}

impl Drop for Rows {
    fn drop(self) {
        let Rows { rows, line } = self;
        drop(rows);
        drop(line);
    }
}

impl Model for Rows {
    ghost use Rattle.std.specs.Prelude.{◌≡◌, List as Items};
    ghost use Rattle.wire_json.specs.declared.match_row.MatchRow.{MatchRow as Row};
    ghost use Rattle.wire_json.specs.ServerText.{text};
    ghost use Rattle.wire_json.specs.declared.server.ServerMsg.TheVariants.{Matches};

    ghost Value = { Items Row };

    ghost view = { λ r. r.rows };

    ghost invariant = { λ r. r.line.items ≡ text (Matches r.rows) };
}

impl Rows {
    /// No rows.
    #[tactic(auto, using(crate::proofs::RowTexts::none_text))]
    pub fn none(alloc: Global) -> Result<Rows, NoMemory>
        ensures { IfOk result (λ rows. rows ≡ []) }
    {
        let mut line = Vec::from_slice(alloc, b"{\"matches\":[")?;
        line.extend_from_slice(ENDING)?;
        Ok(Rows {
            rows: List::new(alloc),
            line,
        })
    }

    /// The rows with one more.
    #[tactic(auto, using(crate::proofs::RowTexts::grown, crate::proofs::RowTexts::is_long))]
    pub fn with(self, alloc: Global, row: MatchRow) -> Result<Rows, NoMemory>
        ensures { IfOk result (λ rows. rows ≡ self ++ row ∷ []) }
    {
        let Rows { mut rows, line } = self;
        let longer = longer(alloc, line, !rows.is_empty(), &row);
        let pushed = rows.push(row);
        match (longer, pushed) {
            (Ok(line), Ok(())) => Ok(Rows { rows, line }),
            _ => {
                drop(rows);
                Err(NoMemory)
            }
        }
    }

    /// The rows, and the line.
    pub fn into_parts(self) -> (List<MatchRow>, Vec<u8>)
        ensures rows { result.0 ≡ self }
        ensures line { result.1.items ≡ text (message.Matches self) }
    {
        let Rows { rows, line } = self;
        (rows, line)
    }
}

/// A line of rows with one row more, behind a comma where rows stand before it.
fn longer(
    alloc: Global,
    mut line: Vec<u8>,
    later: bool,
    row: &MatchRow,
) -> Result<Vec<u8>, NoMemory>
    requires { 20 ≤ length line.items }
    ensures { IfOk result (λ l. l.items
        ≡ take (length line.items - 20) line.items ++ comma_if later ++ compact_text (row_data row.now) ++ ending) }
{
    line.truncate(line.len() - ENDING.len());
    put_comma(&mut line, later)?;
    put_row(alloc, &mut line, row)?;
    line.extend_from_slice(ENDING)?;
    Ok(line)
}

/// The line that answers by one row.
#[tactic(auto, using(crate::proofs::RowTexts::row_text))]
pub fn row_line(alloc: Global, row: &MatchRow) -> Result<Vec<u8>, NoMemory>
    ensures { IfOk result (λ line. line.items ≡ text (message.Match row.now)) }
{
    let mut line = Vec::from_slice(alloc, b"{\"row\":")?;
    put_row(alloc, &mut line, row)?;
    line.extend_from_slice(b",\"type\":\"match\"}\n")?;
    Ok(line)
}
