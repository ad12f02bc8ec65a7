//! Which rows of a sheet code names.

ghost use Rattle.std.specs.Prelude.{◌≡◌};
ghost use Rattle.code_laws.specs.Counts.{code_in_sheet, wish_in_sheet};

use game_code::{Statement, Wish};
use game_sheet::Sheet;

/// Whether a statement names rows of the sheet alone.
pub fn code_in_sheet(sheet: &Sheet, statement: &Statement) -> bool
    ensures { result ≡ code_in_sheet sheet.now statement.now }
{
    match statement {
        Statement::Then(first, second) => {
            code_in_sheet(sheet, first) && code_in_sheet(sheet, second)
        }
        Statement::Let(_, body) => code_in_sheet(sheet, body),
        Statement::Roll(_, body) => code_in_sheet(sheet, body),
        Statement::If(_, one, other) => code_in_sheet(sheet, one) && code_in_sheet(sheet, other),
        Statement::For(_, _, _, body) => code_in_sheet(sheet, body),
        Statement::Queue(wish) => wish_in_sheet(sheet, wish),
        _ => true,
    }
}

fn wish_in_sheet(sheet: &Sheet, wish: &Wish) -> bool
    ensures { result ≡ wish_in_sheet sheet.now wish.now }
{
    match wish {
        Wish::SetPhase(to) => usize::from(to.place()) < sheet.phases.len(),
        Wish::SetStage(to) => usize::from(to.place()) < sheet.stages.len(),
        Wish::SetActive(spec) => usize::from(spec.place()) < sheet.specs.len(),
        _ => true,
    }
}
