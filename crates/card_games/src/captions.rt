//! Captions for two to sixteen seats.

ghost use Rattle.std.specs.Prelude.{◌≡◌, ◌∷◌, ◌++◌, ℕ, List as Items, [], true, unwrap_or, IfOk, OnOk};
ghost use Rattle.card_games.specs.Captions.{Texts, caption_offers, caption_sheet, have_writers, no_texts, texts_revealed, write};
ghost use Rattle.card_games.specs.Offers.{offers};
ghost use Rattle.card_games.specs.Parts.{read_texts};
ghost use Rattle.game_sheet.specs.Short.{is_short};
ghost use Rattle.game_sheet.specs.declared.args.Arg.TheVariants.{Text as IsText};
ghost use Rattle.game_trait.specs.Gives.{Gives};
ghost use Rattle.serde_json.specs.View.{view};

use crate::lists::copied_split;
use crate::offers::offer;
use crate::parts::Part;
use crate::sealed::{
    NoSecret, Sealed, add_sealing, are_seats, may_seal, seal, sealed_end, sealing_turn,
    shown_items, unsealed,
};
use crate::texts::Shown;
use dice_words::Tape;
use game_sheet::{
    Arg, Args, Ctx, EventQueue, List, MoveId, MoveRow, NoMemory, Outcome, PhaseId, Seat, Sheet,
    Short, Text, unbroken,
};
use game_trait::{Game, Halt, HookHalt, may_be_offered};
use open_game::{blank_sheet, kept_if};
use secret_strip::{CopyPart, Split};
use serde_json::Value;
use std::alloc::Global;
use std::marker::Model;

/// The state: a text for each seat alone, and all of them for everybody at the end.
pub type Texts = Split<Shown, NoSecret, Sealed<Short>>;

/// The game, which holds its sheet.
#[derive(Drop)]
pub struct Captions {
    sheet: Sheet,
}

impl Model for Captions {
    // It is always the same game.
    ghost Value = { Unit {0} };

    ghost view = { λ _. tt };

    ghost invariant = { λ game. game.sheet ≡ caption_sheet };
}

impl Captions {
    /// The game.
    pub fn new(alloc: Global) -> Result<Self, NoMemory> {
        let sheet = make_sheet(alloc)?;
        Ok(Captions { sheet })
    }
}

/// The sheet: one move, and every seat in one stage until it has written.
fn make_sheet(alloc: Global) -> Result<Sheet, NoMemory>
    ensures { IfOk result (λ made. made ≡ caption_sheet) }
{
    let mut sheet = blank_sheet(alloc, "captions", 2, 16, sealing_turn())?;
    match fill_sheet(alloc, &mut sheet) {
        Ok(()) => Ok(sheet),
        Err(NoMemory) => {
            drop(sheet);
            Err(NoMemory)
        }
    }
}

/// Gives a sheet the game's rows.
fn fill_sheet(alloc: Global, sheet: &mut Sheet) -> Result<(), NoMemory>
    ensures { OnOk result (sheet.new ≡ record sheet.old { moves = sheet.old.moves ++ caption_sheet.moves; base = sheet.old.base ++ caption_sheet.base; stages = sheet.old.stages ++ caption_sheet.stages; specs = sheet.old.specs ++ caption_sheet.specs }) }
{
    add_moves(alloc, &mut sheet.moves)?;
    sheet.base.push(MoveId::at(0))?;
    add_sealing(alloc, sheet, "write")
}

/// Adds the game's moves.
fn add_moves(alloc: Global, rows: &mut List<MoveRow>) -> Result<(), NoMemory>
    ensures { OnOk result (rows.new ≡ rows.old ++ caption_sheet.moves) }
{
    rows.push(MoveRow {
        name: Text::from_str(alloc, "write")?,
        redact: true,
        client: true,
        no_limit: false,
        ignore_stale: true,
    })?;
    Ok(())
}

/// No text yet.
fn no_texts(alloc: Global, seats: u8) -> Result<Texts, NoMemory>
    ensures { IfOk result (λ g. g ≡ no_texts seats) }
{
    Ok(Split {
        common: Shown { revealed: None },
        secret: None,
        players: unsealed(alloc, seats)?,
    })
}

/// A seat writes a text that isn't empty, once.
fn write(alloc: Global, g: &Texts, seat: Seat, args: &[Arg]) -> Result<Texts, Halt>
    ensures { (words : Items ℕ) → Gives result words words [] (write g.now seat args.now words) }
{
    match args {
        [Arg::Text(text)] => {
            let bytes = text.as_str().len();
            seal(alloc, seat < 16 && bytes >= 1, g, seat, *text)
        }
        _ => Err(Halt::Invalid),
    }
}

/// The state with all texts shown; none where not all have written.
fn reveal(alloc: Global, g: &Texts) -> Result<Option<Texts>, NoMemory>
    ensures { IfOk result (λ o. unwrap_or o g.now ≡ texts_revealed g.now) }
{
    let Some(texts) = shown_items(alloc, g.players.as_slice())? else {
        return Ok(None);
    };
    Ok(Some(Split {
        common: Shown {
            revealed: Some(texts),
        },
        secret: g.secret,
        players: g.players.copy(alloc)?,
    }))
}

/// The texts that a seat is offered where it hasn't written.
fn options(alloc: Global, g: &Texts, seat: Seat) -> Result<List<(MoveId, Args)>, NoMemory>
    ensures { IfOk result (λ offers. offers ≡ caption_offers g.now seat) }
{
    let mut offers = List::new(alloc);
    if may_seal(g.players.as_slice(), seat) {
        offer(
            &mut offers,
            MoveId::at(0),
            &[text_of("one"), text_of("two")],
        )?;
    }
    Ok(offers)
}

/// A short text as an argument.
fn text_of(text: &str) -> Arg
    requires { is_short text.now ≡ true }
    ensures { result ≡ IsText text.now }
{
    match Short::of(text.as_bytes()) {
        Some(text) => Arg::Text(text),
        None => unreachable!(),
    }
}

/// The state that is written so; none where none is.
fn from_value(alloc: Global, v: &Value) -> Result<Option<Texts>, NoMemory>
    ensures { IfOk result (λ g. g ≡ read_texts (view v.now)) }
{
    match Texts::from_json(alloc, v)? {
        Some(g) => Ok(kept_if(have_writers(&g), g)),
        None => Ok(None),
    }
}

/// Whether one to sixteen seats have an entry each, and a text each where the texts are shown.
fn have_writers(g: &Texts) -> bool
    ensures { result ≡ have_writers g.now }
{
    let shown = g.common.revealed.as_ref().map(|texts| texts.len());
    are_seats(16, g.players.len(), shown)
}

impl Game for Captions {
    ghost use Rattle.card_games.specs.Captions.{captions};
    ghost use Rattle.card_games.specs.CaptionLaws.{captions_in_sheet, captions_lawful};

    type G = Texts;

    ghost rules = { λ _. captions };

    ghost in_sheet = { λ _. captions_in_sheet };

    ghost lawful = { λ _. captions_lawful };

    #[tactic(auto, unfolding(game_sheet::specs::SheetRules::broken))]
    fn sheet(&self) -> &Sheet {
        unbroken(&self.sheet)
    }

    fn setup(&self, alloc: Global, seats: u8, tape: &mut Tape) -> Result<Texts, HookHalt> {
        Ok(no_texts(alloc, seats)?)
    }

    fn play(
        &self,
        alloc: Global,
        g: &Texts,
        ctx: &Ctx,
        seat: Seat,
        id: MoveId,
        args: &Args,
        tape: &mut Tape,
        events: &mut EventQueue,
    ) -> Result<Texts, Halt> {
        write(alloc, g, seat, args.as_slice())
    }

    fn on_move(
        &self,
        alloc: Global,
        g: &Texts,
        ctx: &Ctx,
        seat: Seat,
        tape: &mut Tape,
        events: &mut EventQueue,
    ) -> Result<Option<Texts>, HookHalt> {
        Ok(None)
    }

    fn turn_begin(
        &self,
        alloc: Global,
        g: &Texts,
        ctx: &Ctx,
        tape: &mut Tape,
        events: &mut EventQueue,
    ) -> Result<Option<Texts>, HookHalt> {
        Ok(None)
    }

    fn turn_end(
        &self,
        alloc: Global,
        g: &Texts,
        ctx: &Ctx,
        tape: &mut Tape,
        events: &mut EventQueue,
    ) -> Result<Option<Texts>, HookHalt> {
        Ok(None)
    }

    fn phase_begin(
        &self,
        alloc: Global,
        g: &Texts,
        ctx: &Ctx,
        phase: PhaseId,
        tape: &mut Tape,
        events: &mut EventQueue,
    ) -> Result<Option<Texts>, HookHalt> {
        Ok(None)
    }

    fn phase_end(
        &self,
        alloc: Global,
        g: &Texts,
        ctx: &Ctx,
        phase: PhaseId,
        tape: &mut Tape,
        events: &mut EventQueue,
    ) -> Result<Option<Texts>, HookHalt> {
        Ok(None)
    }

    fn game_end(
        &self,
        alloc: Global,
        g: &Texts,
        ctx: &Ctx,
        tape: &mut Tape,
        events: &mut EventQueue,
    ) -> Result<Option<Texts>, HookHalt> {
        Ok(reveal(alloc, g)?)
    }

    fn end_if(&self, g: &Texts, ctx: &Ctx) -> Option<Outcome> {
        sealed_end(g.players.as_slice())
    }

    fn turn_end_if(&self, g: &Texts, ctx: &Ctx) -> bool {
        false
    }

    fn phase_end_if(&self, g: &Texts, ctx: &Ctx) -> bool {
        false
    }

    fn play_order(&self, alloc: Global, g: &Texts, ctx: &Ctx) -> Result<List<Seat>, NoMemory> {
        Ok(List::new(alloc))
    }

    fn view(
        &self,
        alloc: Global,
        g: &Texts,
        ctx: &Ctx,
        viewer: Option<Seat>,
    ) -> Result<Texts, NoMemory> {
        g.strip(alloc, viewer)
    }

    fn undoable(&self, g: &Texts, ctx: &Ctx, id: MoveId) -> bool {
        false
    }

    fn options(
        &self,
        alloc: Global,
        g: &Texts,
        ctx: &Ctx,
        seat: Seat,
    ) -> Result<List<(MoveId, Args)>, NoMemory> {
        if may_be_offered(ctx, seat) {
            options(alloc, g, seat)
        } else {
            Ok(List::new(alloc))
        }
    }

    fn to_value(&self, alloc: Global, g: &Texts) -> Result<Value, NoMemory> {
        Ok(g.to_json(alloc)?)
    }

    fn write(&self, alloc: Global, out: &mut Vec<u8>, g: &Texts) -> Result<(), NoMemory> {
        Ok(g.write(alloc, out)?)
    }

    fn from_value(&self, alloc: Global, v: &Value) -> Result<Option<Texts>, NoMemory> {
        from_value(alloc, v)
    }

    fn same(&self, a: &Texts, b: &Texts) -> bool {
        a.same(b)
    }

    fn copy(&self, alloc: Global, g: &Texts) -> Result<Texts, NoMemory> {
        copied_split(alloc, g)
    }
}
