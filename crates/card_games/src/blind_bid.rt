//! Blind Bid for two to eight seats.

ghost use Rattle.std.specs.Prelude.{◌≡◌, ◌<◌, ◌++◌, ℕ, List as Items, [], length, slice_get, unwrap_or, IfOk, OnOk, Some};
ghost use Rattle.card_games.specs.BlindBid.{Bids, bid, bid_end, bid_offers, bid_sheet, boast, have_bidders, is_bid, no_bids, revealed, with_bids};
ghost use Rattle.card_games.specs.Parts.{read_bids};
ghost use Rattle.card_games.specs.Sealed.{seal};
ghost use Rattle.game_trait.specs.Gives.{Gives};
ghost use Rattle.serde_json.specs.View.{view};

use crate::bids::Bidding;
use crate::lists::{changed, copied_split};
use crate::offers::offer;
use crate::parts::Part;
use crate::sealed::{
    NoSecret, Sealed, add_sealing, are_seats, may_seal, seal, sealed_end, sealing_turn,
    shown_items, unsealed,
};
use dice_words::Tape;
use game_sheet::{
    Arg, Args, Ctx, EventQueue, List, MoveId, MoveRow, NoMemory, Outcome, PhaseId, Seat, Sheet,
    Text, unbroken,
};
use game_trait::{Game, Halt, HookHalt, may_be_offered};
use open_game::{blank_sheet, kept_if};
use secret_strip::{CopyPart, Split};
use serde_json::Value;
use std::alloc::Global;
use std::marker::Model;

/// The state: boasts for everybody, and a bid for each seat alone.
pub type Bids = Split<Bidding, NoSecret, Sealed<u32>>;

/// The game, which holds its sheet.
#[derive(Drop)]
pub struct BlindBid {
    sheet: Sheet,
}

impl Model for BlindBid {
    // It is always the same game.
    ghost Value = { Unit {0} };

    ghost view = { λ _. tt };

    ghost invariant = { λ game. game.sheet ≡ bid_sheet };
}

impl BlindBid {
    /// The game.
    pub fn new(alloc: Global) -> Result<Self, NoMemory> {
        let sheet = make_sheet(alloc)?;
        Ok(BlindBid { sheet })
    }
}

/// The sheet: two moves, and every seat in one stage until it has bid.
fn make_sheet(alloc: Global) -> Result<Sheet, NoMemory>
    ensures { IfOk result (λ made. made ≡ bid_sheet) }
{
    let mut sheet = blank_sheet(alloc, "blind-bid", 2, 8, sealing_turn())?;
    match fill_sheet(alloc, &mut sheet) {
        Ok(()) => Ok(sheet),
        Err(NoMemory) => {
            drop(sheet);
            Err(NoMemory)
        }
    }
}

/// Gives a sheet the game's rows.
fn fill_sheet(alloc: Global, sheet: &mut Sheet) -> Result<(), NoMemory>
    ensures { OnOk result (sheet.new ≡ record sheet.old { moves = sheet.old.moves ++ bid_sheet.moves; base = sheet.old.base ++ bid_sheet.base; stages = sheet.old.stages ++ bid_sheet.stages; specs = sheet.old.specs ++ bid_sheet.specs }) }
{
    add_moves(alloc, &mut sheet.moves)?;
    sheet.base.push(MoveId::at(0))?;
    sheet.base.push(MoveId::at(1))?;
    add_sealing(alloc, sheet, "bid")
}

/// Adds the game's moves.
fn add_moves(alloc: Global, rows: &mut List<MoveRow>) -> Result<(), NoMemory>
    ensures { OnOk result (rows.new ≡ rows.old ++ bid_sheet.moves) }
{
    rows.push(MoveRow {
        name: Text::from_str(alloc, "bid")?,
        redact: true,
        client: true,
        no_limit: false,
        ignore_stale: true,
    })?;
    rows.push(MoveRow {
        name: Text::from_str(alloc, "boast")?,
        redact: false,
        client: true,
        no_limit: true,
        ignore_stale: false,
    })?;
    Ok(())
}

/// No boast and no bid yet.
fn no_bids(alloc: Global, seats: u8) -> Result<Bids, NoMemory>
    ensures { IfOk result (λ g. g ≡ no_bids seats) }
{
    let boasts = vec![in alloc; 0u32; seats as usize]?;
    Ok(Split {
        common: Bidding {
            boasts: List::from_vec(boasts),
            revealed: None,
        },
        secret: None,
        players: unsealed(alloc, seats)?,
    })
}

/// A seat seals a bid of 1 to 100, once.
fn bid(alloc: Global, g: &Bids, seat: Seat, args: &[Arg]) -> Result<Bids, Halt>
    ensures { (words : Items ℕ) → Gives result words words [] (bid g.now seat args.now words) }
{
    match args {
        [Arg::Whole(n)] if *n >= 0 => seal_bid(alloc, g, seat, *n as u32),
        _ => Err(Halt::Invalid),
    }
}

fn seal_bid(alloc: Global, g: &Bids, seat: Seat, n: u32) -> Result<Bids, Halt>
    ensures { (words : Items ℕ) → Gives result words words [] (seal (is_bid n) g.now seat n words) }
{
    seal(alloc, is_bid(n), g, seat, n)
}

/// A bid is 1 to 100.
fn is_bid(n: u32) -> bool
    ensures { result ≡ is_bid n }
{
    n >= 1 && n <= 100
}

/// A seat boasts with 0 to 9, as often as it likes.
fn boast(alloc: Global, g: &Bids, seat: Seat, args: &[Arg]) -> Result<Bids, Halt>
    ensures { (words : Items ℕ) → Gives result words words [] (boast g.now seat args.now words) }
{
    let boasts = g.common.boasts.as_slice();
    match args {
        [Arg::Whole(n)] if *n >= 0 && *n <= 9 && (seat as usize) < boasts.len() => {
            let boasts = changed(alloc, boasts, seat as usize, *n as u32)?;
            Ok(with_boasts(alloc, g, boasts)?)
        }
        _ => Err(Halt::Invalid),
    }
}

/// The state with these boasts.
fn with_boasts(alloc: Global, g: &Bids, boasts: List<u32>) -> Result<Bids, NoMemory>
    ensures { IfOk result (λ h. h ≡ record g.now { common = record g.now.common { boasts = boasts } }) }
{
    let mut after = copied_split(alloc, g)?;
    after.common.boasts = boasts;
    Ok(after)
}

/// The state with all bids shown; none where not all have bid.
fn reveal(alloc: Global, g: &Bids) -> Result<Option<Bids>, NoMemory>
    ensures { IfOk result (λ o. unwrap_or o g.now ≡ revealed g.now) }
{
    match shown_items(alloc, g.players.as_slice())? {
        Some(bids) => Ok(Some(with_bids(alloc, g, bids)?)),
        None => Ok(None),
    }
}

/// The state in which these bids are shown.
fn with_bids(alloc: Global, g: &Bids, bids: List<u32>) -> Result<Bids, NoMemory>
    ensures { IfOk result (λ h. h ≡ with_bids g.now (Some bids)) }
{
    let mut after = copied_split(alloc, g)?;
    after.common.revealed = Some(bids);
    Ok(after)
}

/// The bids that are offered.
const BIDS: [Arg; 10] = [
    Arg::Whole(10),
    Arg::Whole(20),
    Arg::Whole(30),
    Arg::Whole(40),
    Arg::Whole(50),
    Arg::Whole(60),
    Arg::Whole(70),
    Arg::Whole(80),
    Arg::Whole(90),
    Arg::Whole(100),
];

/// The boasts that are offered.
const BOASTS: [Arg; 10] = [
    Arg::Whole(0),
    Arg::Whole(1),
    Arg::Whole(2),
    Arg::Whole(3),
    Arg::Whole(4),
    Arg::Whole(5),
    Arg::Whole(6),
    Arg::Whole(7),
    Arg::Whole(8),
    Arg::Whole(9),
];

/// The bids and the boasts that a seat is offered where it hasn't bid.
fn options(alloc: Global, g: &Bids, seat: Seat) -> Result<List<(MoveId, Args)>, NoMemory>
    ensures { IfOk result (λ offers. offers ≡ bid_offers g.now seat) }
{
    let mut offers = List::new(alloc);
    if may_seal(g.players.as_slice(), seat) {
        offer(&mut offers, MoveId::at(0), &BIDS)?;
        offer(&mut offers, MoveId::at(1), &BOASTS)?;
    }
    Ok(offers)
}

/// The state that is written so; none where none is.
fn from_value(alloc: Global, v: &Value) -> Result<Option<Bids>, NoMemory>
    ensures { IfOk result (λ g. g ≡ read_bids (view v.now)) }
{
    match Bids::from_json(alloc, v)? {
        Some(g) => Ok(kept_if(have_bidders(&g), g)),
        None => Ok(None),
    }
}

/// Whether one to eight seats have a boast each, an entry each, and a bid each where the bids are shown.
fn have_bidders(g: &Bids) -> bool
    ensures { result ≡ have_bidders g.now }
{
    let shown = g.common.revealed.as_ref().map(|bids| bids.len());
    g.common.boasts.len() == g.players.len() && are_seats(8, g.players.len(), shown)
}

impl Game for BlindBid {
    ghost use Rattle.card_games.specs.BlindBid.{blind_bid};
    ghost use Rattle.card_games.specs.BidLaws.{blind_bid_in_sheet, blind_bid_lawful};

    type G = Bids;

    ghost rules = { λ _. blind_bid };

    ghost in_sheet = { λ _. blind_bid_in_sheet };

    ghost lawful = { λ _. blind_bid_lawful };

    #[tactic(auto, unfolding(game_sheet::specs::SheetRules::broken))]
    fn sheet(&self) -> &Sheet {
        unbroken(&self.sheet)
    }

    fn setup(&self, alloc: Global, seats: u8, tape: &mut Tape) -> Result<Bids, HookHalt> {
        Ok(no_bids(alloc, seats)?)
    }

    fn play(
        &self,
        alloc: Global,
        g: &Bids,
        ctx: &Ctx,
        seat: Seat,
        id: MoveId,
        args: &Args,
        tape: &mut Tape,
        events: &mut EventQueue,
    ) -> Result<Bids, Halt> {
        if seat >= 8 {
            Err(Halt::Invalid)
        } else if id.place() == 0 {
            bid(alloc, g, seat, args.as_slice())
        } else {
            boast(alloc, g, seat, args.as_slice())
        }
    }

    fn on_move(
        &self,
        alloc: Global,
        g: &Bids,
        ctx: &Ctx,
        seat: Seat,
        tape: &mut Tape,
        events: &mut EventQueue,
    ) -> Result<Option<Bids>, HookHalt> {
        Ok(None)
    }

    fn turn_begin(
        &self,
        alloc: Global,
        g: &Bids,
        ctx: &Ctx,
        tape: &mut Tape,
        events: &mut EventQueue,
    ) -> Result<Option<Bids>, HookHalt> {
        Ok(None)
    }

    fn turn_end(
        &self,
        alloc: Global,
        g: &Bids,
        ctx: &Ctx,
        tape: &mut Tape,
        events: &mut EventQueue,
    ) -> Result<Option<Bids>, HookHalt> {
        Ok(None)
    }

    fn phase_begin(
        &self,
        alloc: Global,
        g: &Bids,
        ctx: &Ctx,
        phase: PhaseId,
        tape: &mut Tape,
        events: &mut EventQueue,
    ) -> Result<Option<Bids>, HookHalt> {
        Ok(None)
    }

    fn phase_end(
        &self,
        alloc: Global,
        g: &Bids,
        ctx: &Ctx,
        phase: PhaseId,
        tape: &mut Tape,
        events: &mut EventQueue,
    ) -> Result<Option<Bids>, HookHalt> {
        Ok(None)
    }

    fn game_end(
        &self,
        alloc: Global,
        g: &Bids,
        ctx: &Ctx,
        tape: &mut Tape,
        events: &mut EventQueue,
    ) -> Result<Option<Bids>, HookHalt> {
        Ok(reveal(alloc, g)?)
    }

    fn end_if(&self, g: &Bids, ctx: &Ctx) -> Option<Outcome> {
        sealed_end(g.players.as_slice())
    }

    fn turn_end_if(&self, g: &Bids, ctx: &Ctx) -> bool {
        false
    }

    fn phase_end_if(&self, g: &Bids, ctx: &Ctx) -> bool {
        false
    }

    fn play_order(&self, alloc: Global, g: &Bids, ctx: &Ctx) -> Result<List<Seat>, NoMemory> {
        Ok(List::new(alloc))
    }

    fn view(
        &self,
        alloc: Global,
        g: &Bids,
        ctx: &Ctx,
        viewer: Option<Seat>,
    ) -> Result<Bids, NoMemory> {
        g.strip(alloc, viewer)
    }

    fn undoable(&self, g: &Bids, ctx: &Ctx, id: MoveId) -> bool {
        id.place() == 1
    }

    fn options(
        &self,
        alloc: Global,
        g: &Bids,
        ctx: &Ctx,
        seat: Seat,
    ) -> Result<List<(MoveId, Args)>, NoMemory> {
        if may_be_offered(ctx, seat) {
            options(alloc, g, seat)
        } else {
            Ok(List::new(alloc))
        }
    }

    fn to_value(&self, alloc: Global, g: &Bids) -> Result<Value, NoMemory> {
        Ok(g.to_json(alloc)?)
    }

    fn write(&self, alloc: Global, out: &mut Vec<u8>, g: &Bids) -> Result<(), NoMemory> {
        Ok(g.write(alloc, out)?)
    }

    fn from_value(&self, alloc: Global, v: &Value) -> Result<Option<Bids>, NoMemory> {
        from_value(alloc, v)
    }

    fn same(&self, a: &Bids, b: &Bids) -> bool {
        a.same(b)
    }

    fn copy(&self, alloc: Global, g: &Bids) -> Result<Bids, NoMemory> {
        copied_split(alloc, g)
    }
}
