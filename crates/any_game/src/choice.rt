//! A game picked by its name.

ghost use Rattle.std.specs.Prelude.{◌≡◌, IfOk, None};
ghost use Rattle.any_game.specs.AnyRules.{named};
ghost use Rattle.any_game.specs.GameKind.{TicTacToe as IsTicTacToe, Countdown as IsCountdown, Pig as IsPig, HighHand as IsHighHand, BlindBid as IsBlindBid, Captions as IsCaptions};

use crate::any_g::AnyG;
use crate::lifted::Lifted;
use card_games::{BlindBid, Captions, HighHand};
use dice_words::Tape;
use game_sheet::{Args, Ctx, EventQueue, List, MoveId, NoMemory, Outcome, PhaseId, Seat, Sheet};
use game_trait::{Game, Halt, HookHalt};
use serde_json::Value;
use std::alloc::Global;
use std::marker::Model;
use table_games::{Countdown, Pig, TicTacToe};

/// A call of the game that was picked.
macro_rules! picked {
    ($any:expr, $call:ident($($argument:expr),*)) => {
        match &$any.game {
            Picked::TicTacToe(game) => game.$call($($argument),*),
            Picked::Countdown(game) => game.$call($($argument),*),
            Picked::Pig(game) => game.$call($($argument),*),
            Picked::HighHand(game) => game.$call($($argument),*),
            Picked::BlindBid(game) => game.$call($($argument),*),
            Picked::Captions(game) => game.$call($($argument),*),
        }
    };
}

/// One of the six games. Contracts see which one it is.
pub struct AnyGame {
    game: Picked,
}

impl Drop for AnyGame {
    fn drop(self) {
        let AnyGame { game } = self;
        drop(game);
    }
}

#[derive(Drop)]
enum Picked {
    TicTacToe(Lifted<TicTacToe>),
    Countdown(Lifted<Countdown>),
    Pig(Lifted<Pig>),
    HighHand(Lifted<HighHand>),
    BlindBid(Lifted<BlindBid>),
    Captions(Lifted<Captions>),
}

impl Model for AnyGame {
    ghost use Rattle.any_game.specs.GameKind.{GameKind};
    ghost use Rattle.any_game.specs.Kind.{kind_of};

    ghost Value = { GameKind };

    ghost view = { λ any. kind_of any.game };
}

impl AnyGame {
    /// Tic-tac-toe.
    pub fn tic_tac_toe(alloc: Global) -> Result<Self, NoMemory>
        ensures { IfOk result (λ game. game ≡ IsTicTacToe) }
    {
        let game = TicTacToe::new(alloc)?;
        Ok(AnyGame {
            game: Picked::TicTacToe(Lifted { game }),
        })
    }

    /// Countdown.
    pub fn countdown(alloc: Global) -> Result<Self, NoMemory>
        ensures { IfOk result (λ game. game ≡ IsCountdown) }
    {
        let game = Countdown::new(alloc)?;
        Ok(AnyGame {
            game: Picked::Countdown(Lifted { game }),
        })
    }

    /// Pig.
    pub fn pig(alloc: Global) -> Result<Self, NoMemory>
        ensures { IfOk result (λ game. game ≡ IsPig) }
    {
        let game = Pig::new(alloc)?;
        Ok(AnyGame {
            game: Picked::Pig(Lifted { game }),
        })
    }

    /// High Hand with a shuffled deck.
    pub fn high_hand(alloc: Global) -> Result<Self, NoMemory>
        ensures { IfOk result (λ game. game ≡ IsHighHand None) }
    {
        let game = HighHand::new(alloc)?;
        Ok(AnyGame {
            game: Picked::HighHand(Lifted { game }),
        })
    }

    /// Blind Bid.
    pub fn blind_bid(alloc: Global) -> Result<Self, NoMemory>
        ensures { IfOk result (λ game. game ≡ IsBlindBid) }
    {
        let game = BlindBid::new(alloc)?;
        Ok(AnyGame {
            game: Picked::BlindBid(Lifted { game }),
        })
    }

    /// Captions.
    pub fn captions(alloc: Global) -> Result<Self, NoMemory>
        ensures { IfOk result (λ game. game ≡ IsCaptions) }
    {
        let game = Captions::new(alloc)?;
        Ok(AnyGame {
            game: Picked::Captions(Lifted { game }),
        })
    }

    /// The same game.
    pub fn copy_game(&self, alloc: Global) -> Result<Self, NoMemory>
        ensures { IfOk result (λ game. game ≡ self.now) }
    {
        match &self.game {
            Picked::TicTacToe(_) => AnyGame::tic_tac_toe(alloc),
            Picked::Countdown(_) => AnyGame::countdown(alloc),
            Picked::Pig(_) => AnyGame::pig(alloc),
            Picked::HighHand(lifted) => Ok(AnyGame {
                game: Picked::HighHand(Lifted {
                    game: lifted.game.copy_game(alloc)?,
                }),
            }),
            Picked::BlindBid(_) => AnyGame::blind_bid(alloc),
            Picked::Captions(_) => AnyGame::captions(alloc),
        }
    }
}

/// The game of this name; none where no game has it.
pub fn by_name(alloc: Global, name: &str) -> Result<Option<AnyGame>, NoMemory>
    ensures { IfOk result (λ game. game ≡ named name.now) }
{
    if name == "tic-tac-toe" {
        Ok(Some(AnyGame::tic_tac_toe(alloc)?))
    } else if name == "countdown" {
        Ok(Some(AnyGame::countdown(alloc)?))
    } else if name == "pig" {
        Ok(Some(AnyGame::pig(alloc)?))
    } else if name == "high-hand" {
        Ok(Some(AnyGame::high_hand(alloc)?))
    } else if name == "blind-bid" {
        Ok(Some(AnyGame::blind_bid(alloc)?))
    } else if name == "captions" {
        Ok(Some(AnyGame::captions(alloc)?))
    } else {
        Ok(None)
    }
}

impl Game for AnyGame {
    ghost use Rattle.any_game.specs.AnyRules.{any_in_sheet, any_lawful, any_rules};

    type G = AnyG;

    ghost rules = { any_rules };

    ghost in_sheet = { any_in_sheet };

    ghost lawful = { any_lawful };

    fn sheet(&self) -> &Sheet {
        picked!(self, sheet())
    }

    fn setup(&self, alloc: Global, seats: u8, tape: &mut Tape) -> Result<AnyG, HookHalt> {
        picked!(self, setup(alloc, seats, tape))
    }

    fn play(
        &self,
        alloc: Global,
        g: &AnyG,
        ctx: &Ctx,
        seat: Seat,
        id: MoveId,
        args: &Args,
        tape: &mut Tape,
        events: &mut EventQueue,
    ) -> Result<AnyG, Halt> {
        picked!(self, play(alloc, g, ctx, seat, id, args, tape, events))
    }

    fn on_move(
        &self,
        alloc: Global,
        g: &AnyG,
        ctx: &Ctx,
        seat: Seat,
        tape: &mut Tape,
        events: &mut EventQueue,
    ) -> Result<Option<AnyG>, HookHalt> {
        picked!(self, on_move(alloc, g, ctx, seat, tape, events))
    }

    fn turn_begin(
        &self,
        alloc: Global,
        g: &AnyG,
        ctx: &Ctx,
        tape: &mut Tape,
        events: &mut EventQueue,
    ) -> Result<Option<AnyG>, HookHalt> {
        picked!(self, turn_begin(alloc, g, ctx, tape, events))
    }

    fn turn_end(
        &self,
        alloc: Global,
        g: &AnyG,
        ctx: &Ctx,
        tape: &mut Tape,
        events: &mut EventQueue,
    ) -> Result<Option<AnyG>, HookHalt> {
        picked!(self, turn_end(alloc, g, ctx, tape, events))
    }

    fn phase_begin(
        &self,
        alloc: Global,
        g: &AnyG,
        ctx: &Ctx,
        phase: PhaseId,
        tape: &mut Tape,
        events: &mut EventQueue,
    ) -> Result<Option<AnyG>, HookHalt> {
        picked!(self, phase_begin(alloc, g, ctx, phase, tape, events))
    }

    fn phase_end(
        &self,
        alloc: Global,
        g: &AnyG,
        ctx: &Ctx,
        phase: PhaseId,
        tape: &mut Tape,
        events: &mut EventQueue,
    ) -> Result<Option<AnyG>, HookHalt> {
        picked!(self, phase_end(alloc, g, ctx, phase, tape, events))
    }

    fn game_end(
        &self,
        alloc: Global,
        g: &AnyG,
        ctx: &Ctx,
        tape: &mut Tape,
        events: &mut EventQueue,
    ) -> Result<Option<AnyG>, HookHalt> {
        picked!(self, game_end(alloc, g, ctx, tape, events))
    }

    fn end_if(&self, g: &AnyG, ctx: &Ctx) -> Option<Outcome> {
        picked!(self, end_if(g, ctx))
    }

    fn turn_end_if(&self, g: &AnyG, ctx: &Ctx) -> bool {
        picked!(self, turn_end_if(g, ctx))
    }

    fn phase_end_if(&self, g: &AnyG, ctx: &Ctx) -> bool {
        picked!(self, phase_end_if(g, ctx))
    }

    fn play_order(&self, alloc: Global, g: &AnyG, ctx: &Ctx) -> Result<List<Seat>, NoMemory> {
        picked!(self, play_order(alloc, g, ctx))
    }

    fn view(
        &self,
        alloc: Global,
        g: &AnyG,
        ctx: &Ctx,
        viewer: Option<Seat>,
    ) -> Result<AnyG, NoMemory> {
        picked!(self, view(alloc, g, ctx, viewer))
    }

    fn undoable(&self, g: &AnyG, ctx: &Ctx, id: MoveId) -> bool {
        picked!(self, undoable(g, ctx, id))
    }

    fn options(
        &self,
        alloc: Global,
        g: &AnyG,
        ctx: &Ctx,
        seat: Seat,
    ) -> Result<List<(MoveId, Args)>, NoMemory> {
        picked!(self, options(alloc, g, ctx, seat))
    }

    fn to_value(&self, alloc: Global, g: &AnyG) -> Result<Value, NoMemory> {
        picked!(self, to_value(alloc, g))
    }

    fn write(&self, alloc: Global, out: &mut Vec<u8>, g: &AnyG) -> Result<(), NoMemory> {
        picked!(self, write(alloc, out, g))
    }

    fn from_value(&self, alloc: Global, v: &Value) -> Result<Option<AnyG>, NoMemory> {
        picked!(self, from_value(alloc, v))
    }

    fn same(&self, a: &AnyG, b: &AnyG) -> bool {
        a.same(b)
    }

    fn copy(&self, alloc: Global, g: &AnyG) -> Result<AnyG, NoMemory> {
        g.copy(alloc)
    }
}
