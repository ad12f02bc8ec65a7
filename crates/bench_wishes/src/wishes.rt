//! The bench.

ghost use Rattle.std.specs.Prelude.{◌≡◌, ◌<◌, [], IfSome, OnErr, OnOk, length, position};
ghost use Rattle.bench_wishes.specs.Bench.{is_marked, place_of, reply_to, row_at, rows_after, sat, unmarked, with_mark, without, is_asked, is_row};
ghost use Rattle.bench_wishes.specs.declared.call.WishReply.TheVariants as reply;

use crate::call::{WishCall, WishReply};
use crate::row::{Row, is_at};
use game_sheet::{MatchName, NoMemory, Seat};
use room_object::Object;
use std::alloc::Global;
use std::marker::Model;

/// The bench. Contracts see its rows.
pub struct Wishes {
    rows: Vec<Row>,
}

impl Drop for Wishes {
    fn drop(self) {
        let Wishes { rows } = self;
        drop(rows);
    }
}

impl Model for Wishes {
    ghost use Rattle.std.specs.Prelude.{List};
    ghost use Rattle.bench_wishes.specs.declared.row.Row.{Row};

    ghost Value = { List Row };

    ghost view = { λ w. w.rows.items };
}

impl Wishes {
    /// No bot sits. It takes no memory.
    pub fn new(alloc: Global) -> Self
        ensures { result ≡ [] }
    {
        Wishes {
            rows: Vec::new(alloc),
        }
    }

    /// The place of a seat's row; none where it has none.
    fn place_of(&self, name: MatchName, seat: Seat) -> Option<usize>
        ensures { result ≡ place_of name seat self.now }
    {
        self.rows
            .as_slice()
            .iter()
            .position(|row| is_at(row, name, seat))
    }

    /// A bot has sat down.
    fn sit(&mut self, name: MatchName, seat: Seat) -> Result<(), NoMemory>
        ensures sat { OnOk result (self.new ≡ sat name seat self.old (place_of name seat self.old)) }
        ensures unchanged { OnErr result (self.new ≡ self.old) }
    {
        if self.place_of(name, seat).is_some() {
            return Ok(());
        }
        match self.rows.push(Row {
            name,
            seat,
            wished: false,
        }) {
            Ok(()) => Ok(()),
            Err(_) => Err(NoMemory),
        }
    }

    /// Somebody wants a seat; whether a bot has it.
    fn ask(&mut self, name: MatchName, seat: Seat) -> bool
        ensures marked { self.new ≡ with_mark self.old (place_of name seat self.old) }
        ensures asked { result ≡ is_asked (place_of name seat self.old) }
    {
        match self.place_of(name, seat) {
            None => false,
            Some(place) => {
                let row = self.rows[place];
                self.rows[place] = Row {
                    name: row.name,
                    seat: row.seat,
                    wished: true,
                };
                true
            }
        }
    }

    /// Whether somebody wants a bot's seat.
    fn wished(&self, name: MatchName, seat: Seat) -> bool
        ensures { result ≡ is_marked self.now (place_of name seat self.now) }
    {
        match self.place_of(name, seat) {
            None => false,
            Some(place) => self.rows[place].wished,
        }
    }

    /// A bot is gone.
    fn rise(&mut self, name: MatchName, seat: Seat)
        ensures { self.new ≡ without self.old (place_of name seat self.old) }
    {
        if let Some(place) = self.place_of(name, seat) {
            let _gone = self.rows.remove(place);
        }
    }
}

impl Object for Wishes {
    ghost use Rattle.std.specs.Prelude.{◌≡◌};
    ghost use Rattle.bench_wishes.specs.Bench.{bench_reply, is_starved, may_starve, rows_of};

    type Call = WishCall;

    type Reply = WishReply;

    ghost number = { λ w. 0 };

    ghost stands_for = { λ w h. w ≡ rows_of h };

    ghost reply = { λ n h e. bench_reply h e };

    ghost is_starved = { is_starved };

    ghost may_starve = { may_starve };

    fn apply(&mut self, _pass: u32, call: WishCall) -> WishReply {
        match call {
            WishCall::Sit { name, seat } => match self.sit(name, seat) {
                Ok(()) => WishReply::Sat,
                Err(NoMemory) => WishReply::NoMemory,
            },
            WishCall::Ask { name, seat } => {
                if self.ask(name, seat) {
                    WishReply::Asked
                } else {
                    WishReply::NotABot
                }
            }
            WishCall::Wished { name, seat } => {
                if self.wished(name, seat) {
                    WishReply::Yes
                } else {
                    WishReply::No
                }
            }
            WishCall::Rise { name, seat } => {
                self.rise(name, seat);
                WishReply::Risen
            }
        }
    }
}
