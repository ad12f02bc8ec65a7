//! A place at which sessions of rooms are served, one after another.

ghost use Rattle.std.specs.Prelude.{◌≡◌, ◌≤◌, ◌<◌, length, map, vec_len};
ghost use Rattle.dice_words.specs.Strip.{live};
ghost use Rattle.session_pool.specs.Passes.{number_of};
ghost use Rattle.session_pool.specs.Sittings.{begins};

use crate::link::detach;
use crate::turn::take_turn;
use crate::watch::show_all;
use any_game::AnyGame;
use bench_wishes::Wishes;
use board_links::{Link, SessionEnd};
use dice_words::Tape;
use game_hall::SessionCore;
use game_sheet::{MatchName, Seat};
use hosted_room::HostedRoom;
use link_rounds::{Service, Stir};
use room_desk::{Desk, Pass};
use session_bench::rise;
use std::alloc::Global;
use std::marker::{Brand, Model, PhantomData};
use std::sync::Wait;

/// The seed of a server's words, how many places it has, its desks, and what its rooms stood for when they were opened, which proofs alone see.
pub trait Seeded {
    ghost use Rattle.std.specs.Prelude.{ℕ, List};
    ghost use Rattle.room_desk.specs.History.{DeskId};
    ghost use Rattle.session_pool.specs.Watched.{History};

    /// The seed.
    ghost seed: { List ℕ };

    /// How many places there are. Their numbers are below it.
    ghost places: { ℕ };

    /// The desks of its rooms, in their order.
    ghost desks: { List DeskId };

    /// The histories that the passes of its places had seen before any session, in the rooms' order.
    ghost pasts: { List History };
}

impl Seeded for Brand {
    ghost use Rattle.std.specs.Prelude.{[]};

    ghost seed = { [] };

    ghost places = { 0 };

    ghost desks = { [] };

    ghost pasts = { [] };
}

/// The rooms of a server, which its sessions share. Their desks are those of `K`.
#[derive(Drop)]
pub struct Hall<'a, B: HostedRoom<AnyGame>, K: Seeded> {
    /// Where its memory comes from.
    pub alloc: Global,
    /// A desk for each room, in their order.
    pub desks: &'a [Desk<B>],
    /// The desk of the bench.
    pub bench: &'a Desk<Wishes>,
    /// Whose desks they are.
    pub of: PhantomData<K>,
    pub ghost named: { map (λ d. d.desk) desks.now ≡ K.desks },
}

/// A place of sessions: a pass for each room and one for the bench, the core of the session that is there, the words that its lines draw, and the
/// seat of its bot, if it has one. The words come from the seed of `K`. Contracts see where the session stands.
pub struct Sitting<'a, B: HostedRoom<AnyGame>, K: Seeded> {
    passes: Vec<Pass<B>>,
    bench: Pass<Wishes>,
    core: SessionCore,
    words: Tape,
    seat: Option<(MatchName, Seat)>,
    stir: Stir,
    seed: PhantomData<K>,
    hall: PhantomData<&'a ()>,
}

impl<'a, B: HostedRoom<AnyGame>, K: Seeded> Drop for Sitting<'a, B, K> {
    fn drop(self) {
        let Sitting {
            passes,
            bench,
            core,
            words,
            seat: _,
            stir: _,
            seed: _,
            hall: _,
        } = self;
        drop(passes);
        drop(bench);
        drop(core);
        drop(words);
    }
}

impl<'a, B: HostedRoom<AnyGame>, K: Seeded> Model for Sitting<'a, B, K> {
    ghost use Rattle.session_pool.specs.Turn.{Stand, stand};

    ghost Value = { Stand };

    ghost view = { λ s. stand s.passes.items s.core s.words s.bench s.seat };
}

impl<'a, B: HostedRoom<AnyGame>, K: Seeded> Sitting<'a, B, K> {
    /// A place without a session, of these passes over so many rooms, and of this pass at the bench. Its words are those of the stream of the passes'
    /// number, from the first on.
    pub fn new(
        passes: Vec<Pass<B>>,
        bench: Pass<Wishes>,
        rooms: u8,
        seed: [u8; 32],
    ) -> Sitting<'a, B, K>
        requires some { 0 < vec_len passes }
        requires rooms { (1 ≤ rooms) × (rooms ≤ 64) }
        ensures { result ≡ begins rooms passes.items (live seed (number_of passes.items) 0) bench }
    {
        let number = passes[0].number();
        Sitting {
            passes,
            bench,
            core: SessionCore::new(number, rooms).with_bench(),
            words: Tape::live(seed, u64::from(number), 0),
            seat: None,
            stir: Stir {
                at: None,
                changed: 0,
                more: false,
            },
            seed: PhantomData,
            hall: PhantomData,
        }
    }

    /// Its passes, and that at the bench.
    pub fn into_passes(self) -> (Vec<Pass<B>>, Pass<Wishes>)
        ensures passes { result.0.items ≡ self.entry.passes }
        ensures bench { result.1 ≡ self.entry.bench }
    {
        let Sitting {
            passes,
            bench,
            core,
            words,
            seat: _,
            stir: _,
            seed: _,
            hall: _,
        } = self;
        drop(core);
        drop(words);
        (passes, bench)
    }
}

impl<'a, B: HostedRoom<AnyGame> + 'a, K: Seeded> Service for Sitting<'a, B, K> {
    ghost use Rattle.session_pool.specs.Passes.{number_of};
    ghost use Rattle.session_pool.specs.Sittings.{Fits, Leaves, Rests};
    ghost use Rattle.session_pool.specs.Turn.{Turn};
    ghost use Rattle.session_pool.specs.Watched.{AllKnow, desk_at};
    ghost use Rattle.std.specs.Prelude.{◌≡◌, Some, map};

    type Hall = Hall<'a, B, K>;

    type Witness = Vec<Option<Pass<B>>>;

    ghost fits = { λ hall s. Fits hall.desks.now hall.bench.now.desk K.seed K.places K.pasts s };

    ghost rests = { λ s. Rests K.seed K.places K.pasts s };

    ghost turn = { Turn B.may_starve };

    ghost leave = { Leaves B.may_starve };

    ghost number = { λ s. number_of s.passes };

    ghost attends = { λ w. map desk_at w.items ≡ map Some K.desks };

    ghost knows = { λ w s. AllKnow w.items s.passes };

    fn turn<L: Link, R: Wait>(
        &mut self,
        rt: &R,
        hall: &Hall<'a, B, K>,
        link: &mut L,
    ) -> Option<SessionEnd> {
        let Sitting {
            passes,
            bench,
            core,
            words,
            seat,
            stir,
            seed: _,
            hall: _,
        } = self;
        stir.changed = 0;
        stir.more = false;
        *seat = link.bot_seat();
        take_turn(
            rt,
            hall.alloc,
            hall.desks,
            passes.as_mut_slice(),
            hall.bench,
            bench,
            link,
            words,
            core,
            stir,
        )
    }

    fn stir(&self) -> Stir {
        Stir {
            at: self.core.attached(),
            changed: self.stir.changed,
            more: self.stir.more,
        }
    }

    fn leave<R: Wait>(&mut self, rt: &R, hall: &Hall<'a, B, K>) {
        let Sitting {
            passes,
            bench,
            core,
            words: _,
            seat,
            stir: _,
            seed: _,
            hall: _,
        } = self;
        detach(rt, hall.desks, passes.as_mut_slice(), core);
        rise(rt, hall.bench, bench, seat.take(), core.has_sat());
        *core = SessionCore::new(core.pass(), hall.desks.len() as u8).with_bench();
    }

    fn show(&mut self, hall: &Hall<'a, B, K>, witness: &mut Vec<Option<Pass<B>>>) {
        let Sitting {
            passes,
            bench: _,
            core: _,
            words: _,
            seat: _,
            stir: _,
            seed: _,
            hall: _,
        } = self;
        show_all(hall.desks, passes.as_mut_slice(), witness.as_mut_slice());
    }
}
