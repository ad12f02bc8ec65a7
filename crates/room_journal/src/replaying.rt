//! Makes the change of a record again, by the book's own calls.

ghost use Rattle.std.specs.Prelude.{◌≡◌, ◌≤◌, ◌∷◌, ◌++◌, [], List, ℕ, IfSome, IfOk, None, Some, replicate, slice_get, slice_set, true, false};
ghost use Rattle.std.specs.Option.{option_flatten};
ghost use Rattle.wire_json.specs.declared.protocol.Protocol.TheVariants as protocol;
ghost use Rattle.any_game.specs.AnyRules.{any_rules};
ghost use Rattle.any_game.specs.GameKind.{GameKind};
ghost use Rattle.match_master.specs.Held.{StandsFor};
ghost use Rattle.room_changes.specs.declared.change.Change.TheVariants as change;
ghost use Rattle.room_history.specs.Room.{reply as reply_in, serials, standing};
ghost use Rattle.room_history.specs.declared.call.RoomCall.{RoomCall as Asks};
ghost use Rattle.room_history.specs.declared.call.RoomCall.TheVariants as call_of;
ghost use Rattle.room_object.specs.Entry.{Entry, entry};
ghost use Rattle.room_journal.specs.Coming.{Calls, Does, Fits, HasStayed, Tries, replayer};

use crate::room_book::RoomBook;
use any_game::AnyGame;
use change_text::read_change;
use game_sheet::{Key, MatchName, NoMemory, Seat, Text};
use object_journal::{Recorded, Replayed, Replays};
use room_changes::Change;
use room_history::RoomCall;
use std::alloc::Global;
use wire_json::{Asked, Protocol, Submission};

/// The pass that makes changes again. Those from it on make the actions of a seat each, and are no session's.
pub const REPLAYER: u32 = 4_294_967_264;

impl Replays for RoomBook {
    ghost use Rattle.room_journal.specs.Coming.{HasCome};
    ghost use Rattle.room_journal.specs.Kept.{may_follow};
    ghost use Rattle.room_journal.specs.Laws.{fresh};

    ghost may_follow = { may_follow };

    ghost has_come = { λ b h. HasCome b.room b.keys.items h };

    ghost fresh = { λ b stands. fresh b.room b.keys.items };

    fn replay(&mut self, alloc: Global, payload: &[u8]) -> Replayed {
        match read_change(alloc, payload) {
            Err(_) => Replayed::NoMemory,
            Ok(None) => Replayed::Refused,
            Ok(Some(change)) => self.make(alloc, change),
        }
    }
}

impl RoomBook {
    /// Makes a change again.
    fn make(&mut self, alloc: Global, change: Change<AnyGame>) -> Replayed
        requires few { self.old.room ≤ 63 }
        requires same { self.old.book.room ≡ self.old.room }
        ensures same { self.new.book.room ≡ self.new.room }
        ensures room { self.new.room ≡ self.old.room }
        ensures does { (h : List (Entry (Asks GameKind))) → StandsFor any_rules self.old.book h → Fits self.old.keys.items (serials any_rules self.old.room h) (standing any_rules self.old.room h)
            → Does self.old.room h change self.new.book self.new.keys.items result }
    {
        match change {
            Change::Create { game, seats, seed } => self.make_match(alloc, game, seats, seed),
            Change::Join { seat, name, key } => self.seat_player(seat, name, key),
            Change::Rename { seat, key, name } => self.rename_player(seat, key, name),
            Change::Leave { seat, key } => self.free_seat(seat, key),
            Change::Clear => self.clear_match(),
            Change::Act { seat, asked } => self.act(alloc, seat, asked),
        }
    }

    /// Makes the call of a change, and says whether it was accepted.
    fn call(&mut self, pass: u32, call: RoomCall<AnyGame>) -> Replayed
        requires same { self.old.book.room ≡ self.old.room }
        ensures same { self.new.book.room ≡ self.new.room }
        ensures room { self.new.room ≡ self.old.room }
        ensures keys { self.new.keys.items ≡ self.old.keys.items }
        ensures calls { (h : List (Entry (Asks GameKind))) → StandsFor any_rules self.old.book h → Calls self.old.room h pass call self.new.book result }
    {
        let reply = self.book.apply(pass, call);
        let starved = RoomBook::starved(&reply);
        let accepted = RoomBook::accepted(&reply);
        drop(reply);
        if starved {
            Replayed::NoMemory
        } else if accepted {
            Replayed::Done
        } else {
            Replayed::Refused
        }
    }

    /// Makes a call, whatever is replied; false where there was no memory.
    fn call_anyway(&mut self, pass: u32, call: RoomCall<AnyGame>) -> bool
        requires same { self.old.book.room ≡ self.old.room }
        ensures same { self.new.book.room ≡ self.new.room }
        ensures room { self.new.room ≡ self.old.room }
        ensures keys { self.new.keys.items ≡ self.old.keys.items }
        ensures stands { (h : List (Entry (Asks GameKind))) → StandsFor any_rules self.old.book h → result ≡ true → StandsFor any_rules self.new.book (entry pass call false ∷ h) }
    {
        let reply = self.book.apply(pass, call);
        let starved = RoomBook::starved(&reply);
        drop(reply);
        if starved {
            return false;
        }
        true
    }

    fn make_match(&mut self, alloc: Global, game: AnyGame, seats: u8, seed: [u8; 32]) -> Replayed
        requires same { self.old.book.room ≡ self.old.room }
        ensures same { self.new.book.room ≡ self.new.room }
        ensures room { self.new.room ≡ self.old.room }
        ensures does { (h : List (Entry (Asks GameKind))) → StandsFor any_rules self.old.book h → Fits self.old.keys.items (serials any_rules self.old.room h) (standing any_rules self.old.room h)
            → Does self.old.room h (change.Create game seats seed) self.new.book self.new.keys.items result }
    {
        let Ok(keys) = no_keys(alloc, seats) else {
            drop(game);
            return Replayed::NoMemory;
        };
        let made = self.call(REPLAYER, RoomCall::Create { game, seats, seed });
        self.keys = keys;
        made
    }

    fn seat_player(&mut self, seat: Seat, name: Text, key: Key) -> Replayed
        requires same { self.old.book.room ≡ self.old.room }
        ensures same { self.new.book.room ≡ self.new.room }
        ensures room { self.new.room ≡ self.old.room }
        ensures does { (h : List (Entry (Asks GameKind))) → StandsFor any_rules self.old.book h → Fits self.old.keys.items (serials any_rules self.old.room h) (standing any_rules self.old.room h)
            → Does self.old.room h (change.Join seat name key) self.new.book self.new.keys.items result }
    {
        let serial = self.book.serial();
        let made = self.call(
            REPLAYER,
            RoomCall::Join {
                serial,
                seat,
                name,
                key,
            },
        );
        set_key(&mut self.keys, seat, Some(key));
        made
    }

    fn rename_player(&mut self, seat: Seat, key: Key, name: Text) -> Replayed
        requires same { self.old.book.room ≡ self.old.room }
        ensures same { self.new.book.room ≡ self.new.room }
        ensures room { self.new.room ≡ self.old.room }
        ensures does { (h : List (Entry (Asks GameKind))) → StandsFor any_rules self.old.book h → Fits self.old.keys.items (serials any_rules self.old.room h) (standing any_rules self.old.room h)
            → Does self.old.room h (change.Rename seat key name) self.new.book self.new.keys.items result }
    {
        let serial = self.book.serial();
        self.call(
            REPLAYER,
            RoomCall::Rename {
                serial,
                seat,
                key,
                name,
            },
        )
    }

    fn free_seat(&mut self, seat: Seat, key: Key) -> Replayed
        requires same { self.old.book.room ≡ self.old.room }
        ensures same { self.new.book.room ≡ self.new.room }
        ensures room { self.new.room ≡ self.old.room }
        ensures does { (h : List (Entry (Asks GameKind))) → StandsFor any_rules self.old.book h → Fits self.old.keys.items (serials any_rules self.old.room h) (standing any_rules self.old.room h)
            → Does self.old.room h (change.Leave seat key) self.new.book self.new.keys.items result }
    {
        let serial = self.book.serial();
        let made = self.call(REPLAYER, RoomCall::Leave { serial, seat, key });
        set_key(&mut self.keys, seat, None);
        made
    }

    fn clear_match(&mut self) -> Replayed
        requires same { self.old.book.room ≡ self.old.room }
        ensures same { self.new.book.room ≡ self.new.room }
        ensures room { self.new.room ≡ self.old.room }
        ensures does { (h : List (Entry (Asks GameKind))) → StandsFor any_rules self.old.book h → Fits self.old.keys.items (serials any_rules self.old.room h) (standing any_rules self.old.room h)
            → Does self.old.room h change.Clear self.new.book self.new.keys.items result }
    {
        let serial = self.book.serial();
        self.call(REPLAYER, RoomCall::Clear { serial })
    }

    /// Makes an action again by its seat's pass, and takes out what the pass was told. It stays attached for the seat's next action.
    fn act(&mut self, alloc: Global, seat: Seat, asked: Asked) -> Replayed
        requires few { self.old.room ≤ 63 }
        requires same { self.old.book.room ≡ self.old.room }
        ensures same { self.new.book.room ≡ self.new.room }
        ensures room { self.new.room ≡ self.old.room }
        ensures does { (h : List (Entry (Asks GameKind))) → StandsFor any_rules self.old.book h → Fits self.old.keys.items (serials any_rules self.old.room h) (standing any_rules self.old.room h)
            → Does self.old.room h (change.Act seat asked) self.new.book self.new.keys.items result }
    {
        let pass = pass_of(seat);
        let made = self.submit_by(alloc, pass, seat, asked);
        if !self.call_anyway(pass, RoomCall::Take) {
            return Replayed::NoMemory;
        }
        made
    }

    /// Makes an action again. The pass is attached anew where its session doesn't make it.
    fn submit_by(&mut self, alloc: Global, pass: u32, seat: Seat, asked: Asked) -> Replayed
        requires few { self.old.room ≤ 63 }
        requires same { self.old.book.room ≡ self.old.room }
        ensures same { self.new.book.room ≡ self.new.room }
        ensures room { self.new.room ≡ self.old.room }
        ensures does { (h : List (Entry (Asks GameKind))) → StandsFor any_rules self.old.book h → Fits self.old.keys.items (serials any_rules self.old.room h) (standing any_rules self.old.room h)
            → Does self.old.room h (change.Act seat asked) self.new.book self.new.keys.items result }
    {
        match self.submit_at_once(alloc, pass, seat, &asked) {
            Replayed::Done => {
                drop(asked);
                Replayed::Done
            }
            Replayed::NoMemory => {
                drop(asked);
                Replayed::NoMemory
            }
            Replayed::Refused => self.submit(pass, seat, asked),
        }
    }

    /// Makes an action again by the session of a pass that looks from its seat.
    fn submit_at_once(&mut self, alloc: Global, pass: u32, seat: Seat, asked: &Asked) -> Replayed
        requires few { self.old.room ≤ 63 }
        requires same { self.old.book.room ≡ self.old.room }
        ensures same { self.new.book.room ≡ self.new.room }
        ensures room { self.new.room ≡ self.old.room }
        ensures keys { self.new.keys.items ≡ self.old.keys.items }
        ensures tries { (h : List (Entry (Asks GameKind))) → StandsFor any_rules self.old.book h → Tries self.old.room h (change.Act seat asked.now) self.new.book result }
    {
        if !looks_from(self.book.viewer_of(pass), seat) {
            return Replayed::Refused;
        }
        let (Some(key), Some(number)) = (key_of(&self.keys, seat), self.book.number()) else {
            return Replayed::Refused;
        };
        let serial = self.book.serial();
        if serial == 0 {
            return Replayed::Refused;
        }
        let Ok(asked) = asked.copy(alloc) else {
            return Replayed::NoMemory;
        };
        self.call(
            pass,
            RoomCall::Submit(Submission {
                name: MatchName::new(self.room, serial),
                key,
                number,
                ticket: 0,
                asked,
            }),
        )
    }

    /// Makes an action again, as its seat's player submits it.
    fn submit(&mut self, pass: u32, seat: Seat, asked: Asked) -> Replayed
        requires few { self.old.room ≤ 63 }
        requires same { self.old.book.room ≡ self.old.room }
        ensures same { self.new.book.room ≡ self.new.room }
        ensures room { self.new.room ≡ self.old.room }
        ensures does { (h : List (Entry (Asks GameKind))) → StandsFor any_rules self.old.book h → Fits self.old.keys.items (serials any_rules self.old.room h) (standing any_rules self.old.room h)
            → Does self.old.room h (change.Act seat asked) self.new.book self.new.keys.items result }
    {
        let key = match key_of(&self.keys, seat) {
            Some(key) => key,
            None => {
                drop(asked);
                return Replayed::Refused;
            }
        };
        let number = match self.book.number() {
            Some(number) => number,
            None => {
                drop(asked);
                return Replayed::Refused;
            }
        };
        let serial = self.book.serial();
        if serial == 0 {
            // no match stands before one is made
            drop(asked);
            return Replayed::Refused;
        }
        if !self.attach(pass, serial, seat, key) {
            drop(asked);
            return Replayed::NoMemory;
        }
        self.call(
            pass,
            RoomCall::Submit(Submission {
                name: MatchName::new(self.room, serial),
                key,
                number,
                ticket: 0,
                asked,
            }),
        )
    }

    /// Attaches the pass to a seat anew; false where there was no memory.
    fn attach(&mut self, pass: u32, serial: u64, seat: Seat, key: Key) -> bool
        requires same { self.old.book.room ≡ self.old.room }
        ensures same { self.new.book.room ≡ self.new.room }
        ensures room { self.new.room ≡ self.old.room }
        ensures keys { self.new.keys.items ≡ self.old.keys.items }
        ensures attaches { (h : List (Entry (Asks GameKind))) → StandsFor any_rules self.old.book h
            → result ≡ true → StandsFor any_rules self.new.book (entry pass (call_of.Attach serial (Some (seat, key)) protocol.Two) false ∷ entry pass call_of.Detach false ∷ h) }
    {
        if !self.call_anyway(pass, RoomCall::Detach) {
            return false;
        }
        self.call_anyway(
            pass,
            RoomCall::Attach {
                serial,
                viewer: Some((seat, key)),
                protocol: Protocol::Two,
            },
        )
    }

    /// Detaches every pass that made actions again.
    pub(crate) fn release(&mut self)
        ensures same { self.new.book.room ≡ self.old.book.room }
        ensures room { self.new.room ≡ self.old.room }
        ensures stays { (room : ℕ) (h : List (Entry (Asks GameKind))) → StandsFor any_rules self.old.book h → HasStayed room h self.new.book }
    {
        'seats: for seat in 0..32 {
            self.detach(pass_of(seat));
        }
    }

    /// Detaches a pass.
    fn detach(&mut self, pass: u32)
        ensures same { self.new.book.room ≡ self.old.book.room }
        ensures room { self.new.room ≡ self.old.room }
        ensures stays { (room : ℕ) (h : List (Entry (Asks GameKind))) → StandsFor any_rules self.old.book h → HasStayed room h self.new.book }
    {
        let reply = self.book.apply(pass, RoomCall::Detach);
        drop(reply);
    }
}

/// The pass that makes a seat's actions again.
fn pass_of(seat: Seat) -> u32 {
    REPLAYER + u32::from(seat % 32)
}

/// Whether these look from a seat, and their session goes on.
fn looks_from(viewer: Option<Option<Seat>>, seat: Seat) -> bool
    ensures { result ≡ true → viewer ≡ Some (Some seat) }
{
    match viewer {
        Some(Some(own)) => own == seat,
        Some(None) | None => false,
    }
}

/// No key for each of so many seats.
fn no_keys(alloc: Global, seats: u8) -> Result<Vec<Option<Key>>, NoMemory>
    ensures { IfOk result (λ keys. keys.items ≡ replicate seats None) }
{
    let mut keys = Vec::with_capacity(alloc, usize::from(seats))?;
    'seats: for _seat in 0..seats {
        keys.push(None)?;
    }
    Ok(keys)
}

/// Notes the key of a seat. There may be no such seat.
fn set_key(keys: &mut Vec<Option<Key>>, seat: Seat, key: Option<Key>)
    ensures { keys.new.items ≡ slice_set keys.old.items seat key }
{
    let place = usize::from(seat);
    if place < keys.len() {
        keys[place] = key;
    }
}

/// The key of a seat; none where nobody sits there.
fn key_of(keys: &Vec<Option<Key>>, seat: Seat) -> Option<Key>
    ensures { result ≡ option_flatten (slice_get keys.now.items seat) }
{
    match keys.get(usize::from(seat)) {
        Some(key) => *key,
        None => None,
    }
}
