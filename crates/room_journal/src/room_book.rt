//! A room's book as an object whose accepted changes are kept.

ghost use Rattle.std.specs.Prelude.{◌≡◌, ◌≤◌, ◌++◌, [], ◌∷◌, List, IfOk};
ghost use Rattle.any_game.specs.AnyRules.{any_rules};
ghost use Rattle.any_game.specs.GameKind.{GameKind};
ghost use Rattle.match_master.specs.Held.{is_starved as says_starved, may_starve as can_starve};
ghost use Rattle.record_file.specs.Records.{framed};
ghost use Rattle.room_changes.specs.ChangesOf.{is_accepted as says_accepted};
ghost use Rattle.room_history.specs.Room.{number as number_in, reply as reply_in, serials};
ghost use Rattle.room_history.specs.declared.call.RoomCall.{RoomCall as Asks};
ghost use Rattle.room_object.specs.Entry.{Entry};
ghost use Rattle.room_journal.specs.Coming.{StandsIn};
ghost use Rattle.room_journal.specs.Kept.{IsInForm, room_payload, room_records};

use any_game::AnyGame;
use change_text::put_asked_change;
use game_sheet::{Key, NoMemory, Number};
use match_master::Book;
use object_journal::Recorded;
use room_history::{RoomCall, RoomReply};
use room_object::Object;
use std::alloc::Global;
use wire_json::Verdict;

/// The book of one room, and the keys of its seats, by which its records make its actions again.
pub struct RoomBook {
    /// The number of the room.
    pub(crate) room: u8,
    pub(crate) book: Book<AnyGame>,
    /// One for each seat of the match that stands. They are kept while records are read.
    pub(crate) keys: Vec<Option<Key>>,
}

impl Drop for RoomBook {
    fn drop(self) {
        let RoomBook {
            room: _,
            book,
            keys,
        } = self;
        drop(book);
        drop(keys);
    }
}

impl RoomBook {
    /// The book of a room in which nothing has happened. The room is 0 to 63.
    pub fn new(alloc: Global, room: u8) -> Result<Self, NoMemory>
        requires { room ≤ 63 }
        ensures room { IfOk result (λ b. b.room ≡ room) }
        ensures stands { IfOk result (λ b. StandsIn b.room b.book []) }
    {
        let book = Book::new(alloc, room)?;
        Ok(RoomBook {
            room,
            book,
            keys: Vec::new(alloc),
        })
    }

    /// How many matches were made. It takes no memory.
    pub fn serial(&self) -> u64
        ensures { (h : List (Entry (Asks GameKind))) → StandsIn self.now.room self.now.book h → result ≡ serials any_rules self.now.room h }
    {
        self.book.serial()
    }

    /// The state number of the match that stands; none where none stands. It takes no memory.
    pub fn number(&self) -> Option<Number>
        ensures { (h : List (Entry (Asks GameKind))) → StandsIn self.now.room self.now.book h → result ≡ number_in any_rules self.now.room h }
    {
        self.book.number()
    }
}

impl Object for RoomBook {
    type Call = RoomCall<AnyGame>;

    type Reply = RoomReply;

    ghost number = { λ b. b.room };

    ghost stands_for = { λ b h. StandsIn b.room b.book h };

    ghost reply = { λ room h e. reply_in any_rules room h e };

    ghost is_starved = { says_starved };

    ghost may_starve = { can_starve };

    fn apply(&mut self, pass: u32, call: RoomCall<AnyGame>) -> RoomReply {
        self.book.apply(pass, call)
    }
}

impl Recorded for RoomBook {
    ghost use Rattle.std.specs.Prelude.{refl};
    ghost use Rattle.room_journal.specs.Laws.{starved_declined};

    ghost records = { room_records };

    ghost payload_of = { room_payload };

    ghost is_accepted = { says_accepted };

    ghost is_in_form = { IsInForm };

    ghost begins = { λ n. refl };

    ghost starved_alone = { starved_declined };

    #[tactic(auto, using(crate::proofs::Adding::asks, crate::proofs::Adding::adds_none, crate::proofs::Adding::adds_some))]
    fn frame_of(
        &self,
        alloc: Global,
        pass: u32,
        call: &RoomCall<AnyGame>,
    ) -> Result<Option<Vec<u8>>, NoMemory> {
        let mut payload = Vec::new(alloc);
        if !put_asked_change(alloc, &mut payload, self.book.viewer_of(pass), call)? {
            drop(payload);
            return Ok(None);
        }
        let frame = frame_with(alloc, &payload)?;
        Ok(Some(frame))
    }

    fn accepted(reply: &RoomReply) -> bool {
        match reply {
            RoomReply::Created { .. }
            | RoomReply::Joined
            | RoomReply::Renamed
            | RoomReply::Left
            | RoomReply::Cleared => true,
            RoomReply::Verdict(Verdict::Ok { .. }) => true,
            _ => false,
        }
    }

    fn starved(reply: &RoomReply) -> bool {
        match reply {
            RoomReply::NoMemory => true,
            _ => false,
        }
    }
}

/// A payload with its length before it and a closed gate behind it. One of four gigabytes has no frame, and no memory is said of it.
fn frame_with(alloc: Global, payload: &[u8]) -> Result<Vec<u8>, NoMemory>
    ensures { IfOk result (λ frame. frame.items ≡ framed payload.now) }
{
    let Ok(count) = u32::try_from(payload.len()) else {
        return Err(NoMemory);
    };
    let mut frame = Vec::new(alloc);
    frame.extend_from_slice(&count.to_le_bytes())?;
    frame.extend_from_slice(payload)?;
    frame.push(0)?;
    Ok(frame)
}
