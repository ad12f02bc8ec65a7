//! The calls on a room by which passes look at its match, and take what waits for them.

ghost use Rattle.std.specs.Prelude.{◌≡◌, ◌≤◌, ℕ, Bool, Option, None, Some, IsSome, IfSome, true, false, if◌then◌else◌, option_map, nat_eq, is_some};
ghost use Rattle.std.specs.Map.{lookup};
ghost use Rattle.indexmap.specs.IndexMap.{insert_entry};
ghost use Rattle.game_sheet.specs.Viewer.{seat_of};
ghost use Rattle.room_history.specs.Held.{attachment_state, attachment_take_reply, attachment_with};
ghost use Rattle.room_history.specs.Match.{Match};
ghost use Rattle.room_history.specs.Piece.{Mark};
ghost use Rattle.room_history.specs.Reply.{attached_match, reply_by};
ghost use Rattle.room_history.specs.Session.{detach_reply};
ghost use Rattle.room_history.specs.declared.reply.RoomReply.TheVariants as answer;
ghost use Rattle.match_master.specs.Attached.{Becomes};
ghost use Rattle.match_master.specs.Does.{Does, barred_by, sync_at, with_attachment};
ghost use Rattle.match_master.specs.Held.{is_starved, running_of};

use crate::book::Book;
use crate::running_match::RunningMatch;
use crate::{attachments, line};
use game_sheet::{MatchName, NoMemory, Viewer, seat_of};
use game_trait::Game;
use room_history::RoomReply;
use std::sync::Arc;
use wire_json::Protocol;

impl<X: Game + Drop> Book<X> {
    /// Attaches a pass to the match that stands.
    pub(crate) fn attach(
        &mut self,
        pass: u32,
        serial: u64,
        viewer: Viewer,
        protocol: Protocol,
    ) -> RoomReply
        ensures room { self.new.room ≡ self.old.room }
        ensures does { (standing : Option (Match X X.G)) → self.old.running ≡ option_map (running_of X.rules) standing
            → Does self.old result self.new (reply_by (λ (m : Match X X.G). answer.Attached) (attached_match standing (attachment_state (lookup (nat_eq pass) self.old.attachments)) serial viewer))
            (with_attachment X.rules self.old pass viewer protocol (attached_match standing (attachment_state (lookup (nat_eq pass) self.old.attachments)) serial viewer)) }
        ensures starved { is_starved result ≡ true → self.new ≡ self.old }
    {
        let before = attachments::is_attached(&self.attachments, pass);
        match barred(&self.running, before, serial, &viewer) {
            Some(why) => why,
            None => self.begin_session(pass, viewer, protocol),
        }
    }

    /// Attaches a viewer to the match that stands.
    fn begin_session(&mut self, pass: u32, viewer: Viewer, protocol: Protocol) -> RoomReply
        requires { IsSome self.old.running }
        ensures room { self.new.room ≡ self.old.room }
        ensures does { IfSome self.old.running (λ r. Does self.old result self.new answer.Attached
            (record self.old { attachments = insert_entry nat_eq self.old.attachments pass (sync_at X.rules self.old.room r viewer protocol) })) }
        ensures starved { is_starved result ≡ true → self.new ≡ self.old }
    {
        let Some(running) = &self.running else {
            unreachable!();
        };
        let name = MatchName::new(self.room, running.serial);
        let Ok(line) = line::sync(
            self.alloc,
            &running.game,
            name,
            seat_of(&viewer),
            protocol,
            &running.state,
            running.log.as_slice(),
        ) else {
            return RoomReply::NoMemory;
        };
        let Ok(sync) = Arc::new(self.alloc, line) else {
            return RoomReply::NoMemory;
        };
        match attachments::attach(
            self.alloc,
            &mut self.attachments,
            pass,
            viewer,
            protocol,
            sync,
        ) {
            Ok(()) => RoomReply::Attached,
            Err(NoMemory) => RoomReply::NoMemory,
        }
    }

    /// Hands out what waits for a pass. It takes no memory.
    pub(crate) fn take(&mut self, pass: u32) -> RoomReply
        ensures reply { result ≡ attachment_take_reply (lookup (nat_eq pass) self.old.attachments) }
        ensures fed { is_starved result ≡ false }
        ensures same { self.new ≡ record self.old { attachments = self.new.attachments } }
        ensures after { Becomes pass (attachment_with Mark (lookup (nat_eq pass) self.old.attachments)) self.old.attachments self.new.attachments }
    {
        match attachments::take(self.alloc, &mut self.attachments, pass) {
            None => RoomReply::NotAttached,
            Some((bytes, end)) => RoomReply::Taken { bytes, end },
        }
    }

    /// Ends the attachment of a pass. It takes no memory.
    pub(crate) fn detach(&mut self, pass: u32) -> RoomReply
        ensures reply { result ≡ detach_reply (attachment_state (lookup (nat_eq pass) self.old.attachments)) }
        ensures fed { is_starved result ≡ false }
        ensures same { self.new ≡ record self.old { attachments = self.new.attachments } }
        ensures after { Becomes pass None self.old.attachments self.new.attachments }
    {
        if attachments::detach(&mut self.attachments, pass) {
            RoomReply::Detached
        } else {
            RoomReply::NotAttached
        }
    }
}

/// Why an Attach doesn't let a viewer look at the match that stands; none where it does.
fn barred<X, G>(
    running: &Option<RunningMatch<X, G>>,
    attached: bool,
    serial: u64,
    viewer: &Viewer,
) -> Option<RoomReply>
    ensures { result ≡ barred_by (option_map (λ r. (r.serial, r.roster)) running.now) attached serial viewer.now }
{
    if attached {
        return Some(RoomReply::AlreadyAttached);
    }
    let Some(running) = running else {
        return Some(RoomReply::NoMatch);
    };
    if running.serial != serial {
        return Some(RoomReply::NoMatch);
    }
    match viewer {
        None => None,
        Some((seat, key)) => {
            if running.roster.key_fits(*seat, key) {
                None
            } else {
                Some(RoomReply::Unauthorized)
            }
        }
    }
}
