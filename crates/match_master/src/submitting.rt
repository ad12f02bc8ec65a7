//! The actions that are submitted to a room.

ghost use Rattle.std.specs.Prelude.{◌≡◌, ◌+◌, ℕ, Option, IsSome, IfOk, IfSome, true, option_map, nat_eq};
ghost use Rattle.std.specs.Map.{lookup};
ghost use Rattle.reducer.specs.Prepared.{IsReady};
ghost use Rattle.wire_json.specs.declared.verdict.Verdict.TheVariants as verdict;
ghost use Rattle.room_history.specs.Match.{Match};
ghost use Rattle.wire_json.specs.declared.server.ServerMsg.TheVariants.{Ok as Accepts};
ghost use Rattle.wire_json.specs.ServerText.{text};
ghost use Rattle.room_history.specs.declared.reply.RoomReply.TheVariants as answer;
ghost use Rattle.match_master.specs.Attached.{open_viewer};
ghost use Rattle.match_master.specs.Does.{Does, SubmitDoes, with_accepted, with_refused};
ghost use Rattle.match_master.specs.Held.{is_starved, running_of};

use crate::book::Book;
use crate::judge::{Judged, judge};
use crate::staging::stage;
use crate::{attachments, line};
use game_sheet::{NoMemory, Number};
use game_trait::Game;
use move_log::{Entry, KeptEntry};
use reducer::Prepared;
use room_history::RoomReply;
use std::alloc::Global;
use std::sync::Arc;
use wire_json::{Reason, Submission, Verdict};

impl<X: Game + Drop> Book<X> {
    /// Judges an action, and tells what became of it.
    pub(crate) fn submit(&mut self, pass: u32, submission: &Submission) -> RoomReply
        ensures room { self.new.room ≡ self.old.room }
        ensures does { (standing : Option (Match X X.G)) → self.old.running ≡ option_map (running_of X.rules) standing
            → SubmitDoes X.rules self.old pass submission.now result self.new (open_viewer (lookup (nat_eq pass) self.old.attachments)) standing }
        ensures starved { is_starved result ≡ true → self.new ≡ self.old }
    {
        let Some(viewer) = attachments::open_viewer(&self.attachments, pass) else {
            return RoomReply::NotAttached;
        };
        let Some(running) = &self.running else {
            return RoomReply::NotAttached;
        };
        let number = running.state.number();
        match judge(self.alloc, self.room, running, viewer, submission) {
            Err(_) => RoomReply::NoMemory,
            Ok(Judged::Refused(reason)) => self.refuse(pass, number, reason, submission.ticket),
            Ok(Judged::Accepted { prepared, entry }) => self.accept(
                pass,
                prepared,
                entry,
                submission.ticket,
            ),
        }
    }

    /// Tells a pass that its action was refused.
    fn refuse(&mut self, pass: u32, number: Number, reason: Reason, ticket: u32) -> RoomReply
        ensures room { self.new.room ≡ self.old.room }
        ensures does { Does self.old result self.new (answer.Verdict (verdict.No number reason)) (with_refused self.old pass number reason ticket) }
        ensures starved { is_starved result ≡ true → self.new ≡ self.old }
    {
        let Ok(line) = line::no(self.alloc, number, reason, ticket) else {
            return RoomReply::NoMemory;
        };
        let Ok(line) = Arc::new(self.alloc, line) else {
            return RoomReply::NoMemory;
        };
        match attachments::tell_own(&mut self.attachments, pass, &line) {
            Err(_) => RoomReply::NoMemory,
            Ok(()) => RoomReply::Verdict(Verdict::No { number, reason }),
        }
    }

    /// Takes an accepted action in, and tells everybody.
    fn accept(
        &mut self,
        pass: u32,
        prepared: Prepared<X::G>,
        entry: Entry,
        ticket: u32,
    ) -> RoomReply
        requires running { IsSome self.old.running }
        requires ready { IfSome self.old.running (λ r. IsReady (X.rules r.game) r.state prepared) }
        ensures room { self.new.room ≡ self.old.room }
        ensures does { IfSome self.old.running (λ r. Does self.old result self.new (answer.Verdict (verdict.Ok prepared.number)) (with_accepted X.rules self.old r pass prepared entry ticket)) }
        ensures starved { is_starved result ≡ true → self.new ≡ self.old }
    {
        let number = prepared.number();
        let Ok(verdict) = accepted_line(self.alloc, number, ticket) else {
            drop(prepared);
            return RoomReply::NoMemory;
        };
        let Ok(kept) = KeptEntry::of(self.alloc, &entry) else {
            drop(prepared);
            return RoomReply::NoMemory;
        };
        let Some(running) = &self.running else {
            unreachable!();
        };
        let told = &mut self.attachments;
        let Ok(()) = stage(self.alloc, running, &prepared, &entry, told, pass, &verdict) else {
            drop(prepared);
            return RoomReply::NoMemory;
        };
        let Some(running) = &mut self.running else {
            unreachable!();
        };
        let Ok(()) = running.advance(prepared, kept) else {
            return RoomReply::NoMemory;
        };
        attachments::commit_all(&mut self.attachments);
        RoomReply::Verdict(Verdict::Ok { number })
    }
}

/// The line that tells a session that its action was accepted, as outboxes hold it.
fn accepted_line(alloc: Global, number: Number, ticket: u32) -> Result<Arc<Vec<u8>>, NoMemory>
    ensures { IfOk result (λ told. told.value.items ≡ text (Accepts number ticket)) }
{
    let line = line::ok(alloc, number, ticket)?;
    Ok(Arc::new(alloc, line)?)
}
