//! What waits for one attachment until it is taken.

ghost use Rattle.std.specs.Prelude.{◌≡◌, ◌+◌, ◌≤◌, true, false, is_some, length, OnOk, IfOk};
ghost use Rattle.std.specs.List.{concat};
ghost use Rattle.game_sheet.specs.Lines.{is_line};
ghost use Rattle.match_master.specs.Outgoing.{committed, emptied, unstaged, with_end, with_line, with_sync};

use game_sheet::{Bye, Bytes, NoMemory};
use std::alloc::Global;
use std::marker::Model;
use std::mem;
use std::sync::Arc;

/// The most bytes that may wait for an attachment, its sync line not counted.
const MOST_WAITING: usize = 4_194_304;

/// The lines that wait, how many of their bytes count, and how the stream ended, if it has; and the same as it will be once what is
/// staged is committed. So the lines of an action are staged at each attachment before the first has them, and all or none are told
/// when memory runs out. Lines are shared with other outboxes.
pub struct Outbox {
    lines: Vec<Arc<Vec<u8>>>,
    waiting: usize,
    count: usize,
    end: Option<Bye>,
    staged_count: usize,
    staged_end: Option<Bye>,
}

impl Drop for Outbox {
    fn drop(self) {
        let Outbox {
            lines,
            waiting: _,
            count: _,
            end: _,
            staged_count: _,
            staged_end: _,
        } = self;
        drop(lines);
    }
}

impl Model for Outbox {
    ghost use Rattle.std.specs.Prelude.{◌≡◌, ◌≤◌, true, length, map, take};
    ghost use Rattle.std.specs.List.{list_all};
    ghost use Rattle.game_sheet.specs.Lines.{is_line};
    ghost use Rattle.match_master.specs.Outgoing.{Outgoing};

    ghost Value = { Outgoing };

    ghost view = { λ o. record {
      now = record { waiting = map (λ line. line.value.items) (take o.waiting o.lines.items); count = o.count; end = o.end };
      next = record { waiting = map (λ line. line.value.items) o.lines.items; count = o.staged_count; end = o.staged_end };
    } };

    ghost invariant = { λ o. (o.waiting ≤ length o.lines.items) × (o.count ≤ 4194304) × (o.staged_count ≤ 4194304)
        × (list_all (λ line. is_line line.value.items) o.lines.items ≡ true) };
}

impl Outbox {
    /// An outbox in which a sync line waits.
    pub fn with(alloc: Global, sync: Arc<Vec<u8>>) -> Result<Self, NoMemory>
        requires { is_line sync.value.items ≡ true }
        ensures { IfOk result (λ o. o.now ≡ with_sync sync.value.items) }
    {
        let mut lines = Vec::new(alloc);
        lines.push(sync)?;
        Ok(Outbox {
            lines,
            waiting: 1,
            count: 0,
            end: None,
            staged_count: 0,
            staged_end: None,
        })
    }

    /// How many of the bytes that wait count as waiting.
    pub fn count(&self) -> usize
        ensures { result ≡ self.now.now.count }
    {
        self.count
    }

    /// How the stream ended, if it has.
    pub fn end(&self) -> Option<Bye>
        ensures { result ≡ self.now.now.end }
    {
        self.end
    }

    /// Forgets what is staged.
    pub fn unstage(&mut self)
        ensures { self.new ≡ unstaged self.old }
    {
        self.lines.truncate(self.waiting);
        self.staged_count = self.count;
        self.staged_end = self.end;
    }

    /// Stages one more line, or, where too much would wait, the end. What waits is as before.
    pub fn stage(&mut self, line: &Arc<Vec<u8>>) -> Result<(), NoMemory>
        requires { is_line line.now.value.items ≡ true }
        ensures now { self.new.now ≡ self.old.now }
        ensures next { OnOk result (self.new.next ≡ with_line line.now.value.items self.old.next) }
    {
        if self.staged_end.is_some() {
            return Ok(());
        }
        let count = self.staged_count + line.len();
        if count > MOST_WAITING {
            self.staged_end = Some(Bye::Lagging);
            return Ok(());
        }
        let shared = Arc::try_clone(line)?;
        self.lines.push(shared)?;
        self.staged_count = count;
        Ok(())
    }

    /// Lets wait what is staged. It takes no memory.
    pub fn commit(&mut self)
        ensures { self.new ≡ committed self.old }
    {
        self.waiting = self.lines.len();
        self.count = self.staged_count;
        self.end = self.staged_end;
    }

    /// Ends the stream, unless it has ended. It takes no memory.
    pub fn close(&mut self, why: Bye)
        ensures { self.new.now ≡ with_end why self.old.now }
    {
        if self.end.is_none() {
            self.end = Some(why);
        }
    }

    /// Takes out the lines that wait, with the end of the stream, if it has ended. It takes no memory.
    pub fn take(&mut self, alloc: Global) -> (Bytes, Option<Bye>)
        ensures bytes { result.0 ≡ concat self.old.now.waiting }
        ensures end { result.1 ≡ self.old.now.end }
        ensures emptied { self.new.now ≡ emptied self.old.now }
    {
        self.unstage();
        let lines = mem::replace(&mut self.lines, Vec::new(alloc));
        self.waiting = 0;
        self.count = 0;
        (Bytes::from_lines(lines), self.end)
    }
}
