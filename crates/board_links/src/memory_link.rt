//! A link in memory, which says what a script says and keeps all that it is sent.

ghost use Rattle.std.specs.Prelude.{◌≡◌, ◌≤◌, [], nat_lt, length, Some, None, IfOk, if◌then◌else◌, true};
ghost use Rattle.board_links.specs.Answers.{CameRaises, IsWithin, OutRaises, Sends, answers_after, stage_after};
ghost use Rattle.board_links.specs.MemoryLink.{Hears, Keeps, ended, heard, is_fault, place_after, said};
ghost use Rattle.board_links.specs.Memory.{next_count};
ghost use Rattle.board_links.specs.declared.link.Came.TheVariants as came;
ghost use Rattle.board_links.specs.declared.link.Stage.TheVariants as at;

use crate::link::{Came, Link, Out, SessionEnd, Stage};
use game_sheet::{Bytes, List, MatchName, NoMemory, Seat};
use std::alloc::Global;
use std::marker::Model;
use std::sync::Wait;

/// What a link in memory says next.
#[derive(Drop)]
pub enum Scripted {
    /// A line, without its newline.
    Line(Vec<u8>),
    /// Nothing.
    Quiet,
}

/// What a link in memory says after its script.
#[derive(Clone, Copy)]
pub enum AtEnd {
    /// It has ended.
    Ended,
    /// Nothing, for ever.
    Quiet,
}

/// A link in memory.
pub struct MemoryLink {
    alloc: Global,
    script: Vec<Scripted>,
    at_end: AtEnd,
    limit: u32,
    answers: Vec<Came>,
    sent: Vec<u8>,
    failing: List<u64>,
    progress: Progress,
    finished: Option<SessionEnd>,
}

impl Drop for MemoryLink {
    fn drop(self) {
        let MemoryLink {
            alloc: _,
            script,
            at_end,
            limit: _,
            answers,
            sent,
            failing,
            progress,
            finished: _,
        } = self;
        drop(script);
        drop(at_end);
        drop(answers);
        drop(sent);
        drop(failing);
        drop(progress);
    }
}

/// How far a link in memory has come: its place in the script, its calls and faults, and what it told of its end.
#[derive(Clone, Copy)]
struct Progress {
    place: usize,
    calls: u64,
    faults: u64,
    stage: Stage,
}

impl Model for MemoryLink {
    ghost use Rattle.std.specs.Prelude.{◌≤◌, drop, length};
    ghost use Rattle.board_links.specs.MemoryLink.{LinkState};

    ghost Value = { LinkState };

    ghost view = { λ l. record {
      left = drop l.progress.place l.script.items;
      at_end = l.at_end;
      limit = l.limit;
      answers = l.answers.items;
      sent = l.sent.items;
      calls = l.progress.calls;
      failing = l.failing;
      faults = l.progress.faults;
      stage = l.progress.stage;
      finished = l.finished;
    } };

    ghost invariant = { λ l. l.progress.place ≤ length l.script.items };
}

impl MemoryLink {
    /// A link that says what the script says, with lines of at most `limit` bytes, and then ends or stays quiet. Its calls of these
    /// numbers fail, counted from 1.
    pub fn new(
        alloc: Global,
        script: Vec<Scripted>,
        at_end: AtEnd,
        limit: u32,
        failing: List<u64>,
    ) -> MemoryLink
        ensures { result ≡ record { left = script.items; at_end = at_end; limit = limit; answers = []; sent = []; calls = 0; failing = failing; faults = 0; stage = at.Open; finished = None } }
    {
        let progress = Progress {
            place: 0,
            calls: 0,
            faults: 0,
            stage: Stage::Open,
        };
        MemoryLink {
            alloc,
            script,
            at_end,
            limit,
            answers: Vec::new(alloc),
            sent: Vec::new(alloc),
            failing,
            progress,
            finished: None,
        }
    }

    /// The bytes that it was sent.
    pub fn sent(&self) -> &[u8]
        ensures { result.now ≡ self.now.sent }
    {
        self.sent.as_slice()
    }

    /// What a receive answers next.
    fn heard(&self) -> Result<Came, NoMemory>
        ensures { IfOk result (λ answer. answer ≡ heard self.now) }
    {
        let call = self.progress.calls.saturating_add(1);
        if self.failing.as_slice().contains(&call) {
            return Ok(Came::Failed);
        }
        said(
            self.alloc,
            &self.script.as_slice()[self.progress.place..],
            self.at_end,
            self.limit,
        )
    }

    /// The same, twice: once to answer and once to tell.
    fn heard_twice(&self) -> Result<(Came, Came), NoMemory>
        ensures answer { IfOk result (λ both. both.0 ≡ heard self.now) }
        ensures told { IfOk result (λ both. both.1 ≡ heard self.now) }
    {
        let answer = self.heard()?;
        match self.heard() {
            Ok(told) => Ok((answer, told)),
            Err(NoMemory) => {
                drop(answer);
                Err(NoMemory)
            }
        }
    }
}

/// What a script says next.
fn said(alloc: Global, left: &[Scripted], at_end: AtEnd, limit: u32) -> Result<Came, NoMemory>
    ensures { IfOk result (λ answer. answer ≡ said left.now at_end limit) }
{
    match left.first() {
        None => Ok(ended(at_end)),
        Some(Scripted::Quiet) => Ok(Came::Quiet),
        Some(Scripted::Line(line)) => line_said(alloc, line.as_slice(), limit),
    }
}

fn line_said(alloc: Global, line: &[u8], limit: u32) -> Result<Came, NoMemory>
    ensures { IfOk result (λ answer. answer ≡ (if nat_lt limit (length line.now) then came.TooLong else came.Line line.now)) }
{
    if line.len() > limit as usize {
        return Ok(Came::TooLong);
    }
    Ok(Came::Line(Bytes::from_vec(Vec::from_slice(alloc, line)?)))
}

fn ended(at_end: AtEnd) -> Came
    ensures { result ≡ ended at_end }
{
    match at_end {
        AtEnd::Ended => Came::Ended,
        AtEnd::Quiet => Came::Quiet,
    }
}

/// What a link tells of its end after an answer.
fn stage_after(answer: &Came, stage: Stage) -> Stage
    ensures { result ≡ stage_after answer.now stage }
{
    match answer {
        Came::Ended => Stage::Ended,
        Came::TooLong => Stage::TooLong,
        Came::NoMemory => stage,
        Came::Line(_) | Came::Quiet | Came::Failed => Stage::Open,
    }
}

/// How many faults there are after an answer.
fn faults_after(answer: &Came, faults: u64) -> u64
    ensures value { result ≡ (if is_fault answer.now then next_count faults else faults) }
    ensures never_falls { faults ≤ result }
{
    match answer {
        Came::Failed => faults.saturating_add(1),
        _ => faults,
    }
}

/// The place in a script of this length after an answer.
fn place_after(answer: &Came, place: usize, length: usize) -> usize
    requires { place ≤ length }
    ensures { result ≡ place_after answer.now place length }
{
    match answer {
        Came::Line(_) | Came::Quiet if place < length => place + 1,
        _ => place,
    }
}

/// How far a link has come after an answer, with a script of this length.
fn progress_after(answer: &Came, before: Progress, length: usize) -> Progress
    requires { before.place ≤ length }
    ensures place { result.place ≡ place_after answer.now before.place length }
    ensures inside { result.place ≤ length }
    ensures calls { result.calls ≡ next_count before.calls }
    ensures faults { result.faults ≡ (if is_fault answer.now then next_count before.faults else before.faults) }
    ensures never_falls { before.faults ≤ result.faults }
    ensures stage { result.stage ≡ stage_after answer.now before.stage }
{
    Progress {
        place: place_after(answer, before.place, length),
        calls: before.calls.saturating_add(1),
        faults: faults_after(answer, before.faults),
        stage: stage_after(answer, before.stage),
    }
}

impl Link for MemoryLink {
    ghost use Rattle.std.specs.Prelude.{Some};

    ghost answers = { λ l. Some l.answers };

    ghost sent = { λ l. Some l.sent };

    ghost faults = { λ l. l.faults };

    ghost stage = { λ l. l.stage };

    ghost limit = { λ l. l.limit };

    ghost clear = { λ _. true };

    ghost finished = { λ l. l.finished };

    fn limit(&self) -> u32 {
        self.limit
    }

    fn receive<R: Wait>(&mut self, _rt: &R) -> Came
        ensures never_falls { self.old.faults ≤ self.new.faults }
        ensures raises { CameRaises result self.old.faults self.new.faults }
        ensures stage { self.new.stage ≡ stage_after result self.old.stage }
        ensures within { IsWithin self.old.limit result }
        ensures limit { self.new.limit ≡ self.old.limit }
        ensures told { Some self.new.answers ≡ answers_after result (Some self.old.answers) }
        ensures sent { Some self.new.sent ≡ Some self.old.sent }
        ensures finished { self.new.finished ≡ self.old.finished }
        ensures hears { Hears result self.old self.new }
    {
        if self.answers.reserve(1).is_err() {
            return Came::NoMemory;
        }
        let Ok((answer, told)) = self.heard_twice() else {
            return Came::NoMemory;
        };
        self.answers.push_reserved(told);
        self.progress = progress_after(&answer, self.progress, self.script.len());
        answer
    }

    fn send<R: Wait>(&mut self, _rt: &R, bytes: &[u8]) -> Out
        ensures never_falls { self.old.faults ≤ self.new.faults }
        ensures raises { OutRaises result self.old.faults self.new.faults }
        ensures stage { self.new.stage ≡ self.old.stage }
        ensures limit { self.new.limit ≡ self.old.limit }
        ensures answers { Some self.new.answers ≡ Some self.old.answers }
        ensures told { Sends result bytes.now self.old.sent (Some self.new.sent) }
        ensures finished { self.new.finished ≡ self.old.finished }
        ensures keeps { Keeps result bytes.now self.old self.new }
    {
        self.progress.calls = self.progress.calls.saturating_add(1);
        if self.failing.as_slice().contains(&self.progress.calls) {
            self.progress.faults = self.progress.faults.saturating_add(1);
            return Out::Failed;
        }
        if self.sent.extend_from_slice(bytes).is_err() {
            return Out::NoMemory;
        }
        Out::Done
    }

    fn flush(&mut self) -> bool
        ensures clear { result ≡ true }
        ensures same { self.new ≡ self.old }
    {
        true
    }

    fn finish(&mut self, end: SessionEnd)
        ensures { self.new ≡ record self.old { finished = Some end } }
    {
        self.finished = Some(end);
    }

    fn bot_seat(&self) -> Option<(MatchName, Seat)> {
        None
    }

    fn ask_out(&mut self)
        ensures { self.new ≡ self.old }
    {}
}
