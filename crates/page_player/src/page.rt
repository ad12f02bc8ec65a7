//! Runs the lines of a page.

ghost use Rattle.std.specs.Prelude.{◌≡◌, ◌≤◌, ◌++◌, ◌==◌, IsSome, None, OnOk, position};
ghost use Rattle.board_links.specs.Faults.{HasRisen};
ghost use Rattle.board_links.specs.Pieces.{told_bytes};
ghost use Rattle.line_runner.specs.Running.{AreInForm, EndsOver, ExitRaises, IsComplete};
ghost use Rattle.link_play.specs.Commands.{command_of};
ghost use Rattle.link_play.specs.Doing.{key_of};
ghost use Rattle.page_player.specs.Drawing.{drawn};
ghost use Rattle.page_player.specs.Page.{BeganBy, Ran, page_play};
ghost use Rattle.page_player.specs.PageLines.{Asks, Begins, Hears, asks_for, begins_at};
ghost use Rattle.wire_json.specs.Asking.{IsAskable};

use crate::begin::begun;
use crate::drawing::{draw, draw_nothing, put_line, sync_line};
use crate::line::{PageLine, line_of};
use crate::playing::{act, hear};
use any_game::AnyGame;
use board_links::{Sink, Source};
use client_predict::Client;
use game_sheet::{Key, MatchName, NoMemory, Viewer};
use line_runner::{Exit, Interpreter, LineNo, ended, run_lines};
use link_play::{Command, command_of};
use std::alloc::Global;
use std::marker::Model;
use wire_json::Asked;

/// Runs the lines of a page from a source, and writes into a sink what each leads to: the lines to send, and what is to be drawn.
///
/// `Done` comes where the source was read to its end; `BadLine` exactly where that line is the first in no form, `TooLong` exactly where that
/// line is the first of more than 65,536 bytes, and `TooMany` exactly where a byte follows the 1,000,000th newline, each where no earlier line
/// ends the run; a fault exactly where its count of faults rose. What the whole lines before a fault write has been written. Out of memory
/// the run ends.
pub fn run_page<S: Source, K: Sink>(alloc: Global, source: &mut S, sink: &mut K) -> Exit
    ensures source_never_falls { S.faults source.old ≤ S.faults source.new }
    ensures sink_never_falls { K.faults sink.old ≤ K.faults sink.new }
    ensures raises { ExitRaises result (S.faults source.old) (S.faults source.new) (K.faults sink.old) (K.faults sink.new) }
    ensures ends { IsSome (S.left source.old) → EndsOver page_play None (told_bytes (S.left source.old)) (told_bytes (S.left source.new)) (K.held sink.old) (K.held sink.new) result }
    ensures completes { IsSome (S.left source.old) → AreInForm page_play (told_bytes (S.left source.old))
        → (HasRisen (S.faults source.old) (S.faults source.new) → ⊥) → (HasRisen (K.faults sink.old) (K.faults sink.new) → ⊥) → IsComplete result }
{
    let mut page = Page::new(alloc);
    let exit = run_lines(alloc, &mut page, source, sink);
    drop(page);
    exit
}

/// A page: the client of a match, once a line has begun at one. Contracts see the client.
struct Page {
    alloc: Global,
    client: Option<Client<AnyGame>>,
}

impl Drop for Page {
    fn drop(self) {
        let Page { alloc: _, client } = self;
        drop(client);
    }
}

impl Model for Page {
    ghost use Rattle.page_player.specs.Page.{Sits};

    ghost Value = { Sits };

    ghost view = { λ p. p.client };
}

impl Page {
    fn new(alloc: Global) -> Self
        ensures { result ≡ None }
    {
        Page {
            alloc,
            client: None,
        }
    }

    /// Begins at the match that a line names.
    fn begin_at(&mut self, alloc: Global, line: &[u8], text: &mut Vec<u8>) -> Result<(), LineNo>
        ensures { BeganBy (begins_at line.now (position (λ b. b == 32) line.now)) result self.old self.new text.old.items text.new.items }
    {
        match begun(alloc, line) {
            Ok(Some(first)) => {
                let (game, who) = first;
                let (name, viewer) = who;
                ended(self.begin(game, name, viewer, text))
            }
            Ok(None) => Err(LineNo::BadLine),
            Err(_) => Err(LineNo::NoMemory),
        }
    }

    /// Begins at a match, and adds the line that asks for its stream.
    fn begin(
        &mut self,
        game: AnyGame,
        name: MatchName,
        viewer: Viewer,
        text: &mut Vec<u8>,
    ) -> Result<(), NoMemory>
        ensures { OnOk result (Ran (Begins game (record { name = name; viewer = viewer })) self.old self.new text.old.items text.new.items) }
    {
        let line = sync_line(self.alloc, name, viewer)?;
        let put = put_line(text, line.as_slice());
        drop(line);
        put?;
        self.client = Some(Client::new(self.alloc, game, key_of(&viewer)));
        self.draw(text)
    }

    /// Reads a line of the server.
    fn hear(&mut self, line: &[u8], text: &mut Vec<u8>) -> Result<(), NoMemory>
        ensures { OnOk result (Ran (Hears line.now) self.old self.new text.old.items text.new.items) }
    {
        if let Some(client) = &mut self.client {
            hear(client, line)?;
        }
        self.draw(text)
    }

    /// Does a command of the player.
    fn ask(&mut self, line: &[u8], text: &mut Vec<u8>) -> Result<(), NoMemory>
        ensures { OnOk result (Ran (asks_for (command_of line.now)) self.old self.new text.old.items text.new.items) }
    {
        match command_of(self.alloc, line)? {
            Some(Command::Acts(asked)) => {
                let acted = self.act(&asked, text);
                drop(asked);
                acted
            }
            other => {
                drop(other);
                self.draw(text)
            }
        }
    }

    /// Makes an action.
    fn act(&mut self, asked: &Asked, text: &mut Vec<u8>) -> Result<(), NoMemory>
        requires { IsAskable asked.now }
        ensures { OnOk result (Ran (Asks asked.now) self.old self.new text.old.items text.new.items) }
    {
        if let Some(client) = &mut self.client {
            act(client, asked, text)?;
        }
        self.draw(text)
    }

    /// Adds what is to be drawn.
    fn draw(&self, text: &mut Vec<u8>) -> Result<(), NoMemory>
        ensures { OnOk result (text.new.items ≡ text.old.items ++ drawn self.now) }
    {
        match &self.client {
            None => draw_nothing(text),
            Some(client) => draw(self.alloc, client, text),
        }
    }
}

/// The key that a viewer shows; none for a spectator.
fn key_of(viewer: &Viewer) -> Option<Key>
    ensures { result ≡ key_of viewer.now }
{
    match viewer {
        Some((_, key)) => Some(*key),
        None => None,
    }
}

impl Interpreter for Page {
    ghost use Rattle.page_player.specs.Page.{Sits, page_doing, page_play};
    ghost use Rattle.page_player.specs.PageLaws.{page_is_played};
    ghost use Rattle.page_player.specs.PageLines.{PageStep};

    ghost Mark = { Unit {0} };

    ghost Step = { PageStep };

    ghost State = { Sits };

    ghost play = { page_play };

    ghost doing = { page_doing };

    ghost one_by_one = { page_is_played };

    fn run_line(&mut self, alloc: Global, line: &[u8], text: &mut Vec<u8>) -> Result<(), LineNo> {
        match line_of(line) {
            PageLine::Hears(said) => ended(self.hear(said, text)),
            PageLine::Asks(command) => ended(self.ask(command, text)),
            PageLine::Begins(first) => self.begin_at(alloc, first, text),
        }
    }
}
