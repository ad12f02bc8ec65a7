//! What lines have told a bot's link.

ghost use Rattle.std.specs.Prelude.{◌≡◌, None, OnErr, OnOk};
ghost use Rattle.bot_sitter.specs.Told.{first_key, nothing, told_line, told_of};

use game_sheet::{Key, NoMemory};
use std::alloc::Global;
use wire_json::{ServerMsg, WireNo, read_server};

/// What lines have told a bot's link.
#[derive(Clone, Copy)]
pub struct Told {
    /// The key of its seat, which the first `joined` gave.
    pub key: Option<Key>,
    /// Whether there was a bye, a refusal or a line in no form.
    pub over: bool,
    /// Whether there was an `again`.
    pub again: bool,
    /// Whether there was a `left`.
    pub left: bool,
}

impl Told {
    /// No line was sent yet.
    pub fn nothing() -> Self
        ensures { result ≡ nothing }
    {
        Told {
            key: None,
            over: false,
            again: false,
            left: false,
        }
    }

    /// Reads a line. Without memory nothing is told.
    pub fn read(&mut self, alloc: Global, line: &[u8]) -> Result<(), NoMemory>
        ensures told { OnOk result (self.new ≡ told_line self.old line.now) }
        ensures unchanged { OnErr result (self.new ≡ self.old) }
    {
        match read_server(alloc, line) {
            Ok(message) => {
                self.hear(&message);
                drop(message);
                Ok(())
            }
            Err(WireNo::NoMemory) => Err(NoMemory),
            Err(_) => {
                self.over = true;
                Ok(())
            }
        }
    }

    /// Takes a message in.
    fn hear(&mut self, message: &ServerMsg)
        ensures { self.new ≡ told_of self.old message.now }
    {
        match message {
            ServerMsg::Joined { key, .. } => self.take_key(*key),
            ServerMsg::Left { .. } => self.left = true,
            ServerMsg::Again { .. } => self.again = true,
            ServerMsg::Refused(_) | ServerMsg::Bye(_) => self.over = true,
            ServerMsg::Games(_)
            | ServerMsg::Matches(_)
            | ServerMsg::Match(_)
            | ServerMsg::Created { .. }
            | ServerMsg::Renamed { .. }
            | ServerMsg::Asked { .. }
            | ServerMsg::Sync { .. }
            | ServerMsg::Update { .. }
            | ServerMsg::Change { .. }
            | ServerMsg::Ok { .. }
            | ServerMsg::No { .. } => {}
        }
    }

    /// The first key stays.
    fn take_key(&mut self, key: Key)
        ensures { self.new ≡ record { key = first_key self.old.key key; over = self.old.over; again = self.old.again; left = self.old.left } }
    {
        if self.key.is_none() {
            self.key = Some(key);
        }
    }
}
