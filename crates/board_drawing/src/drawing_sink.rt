//! A sink that draws what is shown.

ghost use Rattle.std.specs.Prelude.{◌≡◌, ◌≤◌};
ghost use Rattle.board_links.specs.Pieces.{WriteRaises};

use crate::drawing::draw;
use board_links::{Put, Sink};
use std::alloc::Global;
use std::str;

/// A sink that hands on all that it is given, and draws each snapshot below the line that shows it. It takes lines whole or several at once; a
/// line that comes in pieces isn't drawn. Nor is one for which there is no memory.
#[derive(Drop)]
pub struct DrawingSink<K> {
    alloc: Global,
    sink: K,
}

impl<K: Sink> DrawingSink<K> {
    /// A sink that draws on this one.
    pub fn new(alloc: Global, sink: K) -> Self
        ensures { ⟦<DrawingSink<K> as Sink>⟧.faults result ≡ K.faults sink }
    {
        DrawingSink { alloc, sink }
    }
}

impl<K: Sink> Sink for DrawingSink<K> {
    ghost use Rattle.std.specs.Prelude.{None};

    ghost held = { λ _. None };

    ghost faults = { λ s. K.faults s.sink };

    fn put(&mut self, bytes: &[u8]) -> Put {
        match self.sink.put(bytes) {
            Put::Done => {}
            Put::Failed => return Put::Failed,
        }
        let mut drawn = Vec::new(self.alloc);
        if draw_shown(self.alloc, bytes, &mut drawn) {
            self.sink.put(drawn.as_slice())
        } else {
            Put::Done
        }
    }
}

/// Draws what the line `shown` among these shows, and says whether it did.
fn draw_shown(alloc: Global, lines: &[u8], drawn: &mut Vec<u8>) -> bool {
    for line in lines.split(|b| *b == b'\n') {
        if let Some(snapshot) = line.strip_prefix(b"shown ".as_slice())
            && let Ok(text) = str::from_utf8(snapshot)
        {
            return draw(alloc, text, drawn).is_ok();
        }
    }
    false
}
