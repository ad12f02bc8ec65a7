//! Lines over a WebSocket past its handshake: the protocol's frames over a stream, with what came and what waits to be sent in memory.

ghost use Rattle.std.specs.Prelude.{◌≡◌, ◌==◌, ◌≤◌, ◌<◌, ◌+◌, ◌++◌, ◌∷◌, [], None, Some, false, true, length, take, drop, option_map, vec_len, vec_capacity, unwrap_or, IfErr, IfOk, IfSome, OnOk, OnErr, MatchOption};
ghost use Rattle.board_links.specs.Answers.{IsWithin};
ghost use Rattle.board_links.specs.declared.link.Came.TheVariants.{Quiet};
ghost use Rattle.game_sheet.specs.Lines.{lines};
ghost use Rattle.tungstenite.specs.Socket.{IsFresh};
ghost use Rattle.websocket.specs.Connection.{read_step, write_step};
ghost use Rattle.websocket.specs.Content.{IsReceivedInside, HasValidText, message_content, received_content};
ghost use Rattle.websocket.specs.View.{GivesError, IfMessage, IfReceived, KeepsRest, Leaves, ReadLeaves, Returns};
ghost use Rattle.websocket.specs.declared.protocol.config.Role.TheVariants.{Server};
ghost use Rattle.ws_link.specs.Frames.{HandsOn, Hears, IsLimited, Says, TellsNothing, frames_of, held_limit, line_told, message_of, message_tells, tells};
ghost use Rattle.ws_link.specs.Refusals.{IsHalt, Refused};

use board_links::Came;
use game_sheet::{Bytes, NoMemory};
use memchr::memchr;
use poll_links::{Outgoing, Wrote};
use std::alloc::Global;
use std::io;
use std::io::{ErrorKind, Read, Write};
use std::marker::Model;
use websocket::error::{Error, ProtocolError};
use websocket::protocol::{
    CloseCode, CloseFrame, FrameStatus, Message, NoMask, Received, Role, Step, WebSocketConfig,
    WebSocketContext,
};

/// How many bytes a line may have.
pub const LINE: u32 = 65_536;

/// How many bytes are read at once.
const ROOM: usize = 4_096;

/// How many bytes a frame has at most that can't be read yet: a header and those of a line.
const FRAME: usize = 65_550;

/// How many pings and pongs one receive reads.
const CONTROLS: u32 = 64;

/// How many frames and reads one receive makes.
const LOOKS: u32 = 1_024;

/// A WebSocket past its handshake, on the server's side, over a stream. Contracts see a socket of `tungstenite`: the stream, where the protocol
/// stands, what came and is no frame yet, and what waits to be sent.
#[derive(Drop)]
pub struct Framing<T> {
    alloc: Global,
    stream: T,
    context: WebSocketContext,
    input: Vec<u8>,
    output: Outgoing,
}

impl<T> Model for Framing<T> {
    ghost use Rattle.tungstenite.specs.Socket.{Socket};

    ghost Value = { Socket T };

    ghost view = { λ f. record { stream = f.stream; conn = f.context; input = f.input.items; output = f.output } };
}

impl<T> Framing<T> {
    /// A socket that has read and sent nothing.
    pub(crate) fn new(alloc: Global, stream: T) -> Framing<T>
        ensures fresh { IsFresh result stream Server }
        ensures limits { IsLimited result.conn }
    {
        Framing::begun(alloc, stream, Vec::new(alloc), Outgoing::new(alloc))
    }

    /// One to which these bytes came already, and by which those wait to be sent.
    pub(crate) fn begun(alloc: Global, stream: T, input: Vec<u8>, output: Outgoing) -> Framing<T>
        ensures fresh { IsFresh (record result { input = []; output = [] }) stream Server }
        ensures input { result.input ≡ input.items }
        ensures output { result.output ≡ output }
        ensures limits { IsLimited result.conn }
    {
        Framing {
            alloc,
            stream,
            context: WebSocketContext::new(alloc, Role::Server, limits()),
            input,
            output,
        }
    }

    /// Its stream.
    pub(crate) fn stream(&self) -> &T {
        &self.stream
    }

    /// Whether nothing waits to be sent.
    pub(crate) fn is_clear(&self) -> bool
        ensures { result ≡ (length self.now.output == 0) }
    {
        self.output.is_empty()
    }

    /// Takes off what came the frame that was read from it, and lets wait what it asked for as a reply. It says what the frame tells.
    fn taken(&mut self, step: &Step, reply: &[u8]) -> Result<Option<Came>, NoMemory>
        requires consumed { step.now.consumed ≤ length self.old.input }
        requires inside { IfSome step.now.message (IsReceivedInside self.old.input) }
        requires text { IfSome step.now.message (λ m. HasValidText (received_content self.old.input m)) }
        ensures tells { IfOk result (λ answer. answer ≡ message_tells (option_map (received_content self.old.input) step.now.message)) }
        ensures within { IfOk result (λ answer. IfSome answer (IsWithin 65536)) }
        ensures left { OnOk result (self.new ≡ record self.old { input = drop step.now.consumed self.old.input; output = self.old.output ++ reply.now }) }
        ensures held { OnErr result (self.new.input ≡ self.old.input) }
    {
        let told = match &step.message {
            Some(message) => told(self.alloc, &message.message(self.input.as_slice()))?,
            None => None,
        };
        let rest = Vec::from_slice(self.alloc, &self.input.as_slice()[step.consumed..])?;
        self.output.push(reply)?;
        self.input = rest;
        Ok(told)
    }

    /// One step of the protocol on what came, with what it asks for as a reply behind these bytes.
    fn read_frame(&mut self, reply: &mut Vec<u8>) -> Result<FrameStatus<Step>, Error>
        ensures returns { IfOk result (Returns (read_step self.old.conn self.old.input) self.new.input) }
        ensures leaves { OnOk result (ReadLeaves (read_step self.old.conn self.old.input) self.old.conn self.new.conn reply.old.items reply.new.items) }
        ensures keeps_rest { IfOk result (λ status. KeepsRest status self.old.input self.new.input) }
        ensures inside { IfOk result (λ status. IfMessage status (IsReceivedInside self.new.input)) }
        ensures valid_text { IfReceived result self.new.input HasValidText }
        ensures failed { IfErr result (GivesError (read_step self.old.conn self.old.input)) }
        ensures stream { self.new.stream ≡ self.old.stream }
        ensures output { self.new.output ≡ self.old.output }
        ensures same_len { length self.new.input ≡ length self.old.input }
    {
        self.context.read(&mut self.input, reply, &mut NoMask)
    }

    /// Lets lines wait to be sent, each as a message of its own: all of them, or none.
    pub(crate) fn say(&mut self, bytes: &[u8]) -> Result<(), Slip>
        ensures says { self.old.conn.role ≡ Server → OnOk result (Says self.old self.new bytes.now) }
        ensures same { OnErr result (self.new.output ≡ self.old.output) }
    {
        let mut frames = Vec::new(self.alloc);
        let mut rest = bytes;
        while !rest.is_empty() {
            let end = line_end(rest);
            self.frame(&rest[..end - 1], &mut frames)?;
            rest = &rest[end..];
        }
        match self.output.push(frames.as_slice()) {
            Ok(()) => Ok(()),
            Err(NoMemory) => Err(Slip::NoMemory),
        }
    }

    /// Puts a line, without its newline, behind these frames.
    fn frame(&mut self, line: &[u8], frames: &mut Vec<u8>) -> Result<(), Slip>
        ensures frame { OnOk result (Leaves (write_step self.old.conn (message_of line.now)) self.new.conn frames.old.items frames.new.items) }
        ensures same { self.new ≡ record self.old { conn = self.new.conn } }
    {
        match self.context.write(message(line), frames, &mut NoMask) {
            Ok(()) => Ok(()),
            Err(Error::OutOfMemory) => Err(Slip::NoMemory),
            Err(_) => Err(Slip::Closed),
        }
    }

    /// Lets a close wait to be sent. One that can't be sent is passed over.
    pub(crate) fn close(&mut self, code: CloseCode) {
        let mut frame = Vec::new(self.alloc);
        let close = CloseFrame { code, reason: "" };
        if self
            .context
            .close(Some(close), &mut frame, &mut NoMask)
            .is_ok()
        {
            let _waits = self.output.push(frame.as_slice());
        }
    }
}

/// Why lines can't be sent.
#[derive(Clone, Copy)]
pub(crate) enum Slip {
    /// A close was sent or read, or the connection failed.
    Closed,
    /// There was no memory.
    NoMemory,
}

impl<T: Write> Framing<T> {
    /// Writes what waits, once, and says whether the stream didn't fail. Where it does, nothing waits any more.
    pub(crate) fn hand_on(&mut self) -> bool
        ensures hands { result ≡ true → HandsOn T.contents self.old self.new }
        ensures clears { result ≡ false → self.new.output ≡ [] }
    {
        if self.output.is_empty() {
            return true;
        }
        match self.output.write_to(&mut self.stream) {
            Wrote::Some(_) | Wrote::Nothing => true,
            Wrote::Failed => {
                self.output.clear();
                false
            }
        }
    }
}

impl<T: Read> Framing<T> {
    /// The next line. It reads what the stream has, as far as a line needs it, and passes over pings and pongs; none where it stopped though the
    /// stream may have more. A message of more bytes than a line has is told as soon as the header of a frame says so.
    pub(crate) fn hear(&mut self) -> Option<Came>
        ensures hears { Hears T.remaining self.old self.new (unwrap_or result Quiet) }
        ensures held { length self.old.input ≤ held_limit → length self.new.input ≤ held_limit }
        ensures within { IfSome result (IsWithin 65536) }
    {
        let mut controls = 0;
        for _ in 0..LOOKS {
            if controls >= CONTROLS {
                return None;
            }
            if let Some(came) = self.hear_once(&mut controls) {
                return Some(came);
            }
        }
        None
    }

    /// What the next frame tells, or what a read does where none stands whole; none where it tells nothing. A ping or a pong is counted.
    fn hear_once(&mut self, controls: &mut u32) -> Option<Came>
        ensures hears { MatchOption result (TellsNothing T.remaining self.old self.new) (Hears T.remaining self.old self.new) }
        ensures held { length self.old.input ≤ held_limit → length self.new.input ≤ held_limit }
        ensures within { IfSome result (IsWithin 65536) }
    {
        let mut reply = Vec::new(self.alloc);
        match self.read_frame(&mut reply) {
            Ok(FrameStatus::Complete(step)) => {
                if step.message.is_some() {
                    *controls = controls.saturating_add(1);
                }
                match self.taken(&step, reply.as_slice()) {
                    Ok(answer) => answer,
                    Err(NoMemory) => Some(Came::NoMemory),
                }
            }
            Ok(FrameStatus::Partial(_)) => self.fill(),
            Err(error) => Some(refused(&error)),
        }
    }

    /// Reads once, and holds what came. Room is taken first, so that want of memory loses no byte. Nothing is read where more bytes came already than a
    /// frame can have that isn't whole.
    fn fill(&mut self) -> Option<Came>
        ensures hears { MatchOption result (TellsNothing T.remaining self.old self.new) (Hears T.remaining self.old self.new) }
        ensures held { length self.old.input ≤ held_limit → length self.new.input ≤ held_limit }
        ensures within { IfSome result (IsWithin 65536) }
    {
        if self.input.len() > FRAME {
            return Some(Came::Failed);
        }
        if self.input.reserve(ROOM).is_err() {
            return Some(Came::NoMemory);
        }
        let mut room = [0u8; ROOM];
        match self.stream.read(&mut room) {
            Ok(0) => Some(Came::Ended),
            Ok(count) => {
                add(&mut self.input, &room[..count]);
                None
            }
            Err(error) => Some(halted(&error)),
        }
    }
}

/// What a peer may send: no message and no frame of more bytes than a line has.
fn limits() -> WebSocketConfig
    ensures messages { result.max_message_size ≡ Some 65536 }
    ensures frames { result.max_frame_size ≡ Some 65536 }
{
    WebSocketConfig::default()
        .max_message_size(Some(LINE as usize))
        .max_frame_size(Some(LINE as usize))
}

/// Adds bytes for which there is room.
fn add(bytes: &mut Vec<u8>, more: &[u8])
    requires { vec_len bytes.old + length more.now ≤ vec_capacity bytes.old }
    ensures { bytes.new.items ≡ bytes.old.items ++ more.now }
{
    match bytes.extend_from_slice(more) {
        Ok(()) => {}
        Err(_) => unreachable!(),
    }
}

/// What a message tells.
fn told(alloc: Global, message: &Message<'_>) -> Result<Option<Came>, NoMemory>
    ensures tells { IfOk result (λ answer. answer ≡ tells (message_content message.now)) }
    ensures within { IfOk result (λ answer. IfSome answer (IsWithin 65536)) }
{
    Ok(match message {
        Message::Text(text) => Some(line(alloc, text.as_bytes())?),
        Message::Binary(bytes) => Some(line(alloc, bytes)?),
        Message::Close(_) => Some(Came::Ended),
        Message::Ping(_) | Message::Pong(_) => None,
    })
}

/// The line of these bytes.
fn line(alloc: Global, bytes: &[u8]) -> Result<Came, NoMemory>
    ensures told { IfOk result (λ came. came ≡ line_told bytes.now) }
    ensures within { IfOk result (IsWithin 65536) }
{
    if bytes.len() > LINE as usize {
        return Ok(Came::TooLong);
    }
    Ok(Came::Line(Bytes::from_vec(Vec::from_slice(alloc, bytes)?)))
}

/// What bytes tell that break the protocol or its limits, or came after a close.
fn refused(error: &Error) -> Came
    ensures refused { Refused error.now result }
    ensures within { IsWithin 65536 result }
{
    match error {
        Error::ConnectionClosed | Error::Protocol(ProtocolError::ResetWithoutClosingHandshake) =>
            Came::Ended,
        Error::OutOfMemory => Came::NoMemory,
        Error::Capacity(_) => Came::TooLong,
        _ => Came::Failed,
    }
}

/// What a stream's refusal to read tells.
fn halted(error: &io::Error) -> Came
    ensures halts { IsHalt result }
{
    match error.kind() {
        ErrorKind::WouldBlock | ErrorKind::Interrupted => Came::Quiet,
        ErrorKind::OutOfMemory => Came::NoMemory,
        _ => Came::Failed,
    }
}

/// How many bytes the first line has, its newline included.
fn line_end(bytes: &[u8]) -> usize
    requires { 0 < length bytes.now }
    ensures some { 0 < result }
    ensures within { result ≤ length bytes.now }
    ensures cuts { lines bytes.now ≡ take result bytes.now ∷ lines (drop result bytes.now) }
{
    match memchr(b'\n', bytes) {
        Some(at) => at + 1,
        None => bytes.len(),
    }
}

/// A line's message.
fn message<'a>(line: &'a [u8]) -> Message<'a>
    ensures { message_content result ≡ message_of line.entry.now }
{
    match str::from_utf8(line) {
        Ok(text) => Message::Text(text),
        Err(_) => Message::Binary(line),
    }
}
