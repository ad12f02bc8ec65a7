//! A link over a WebSocket.

ghost use Rattle.std.specs.Arc.{arc_value};
ghost use Rattle.std.specs.Prelude.{◌≡◌, ◌≤◌, ◌&&◌, None, Some, true, IfOk, IsOk, length, option_map, take};
ghost use Rattle.board_links.specs.Answers.{CameRaises, IsWithin, OutRaises, stage_after};
ghost use Rattle.board_links.specs.Faults.{HasRisen};
ghost use Rattle.board_links.specs.declared.link.Stage.TheVariants as at;
ghost use Rattle.ws_link.specs.Frames.{held_limit};
ghost use Rattle.ws_link.specs.Peers.{FramesFlushed, FramesHanded, FramesHeard, FramesSaid, HeadMet, IsBounded, IsMet, IsOpen, IsRaw, PageAnswered, TakesLines, close_number, held_of, is_clear, is_done, waits_for};
ghost use Rattle.tungstenite.specs.CloseCode.{close_code_number};

use crate::framing::{Framing, LINE, Slip};
use crate::greeting::{Greeting, Halt};
use board_links::{Came, Link, Out, SessionEnd, Stage};
use game_sheet::{Bye, MatchName, Seat, Text};
use page_files::Pages;
use std::alloc::Global;
use std::io::{Read, Write};
use std::mem;
use std::sync::{Arc, Wait};
use websocket::protocol::CloseCode;

/// How far a link is with its peer.
#[derive(Drop)]
pub enum Peer<T> {
    /// The handshake is still to be made.
    Greets(Greeting<T>),
    /// The handshake was made.
    Open(Framing<T>),
    /// The head asked for a file of the page, whose answer waits to be sent. Nothing is heard any more.
    Answers(Framing<T>),
    /// The handshake failed, or the session is over: the stream was let go.
    Gone,
}

/// Whether a receive stopped though its stream may have more.
#[derive(Clone, Copy)]
pub enum Rest {
    /// It didn't.
    Nothing,
    /// It did, and `flush` has to say that the link isn't done.
    Due,
    /// It did, and `flush` has said so.
    Told,
}

/// A link over a WebSocket, as a server has it, over any stream that doesn't wait. A send lets its frames wait, which `flush` writes as far as the
/// stream takes them. It tells neither its answers nor what it was sent.
#[derive(Drop)]
pub struct WsLink<T> {
    pub(crate) peer: Peer<T>,
    rest: Rest,
    /// Whether the next receive has to fail.
    broken: bool,
    faults: u64,
    stage: Stage,
    finished: Option<SessionEnd>,
}

impl<T: Read + Write + Drop> WsLink<T> {
    /// A link past its handshake.
    pub fn raw(alloc: Global, stream: T) -> WsLink<T>
        ensures faults { ⟦<WsLink<T> as Link>⟧.faults result ≡ 0 }
        ensures stage { ⟦<WsLink<T> as Link>⟧.stage result ≡ at.Open }
        ensures finished { ⟦<WsLink<T> as Link>⟧.finished result ≡ None }
        ensures raw { IsRaw stream result.peer }
        ensures limits { TakesLines result.peer }
    {
        WsLink::with(Peer::Open(Framing::new(alloc, stream)))
    }

    /// A link that makes the handshake in its first calls, as soon as its peer's head has come. A peer that names the origin of a page has to name
    /// this one, if one is said; another is answered 403. A head that asks for no WebSocket is answered by these pages, if there are some.
    pub fn greet_with(
        alloc: Global,
        stream: T,
        origin: Option<Arc<Text, Global>>,
        pages: Option<Arc<Pages, Global>>,
    ) -> WsLink<T>
        ensures faults { ⟦<WsLink<T> as Link>⟧.faults result ≡ 0 }
        ensures stage { ⟦<WsLink<T> as Link>⟧.stage result ≡ at.Open }
        ensures finished { ⟦<WsLink<T> as Link>⟧.finished result ≡ None }
        ensures waits { waits_for stream (option_map arc_value pages) result.peer }
    {
        WsLink::with(Peer::Greets(Greeting::new(alloc, stream, origin, pages)))
    }

    fn with(peer: Peer<T>) -> WsLink<T>
        ensures { (result.peer ≡ peer) × (result.faults ≡ 0) × (result.stage ≡ at.Open) × (result.finished ≡ None) }
    {
        WsLink {
            peer,
            rest: Rest::Nothing,
            broken: false,
            faults: 0,
            stage: Stage::Open,
            finished: None,
        }
    }

    /// Its stream; none once it was let go.
    pub(crate) fn stream(&self) -> Option<&T> {
        match &self.peer {
            Peer::Greets(greeting) => Some(greeting.stream()),
            Peer::Open(framing) | Peer::Answers(framing) => Some(framing.stream()),
            Peer::Gone => None,
        }
    }

    /// The next receive fails.
    pub(crate) fn spoil(&mut self)
        ensures { self.new ≡ record self.old { broken = true } }
    {
        self.broken = true;
    }

    /// Counts a fault.
    fn fail(&mut self)
        ensures raises { HasRisen self.old.faults self.new.faults }
        ensures never_falls { self.old.faults ≤ self.new.faults }
        ensures same { self.new ≡ record self.old { faults = self.new.faults } }
    {
        self.faults = self.faults.saturating_add(1);
    }

    /// The next line.
    fn come(&mut self) -> Came
        ensures frames { FramesHeard T.remaining self.old.peer self.new.peer result }
        ensures page { PageAnswered T.remaining self.old.peer self.new.peer }
        ensures bounded { IsBounded self.old.peer self.new.peer result }
        ensures within { IsWithin 65536 result }
        ensures same { self.new ≡ record self.old { peer = self.new.peer; rest = self.new.rest } }
    {
        if self.broken {
            return Came::Failed;
        }
        come(&mut self.peer, &mut self.rest)
    }
}

/// Makes the handshake where it wasn't made and the head has come. A head that asks for a file of the page is answered so instead.
fn greeted<T: Read + Write + Drop>(peer: &mut Peer<T>) -> Result<(), Halt>
    ensures open { IsOpen peer.old → IsOk result }
    ensures same { IsOpen peer.old → peer.new ≡ peer.old }
    ensures met { HeadMet T.remaining peer.old peer.new }
    ensures held { held_of peer.old ≤ held_limit → held_of peer.new ≤ held_limit }
    ensures limits { TakesLines peer.old → TakesLines peer.new }
{
    let count = match peer {
        Peer::Greets(greeting) => match greeting.read_head() {
            Ok(count) => count,
            Err(Halt::Wait) => return Err(Halt::Wait),
            Err(halt) => {
                *peer = Peer::Gone;
                return Err(halt);
            }
        },
        Peer::Open(_) => return Ok(()),
        Peer::Answers(_) => return Err(Halt::Answered),
        Peer::Gone => return Err(Halt::Failed),
    };
    let Peer::Greets(greeting) = mem::replace(peer, Peer::Gone) else {
        return Err(Halt::Failed);
    };
    *peer = met(greeting, count)?;
    match peer {
        Peer::Open(_) => Ok(()),
        _ => Err(Halt::Answered),
    }
}

/// A peer whose head of so many bytes has come: answered with a file of the page, or past its handshake.
fn met<T: Read + Write + Drop>(greeting: Greeting<T>, count: usize) -> Result<Peer<T>, Halt>
    requires { count ≤ length greeting.head.items }
    ensures met { IfOk result (IsMet greeting (take count greeting.head.items)) }
    ensures held { IfOk result (λ peer. held_of peer ≤ length greeting.head.items) }
    ensures limits { IfOk result TakesLines }
{
    match greeting.page(count)? {
        Some(answer) => Ok(Peer::Answers(greeting.answering(answer))),
        None => Ok(Peer::Open(greeting.open(count)?)),
    }
}

/// The next line of a peer. Whether the stream may have more though none is told is `rest` then.
fn come<T: Read + Write + Drop>(peer: &mut Peer<T>, rest: &mut Rest) -> Came
    ensures frames { FramesHeard T.remaining peer.old peer.new result }
    ensures page { PageAnswered T.remaining peer.old peer.new }
    ensures bounded { IsBounded peer.old peer.new result }
    ensures within { IsWithin 65536 result }
{
    match greeted(peer) {
        Ok(()) => {}
        Err(Halt::Wait) => return Came::Quiet,
        Err(Halt::Answered) => return Came::Ended,
        Err(Halt::NoMemory) => return Came::NoMemory,
        Err(Halt::Failed) => return Came::Failed,
    }
    let Peer::Open(framing) = peer else {
        return Came::Failed;
    };
    match framing.hear() {
        Some(came) => came,
        None => {
            *rest = Rest::Due;
            Came::Quiet
        }
    }
}

/// Lets whole lines wait for a peer.
fn put<T: Read + Write + Drop>(peer: &mut Peer<T>, bytes: &[u8]) -> Out
    ensures frames { FramesSaid peer.old peer.new bytes.now result }
    ensures page { PageAnswered T.remaining peer.old peer.new }
{
    match greeted(peer) {
        Ok(()) => {}
        Err(Halt::NoMemory) => return Out::NoMemory,
        Err(_) => return Out::Failed,
    }
    match peer {
        Peer::Open(framing) => match framing.say(bytes) {
            Ok(()) => Out::Done,
            Err(Slip::NoMemory) => Out::NoMemory,
            Err(Slip::Closed) => Out::Failed,
        },
        _ => Out::Failed,
    }
}

/// Hands on what waits for a peer, and says whether its stream didn't fail.
fn handed<T: Read + Write + Drop>(peer: &mut Peer<T>) -> bool
    ensures frames { FramesHanded T.contents peer.old peer.new result }
{
    match peer {
        Peer::Open(framing) => framing.hand_on(),
        Peer::Answers(framing) => framing.hand_on(),
        _ => true,
    }
}

/// Whether nothing waits for a peer.
fn clear<T>(peer: &Peer<T>) -> bool
    ensures { result ≡ is_clear peer.now }
{
    match peer {
        Peer::Open(framing) | Peer::Answers(framing) => framing.is_clear(),
        _ => true,
    }
}

/// The code of the close by which a session ends.
fn close_code(end: SessionEnd) -> CloseCode
    ensures { close_code_number result ≡ close_number end }
{
    match end {
        SessionEnd::Ended | SessionEnd::Bye(Bye::Left) => CloseCode::Normal,
        SessionEnd::Bye(Bye::Lagging) => CloseCode::Policy,
        SessionEnd::TooLong => CloseCode::Size,
        SessionEnd::LinkFault | SessionEnd::NoMemory => CloseCode::Error,
    }
}

impl<T: Read + Write + Drop> Link for WsLink<T> {
    ghost use Rattle.std.specs.Prelude.{◌&&◌, None};
    ghost use Rattle.ws_link.specs.Peers.{is_clear, is_done};

    ghost answers = { λ _. None };

    ghost sent = { λ _. None };

    ghost faults = { λ l. l.faults };

    ghost stage = { λ l. l.stage };

    ghost limit = { λ _. 65536 };

    ghost clear = { λ l. is_done l.rest && is_clear l.peer };

    ghost finished = { λ l. l.finished };

    fn limit(&self) -> u32 {
        LINE
    }

    fn receive<R: Wait>(&mut self, _rt: &R) -> Came
        ensures never_falls { self.old.faults ≤ self.new.faults }
        ensures raises { CameRaises result self.old.faults self.new.faults }
        ensures stage { self.new.stage ≡ stage_after result self.old.stage }
        ensures within { IsWithin 65536 result }
        ensures finished { self.new.finished ≡ self.old.finished }
        ensures frames { FramesHeard T.remaining self.old.peer self.new.peer result }
        ensures page { PageAnswered T.remaining self.old.peer self.new.peer }
        ensures bounded { IsBounded self.old.peer self.new.peer result }
    {
        let came = self.come();
        match &came {
            Came::Line(_) | Came::Quiet => self.stage = Stage::Open,
            Came::Ended => self.stage = Stage::Ended,
            Came::TooLong => self.stage = Stage::TooLong,
            Came::Failed => {
                self.stage = Stage::Open;
                self.fail();
            }
            Came::NoMemory => {}
        }
        came
    }

    fn send<R: Wait>(&mut self, _rt: &R, bytes: &[u8]) -> Out
        ensures never_falls { self.old.faults ≤ self.new.faults }
        ensures raises { OutRaises result self.old.faults self.new.faults }
        ensures stage { self.new.stage ≡ self.old.stage }
        ensures finished { self.new.finished ≡ self.old.finished }
        ensures frames { FramesSaid self.old.peer self.new.peer bytes.now result }
        ensures page { PageAnswered T.remaining self.old.peer self.new.peer }
    {
        if self.broken {
            self.fail();
            return Out::Failed;
        }
        let out = put(&mut self.peer, bytes);
        if out == Out::Failed {
            self.fail();
        }
        out
    }

    /// Writes what waits, once. Where a receive stopped though its stream may have more, it says once that the link isn't done, so that the
    /// link is asked again.
    fn flush(&mut self) -> bool
        ensures clear { result ≡ (is_done self.new.rest && is_clear self.new.peer) }
        ensures faults { self.new.faults ≡ self.old.faults }
        ensures stage { self.new.stage ≡ self.old.stage }
        ensures finished { self.new.finished ≡ self.old.finished }
        ensures frames { FramesFlushed T.contents self.old.peer self.new.peer self.new.broken }
    {
        if !handed(&mut self.peer) {
            self.broken = true;
        }
        match self.rest {
            Rest::Due => {
                self.rest = Rest::Told;
                return false;
            }
            Rest::Told => self.rest = Rest::Nothing,
            Rest::Nothing => {}
        }
        clear(&self.peer)
    }

    /// Sends a close as far as the stream takes it, and lets the stream go.
    fn finish(&mut self, end: SessionEnd) {
        self.finished = Some(end);
        let Peer::Open(mut framing) = mem::replace(&mut self.peer, Peer::Gone) else {
            return;
        };
        framing.close(close_code(end));
        let _handed = framing.hand_on();
    }

    fn bot_seat(&self) -> Option<(MatchName, Seat)> {
        None
    }

    fn ask_out(&mut self) {}
}
