//! Where the program meets the system: standard input and output, sockets, and the words for seeds. `rt` is the system; `leave` is the leave to
//! wait and to start threads, which `main` is given.

ghost use Rattle.std.specs.Prelude.{◌≡◌, [], IfSome, Some, false, map, string_bytes, vec_len};
ghost use Rattle.board_commands.specs.Serving.{seats_asked};
ghost use Rattle.command_words.specs.Serve.{serve_from};
ghost use Rattle.command_words.specs.declared.serve.ServeWords.{ServeWords as Asked};

use crate::counted::{Addresses, CountedDoor, Notes};
use crate::journal_file::open_journal;
use crate::journals::Journals;
use crate::outside::SystemOutside;
use crate::tally::Tally;
use board_bots::{Bot, DiceBot, NoRest};
use board_commands::{kept, kept_path, play, print_page, run, seats_of, serve, serve_kept};
use board_drawing::DrawingSink;
use board_links::{Door, ReaderSource, WriterSink};
use command_words::{ServeWords, WordsNo, play_words, serve_words};
use dice_words::Tape;
use game_sheet::{NoMemory, Text};
use line_runner::Exit;
use link_rounds::Ready;
use page_files::{Pages, read_pages};
use poll_links::{PollDoor, PollReady, Watched, open};
use std::alloc::Global;
use std::fs::File;
use std::io::{self, Read};
use std::mem;
use std::net::{SocketAddr, TcpListener};
use std::os::fd::AsRawFd;
use std::sync::{Arc, Wait};
use std::thread::Threads;
use tcp_links::TcpLink;
use ws_link::{PollStreams, WsDoor};

/// Opens the null device where standard input, output or error is closed, so that no socket takes its place and is read or written for it.
/// What is closed still fails: as standard input it can't be read, and as the others it can't be written.
pub fn keep_standard(rt: &HostRuntime) -> io::Result<()> {
    for _stream in 0..3 {
        let unread = File::options().write(true).open(rt, NULL)?;
        match unread.as_raw_fd() {
            0 => mem::forget(unread),
            1 | 2 => {
                drop(unread);
                mem::forget(File::open(rt, NULL)?);
            }
            _ => return Ok(()),
        }
    }
    Ok(())
}

/// The null device.
const NULL: &str = "/dev/null";

/// How many bytes a line of a client may have.
const CLIENT_LINE: u32 = 65_536;

/// The stream of a server's seed from which the bot at seat 0 throws its die; that of each further seat follows.
const DICE: u64 = 33;

/// Prints a page on standard output.
pub fn print_here(rt: &HostRuntime, page: &str) -> Exit {
    print_page(&mut WriterSink::new(rt.stdout()), page)
}

/// Runs what standard input has.
pub fn run_here(rt: &HostRuntime, words: &[String]) -> Exit {
    let mut source = ReaderSource::new(rt.reader());
    let mut sink = WriterSink::new(rt.stdout());
    run(rt.alloc(), words, &mut source, &mut sink)
}

/// Runs the script of standard input over the room whose changes the file that the words name keeps.
pub fn kept_here(rt: &HostRuntime, words: &[String]) -> Exit {
    let Some(path) = kept_path(words) else {
        return Exit::Usage;
    };
    let Ok(path) = format!(in rt.alloc(); "{path}") else {
        return Exit::NoMemory;
    };
    match open_journal(rt, path) {
        Ok(disk) => {
            let mut source = ReaderSource::new(rt.reader());
            let mut sink = WriterSink::new(rt.stdout());
            let (exit, disk) = kept(rt.alloc(), words, &mut source, &mut sink, disk);
            drop(disk);
            exit
        }
        Err(error) => fault(&error, Exit::StoreFault),
    }
}

/// Plays a match over a link to the server that the words name.
pub fn play_there<R: Wait>(leave: &R, rt: &HostRuntime, words: &[String]) -> Exit {
    let (addr, draws) = match play_words(rt.alloc(), words) {
        Ok(asked) => {
            let addr = asked.connect.as_str().parse::<SocketAddr>();
            let draws = asked.draws;
            drop(asked);
            (addr, draws)
        }
        Err(no) => return refused(no),
    };
    let Ok(addr) = addr else {
        return Exit::LinkFault;
    };
    match TcpLink::connect(rt, rt.alloc(), addr) {
        Ok(link) => play_over(leave, rt, words, link, draws),
        Err(error) => fault(&error, Exit::LinkFault),
    }
}

/// Plays a match over this link, and draws what is shown where that is asked for.
fn play_over<R: Wait>(
    leave: &R,
    rt: &HostRuntime,
    words: &[String],
    link: TcpLink,
    draws: bool,
) -> Exit {
    let mut link = link;
    let mut source = ReaderSource::new(rt.reader());
    let mut sink = WriterSink::new(rt.stdout());
    let exit = if draws {
        let mut sink = DrawingSink::new(rt.alloc(), sink);
        play(leave, rt.alloc(), words, &mut source, &mut sink, &mut link)
    } else {
        play(leave, rt.alloc(), words, &mut source, &mut sink, &mut link)
    };
    drop(link);
    exit
}

/// Serves matches at the address that the words name.
pub fn serve_there<R: Threads + Wait + Sync>(
    leave: &R,
    rt: &HostRuntime,
    words: &[String],
) -> Exit {
    let asked = match serve_words(rt.alloc(), words) {
        Ok(asked) => asked,
        Err(no) => return refused(no),
    };
    let ServeWords {
        listen,
        rooms: _,
        workers,
        links,
        sessions,
        silence,
        idle: _,
        origin,
        page,
        keep,
        status,
        ws,
        bots: table,
        pace: _,
    } = asked;
    let seats = seats_of(&table);
    drop(table);
    let Ok(origin) = shared(rt.alloc(), origin) else {
        return Exit::NoMemory;
    };
    let pages = match pages_in(rt, page) {
        Ok(pages) => pages,
        Err(error) => return fault(&error, Exit::ReadFault),
    };
    let Ok(addr) = address_in(rt, listen.as_str()) else {
        return Exit::DoorFault;
    };
    let listener = match status_listener(rt, status) {
        Ok(listener) => listener,
        Err(error) => return fault(&error, Exit::DoorFault),
    };
    let opened = open(
        *rt,
        rt.alloc(),
        addr,
        CLIENT_LINE,
        if silence > 0 { Some(silence) } else { None },
        usize::from(workers),
        u32::from(links),
        // Bots' sessions count too, and need no connection.
        sessions.saturating_sub(u64::from(seats)),
    );
    match opened {
        Ok((door, readies)) => serve_door(
            leave, rt, words, seats, keep, listener, ws, origin, pages, door, readies,
        ),
        Err(error) => {
            say(rt, listen.as_str(), &error);
            drop(listener);
            fault(&error, Exit::DoorFault)
        }
    }
}

/// The address that a text says. One that says none is told on standard error.
fn address_in(rt: &HostRuntime, text: &str) -> io::Result<SocketAddr> {
    match text.parse::<SocketAddr>() {
        Ok(addr) => Ok(addr),
        Err(_) => {
            let error = io::Error::from(io::ErrorKind::InvalidInput);
            say(rt, text, &error);
            Err(error)
        }
    }
}

/// Says on standard error what the system made of a word of the call. A line that can't be written is lost.
pub(crate) fn say(rt: &HostRuntime, word: &str, error: &io::Error) {
    let _said = eprintln!(rt; "{word}: {error}");
}

/// Serves matches at this door, over WebSockets where that is asked for, with so many bots or in rooms that a folder keeps, and answers who asks at this
/// listener for the status.
fn serve_door<R: Threads + Wait + Sync>(
    leave: &R,
    rt: &HostRuntime,
    words: &[String],
    seats: u8,
    keep: Option<Text>,
    listener: Option<TcpListener>,
    ws: bool,
    origin: Option<Arc<Text, Global>>,
    pages: Option<Arc<Pages, Global>>,
    door: PollDoor<HostRuntime>,
    readies: Vec<PollReady<HostRuntime>>,
) -> Exit
    requires workers { (asked : Asked) → serve_from (map string_bytes words.now) ≡ Some asked → vec_len readies ≡ asked.workers }
    requires seats { (asked : Asked) → serve_from (map string_bytes words.now) ≡ Some asked → seats ≡ seats_asked asked.bots }
    requires given { ⟦<PollDoor<HostRuntime> as Door>⟧.given door ≡ 0 }
    requires out { ⟦<PollDoor<HostRuntime> as Door>⟧.out door ≡ 0 }
    requires bots_out { ⟦<PollDoor<HostRuntime> as Door>⟧.bots_out door ≡ 0 }
    requires shut { ⟦<PollDoor<HostRuntime> as Door>⟧.shut door ≡ false }
{
    let addresses = Addresses {
        door: door.addr().ok(),
        status: match &listener {
            Some(listener) => listener.local_addr().ok(),
            None => None,
        },
    };
    let journals = match keep {
        Some(folder) => Some(Journals::new(*rt, folder)),
        None => None,
    };
    let tally = Tally::new();
    let notes = Notes {
        addresses,
        tally: if listener.is_some() {
            Some(&tally)
        } else {
            None
        },
    };
    let outside = SystemOutside::new(*rt, listener, &tally, seats);
    if ws {
        let door = WsDoor::with_pages(rt.alloc(), PollStreams::over(door), origin, pages);
        serve_counted(
            leave, rt, words, seats, journals, readies, door, notes, outside,
        )
    } else {
        serve_counted(
            leave, rt, words, seats, journals, readies, door, notes, outside,
        )
    }
}

/// Serves matches at this door, of which these notes are taken.
fn serve_counted<'a, D: Door + Send, R: Threads + Wait + Sync>(
    leave: &R,
    rt: &HostRuntime,
    words: &[String],
    seats: u8,
    journals: Option<Journals>,
    readies: Vec<PollReady<HostRuntime>>,
    door: D,
    notes: Notes<'a>,
    outside: SystemOutside<'_>,
) -> Exit
where
    D::L: Watched + Send,
    requires workers { (asked : Asked) → serve_from (map string_bytes words.now) ≡ Some asked → vec_len readies ≡ asked.workers }
    requires seats { (asked : Asked) → serve_from (map string_bytes words.now) ≡ Some asked → seats ≡ seats_asked asked.bots }
    requires plain { D.has_bots ≡ false }
    requires given { D.given door ≡ 0 }
    requires out { D.out door ≡ 0 }
    requires bots_out { D.bots_out door ≡ 0 }
    requires shut { D.shut door ≡ false }
    requires none_back { IfSome (D.returned door) (λ told. told ≡ []) }
{
    let door = CountedDoor::new(*rt, door, notes);
    serve_at(leave, rt, words, seats, journals, readies, door, outside)
}

/// A listener that doesn't block, at which the status may be asked for, if an address is said. An Err is that it is in no form, or the system's; it was
/// told on standard error.
fn status_listener(rt: &HostRuntime, addr: Option<Text>) -> io::Result<Option<TcpListener>> {
    let Some(text) = addr else {
        return Ok(None);
    };
    let addr = address_in(rt, text.as_str())?;
    match listener_at(rt, addr) {
        Ok(listener) => Ok(Some(listener)),
        Err(error) => {
            say(rt, text.as_str(), &error);
            Err(error)
        }
    }
}

/// A listener at this address that doesn't block.
fn listener_at(rt: &HostRuntime, addr: SocketAddr) -> io::Result<TcpListener> {
    let listener = TcpListener::bind(rt, addr)?;
    listener.set_nonblocking(true)?;
    Ok(listener)
}

/// An origin for all links of a door.
fn shared(alloc: Global, origin: Option<Text>) -> Result<Option<Arc<Text, Global>>, NoMemory> {
    match origin {
        Some(origin) => Ok(Some(Arc::new(alloc, origin)?)),
        None => Ok(None),
    }
}

/// The files of the page in a folder, for all links of a door, if there is one. What the system has against the folder is told on standard error.
fn pages_in(rt: &HostRuntime, folder: Option<Text>) -> io::Result<Option<Arc<Pages, Global>>> {
    let Some(folder) = folder else {
        return Ok(None);
    };
    let pages = read_pages(rt, folder.as_str());
    if let Err(error) = &pages {
        say(rt, folder.as_str(), error);
    }
    drop(folder);
    match Arc::new(rt.alloc(), pages?) {
        Ok(pages) => Ok(Some(pages)),
        Err(_) => Err(io::Error::from(io::ErrorKind::OutOfMemory)),
    }
}

/// Serves matches at this door, with so many bots, or in rooms that these journals keep.
fn serve_at<D: Door + Send, W: Ready<D::L> + Send, R: Threads + Wait + Sync>(
    leave: &R,
    rt: &HostRuntime,
    words: &[String],
    seats: u8,
    journals: Option<Journals>,
    readies: Vec<W>,
    door: D,
    outside: SystemOutside<'_>,
) -> Exit
where
    D::L: Send,
    requires workers { (asked : Asked) → serve_from (map string_bytes words.now) ≡ Some asked → vec_len readies ≡ asked.workers }
    requires seats { (asked : Asked) → serve_from (map string_bytes words.now) ≡ Some asked → seats ≡ seats_asked asked.bots }
    requires plain { D.has_bots ≡ false }
    requires given { D.given door ≡ 0 }
    requires out { D.out door ≡ 0 }
    requires bots_out { D.bots_out door ≡ 0 }
    requires shut { D.shut door ≡ false }
    requires none_back { IfSome (D.returned door) (λ told. told ≡ []) }
{
    match (seed(rt), journals) {
        (Ok(seed), None) => match serve_seeded(
            leave, rt, words, seats, readies, door, outside, seed,
        ) {
            Ok(exit) => exit,
            Err(NoMemory) => Exit::NoMemory,
        },
        (Ok(seed), Some(journals)) => serve_over(
            leave, rt, words, journals, readies, door, outside, seed,
        ),
        (Err(error), journals) => {
            drop(journals);
            drop(readies);
            drop(door);
            drop(outside);
            fault(&error, Exit::DoorFault)
        }
    }
}

/// Serves matches at this door, in rooms that these journals keep, with the words of this seed.
fn serve_over<D: Door + Send, W: Ready<D::L> + Send, R: Threads + Wait + Sync>(
    leave: &R,
    rt: &HostRuntime,
    words: &[String],
    journals: Journals,
    readies: Vec<W>,
    door: D,
    outside: SystemOutside<'_>,
    seed: [u8; 32],
) -> Exit
where
    D::L: Send,
    requires workers { (asked : Asked) → serve_from (map string_bytes words.now) ≡ Some asked → vec_len readies ≡ asked.workers }
    requires given { D.given door ≡ 0 }
    requires out { D.out door ≡ 0 }
    requires bots_out { D.bots_out door ≡ 0 }
    requires shut { D.shut door ≡ false }
    requires none_back { IfSome (D.returned door) (λ told. told ≡ []) }
{
    let mut journals = journals;
    let mut sink = WriterSink::new(rt.stdout());
    let (exit, door, closed) = serve_kept(
        leave,
        rt.alloc(),
        words,
        &mut journals,
        readies,
        door,
        &mut sink,
        seed,
        outside,
    );
    drop(door);
    // The process ends with this run, and its files are closed with it.
    mem::forget(closed);
    drop(journals);
    exit
}

/// Serves matches at this door, with so many bots, and with the words of this seed. A bot never rests, since it gets a turn only where it may have
/// something to say.
fn serve_seeded<D: Door + Send, W: Ready<D::L> + Send, R: Threads + Wait + Sync>(
    leave: &R,
    rt: &HostRuntime,
    words: &[String],
    seats: u8,
    readies: Vec<W>,
    door: D,
    outside: SystemOutside<'_>,
    seed: [u8; 32],
) -> Result<Exit, NoMemory>
where
    D::L: Send,
    requires workers { (asked : Asked) → serve_from (map string_bytes words.now) ≡ Some asked → vec_len readies ≡ asked.workers }
    requires seats { (asked : Asked) → serve_from (map string_bytes words.now) ≡ Some asked → seats ≡ seats_asked asked.bots }
    requires plain { D.has_bots ≡ false }
    requires given { D.given door ≡ 0 }
    requires out { D.out door ≡ 0 }
    requires bots_out { D.bots_out door ≡ 0 }
    requires shut { D.shut door ≡ false }
    requires none_back { IfSome (D.returned door) (λ told. told ≡ []) }
{
    let alloc = rt.alloc();
    let mut bots: Vec<Box<dyn Bot + Send>> = Vec::with_capacity(alloc, usize::from(seats))?;
    let mut rests = Vec::with_capacity(alloc, usize::from(seats))?;
    for seat in 0..seats {
        let tape = Tape::live(seed, DICE + u64::from(seat), 0);
        let bot: Box<dyn Bot + Send> = Box::new(alloc, DiceBot::new(alloc, tape))?;
        bots.push_reserved(bot);
        rests.push_reserved(NoRest);
    }
    let mut sink = WriterSink::new(rt.stdout());
    let (exit, door, books) = serve(
        leave, alloc, words, readies, door, &mut sink, seed, bots, rests, outside,
    );
    drop(door);
    // The process ends with this run, and its memory goes with it.
    mem::forget(books);
    Ok(exit)
}

/// Random bytes of the system.
fn seed(rt: &HostRuntime) -> io::Result<[u8; 32]> {
    let mut seed = [0; 32];
    let mut file = File::open(rt, "/dev/urandom")?;
    file.read_exact(&mut seed)?;
    Ok(seed)
}

/// The end where words give nothing to do.
pub(crate) fn refused(no: WordsNo) -> Exit {
    match no {
        WordsNo::Usage => Exit::Usage,
        WordsNo::NoMemory => Exit::NoMemory,
    }
}

/// The end where the system refuses: this one, unless there was no memory.
pub(crate) fn fault(error: &io::Error, exit: Exit) -> Exit {
    match error.kind() {
        io::ErrorKind::OutOfMemory => Exit::NoMemory,
        _ => exit,
    }
}
