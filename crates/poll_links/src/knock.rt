//! What a listener that doesn't block answers where a connection is asked for.

use crate::each_second::EachSecond;
use mio::net::{TcpListener, TcpStream};
use std::io;
use std::io::{Eprint, ErrorKind};
use std::rt::Clock;

/// What came of asking for a connection.
#[derive(Drop)]
pub(crate) enum Knock {
    /// A connection.
    Came(TcpStream),
    /// None is there yet.
    Nothing,
    /// One had failed before it was taken, so the listener has to be asked again.
    Lost,
    /// The system gives none now, as where it has no descriptor or no memory left for one. It may later.
    Full,
    /// The listener is gone.
    Gone,
}

/// Errors of a connection that failed before it was taken, as accept(2) lists them: EPERM, EPROTO, ENOPROTOOPT, EOPNOTSUPP, ENETDOWN,
/// ENETUNREACH, EHOSTDOWN, EHOSTUNREACH and ENONET.
const LOST: [i32; 9] = [1, 71, 92, 95, 100, 101, 112, 113, 64];

/// Errors of what is no listener, or is one no more: EBADF, EINVAL and ENOTSOCK.
const GONE: [i32; 3] = [9, 22, 88];

/// How many connections that failed before they were taken one call passes over.
const TRIES: u32 = 64;

/// What the listener answers, past connections that failed before they were taken. Errors are said on standard error, once a second.
pub(crate) fn asked<C: Clock + Eprint>(
    listener: &TcpListener,
    system: &C,
    errors: &mut EachSecond,
) -> Knock {
    for _ in 0..TRIES {
        match asked_once(listener, system, errors) {
            Knock::Lost => {}
            answer => return answer,
        }
    }
    // There may be more of them, so the listener is asked again after a while.
    Knock::Full
}

/// Asks for a connection, once.
fn asked_once<C: Clock + Eprint>(
    listener: &TcpListener,
    system: &C,
    errors: &mut EachSecond,
) -> Knock {
    match listener.accept() {
        Ok((stream, _)) => Knock::Came(stream),
        Err(error) => {
            say(system, errors, &error);
            refused(error)
        }
    }
}

/// Says an error on standard error, and how many came since the last that was said, unless one was said within a second. That none is there, and that
/// a signal came, is no error. A line that can't be written is lost.
fn say<C: Clock + Eprint>(system: &C, errors: &mut EachSecond, error: &io::Error) {
    if matches!(error.kind(), ErrorKind::WouldBlock | ErrorKind::Interrupted) {
        return;
    }
    let _said = match errors.count(system) {
        Some(1) => eprintln!(system; "accept: {error}"),
        Some(count) => eprintln!(system; "accept: {error}, the last of {count} errors"),
        None => Ok(()),
    };
}

/// Why no connection came. Whatever else an error says, the listener is asked again after a while.
fn refused(error: io::Error) -> Knock {
    let kind = error.kind();
    let code = error.raw_os_error().unwrap_or(0);
    drop(error);
    match kind {
        ErrorKind::WouldBlock => Knock::Nothing,
        ErrorKind::Interrupted | ErrorKind::ConnectionAborted => Knock::Lost,
        _ if LOST.contains(&code) => Knock::Lost,
        _ if GONE.contains(&code) => Knock::Gone,
        _ => Knock::Full,
    }
}
