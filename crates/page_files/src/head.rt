//! What the head of a request asks for.

ghost use Rattle.std.specs.Prelude.{◌≡◌, ◌<◌, drop, length, position, IfSome};
ghost use Rattle.page_files.specs.Heads.{asks_get, asks_socket, begins, ends_path, holds, path_in};

/// How the line begins that asks for another protocol, with the newline before it.
const UPGRADE: &[u8] = b"\nupgrade:";

/// Whether these bytes begin with a word, whatever the case of its letters.
fn begins(bytes: &[u8], word: &[u8]) -> bool
    ensures { result ≡ begins word.now bytes.now }
{
    if bytes.len() < word.len() {
        return false;
    }
    bytes[..word.len()].eq_ignore_ascii_case(word)
}

/// Whether a word stands somewhere in these bytes, whatever the case of its letters.
fn holds(bytes: &[u8], word: &[u8]) -> bool
    ensures { result ≡ holds word.now bytes.now }
{
    for at in 0..bytes.len() {
        if begins(&bytes[at..], word) {
            return true;
        }
    }
    false
}

/// Whether a head asks for another protocol, as for a WebSocket.
pub fn asks_socket(head: &[u8]) -> bool
    ensures { result ≡ asks_socket head.now }
{
    holds(head, UPGRADE)
}

/// Whether a head asks for a file.
pub(crate) fn asks_get(head: &[u8]) -> bool
    ensures { result ≡ asks_get head.now }
{
    head.starts_with(b"GET ")
}

/// The path that a head asks for, behind `GET `, without its query.
pub(crate) fn path_in<'a>(head: &'a [u8]) -> &'a [u8]
    ensures { result.now ≡ path_in head.now }
{
    let rest = behind_method(head);
    match path_end(rest) {
        Some(place) => &rest[..place],
        None => rest,
    }
}

/// Where a path ends that these bytes begin with.
fn path_end(bytes: &[u8]) -> Option<usize>
    ensures value { result ≡ position ends_path bytes.now }
    ensures within { IfSome result (λ place. place < length bytes.now) }
{
    bytes.iter().position(|byte| *byte == b' ' || *byte == b'?')
}

/// What stands behind the first four bytes.
fn behind_method<'a>(head: &'a [u8]) -> &'a [u8]
    ensures { result.now ≡ drop 4 head.now }
{
    if head.len() < 4 { &[] } else { &head[4..] }
}
