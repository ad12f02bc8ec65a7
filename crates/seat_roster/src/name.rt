//! Names of players.

ghost use Rattle.std.specs.Prelude.{◌≡◌, nat_le};
ghost use Rattle.std.specs.List.{list_all};
ghost use Rattle.seat_roster.specs.Name.{is_name};

/// How many bytes a player's name has at most.
const MOST_BYTES: usize = 32;

/// The least byte of a player's name; the control characters are below it.
const LEAST_BYTE: u8 = 32;

/// Whether a text may be a player's name.
pub(crate) fn is_name(text: &str) -> bool
    ensures { result ≡ is_name text.now }
{
    let bytes = text.as_bytes();
    !bytes.is_empty() && bytes.len() <= MOST_BYTES && is_printed(bytes)
}

/// Whether there is no control character among the bytes.
fn is_printed(bytes: &[u8]) -> bool
    ensures { result ≡ list_all (λ byte. nat_le 32 byte) bytes.now }
{
    bytes.iter().all(|&byte| byte >= LEAST_BYTE)
}
