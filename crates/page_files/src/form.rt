//! How a file is handed out, by its name in the folder.

ghost use Rattle.std.specs.Prelude.{◌≡◌, IfOk, drop};
ghost use Rattle.std.specs.List.{list_all};
ghost use Rattle.page_files.specs.Forms.{asked_name, begins_digits, begins_dot, begins_sum, form_of, has_sum, is_digit, path_of};

use game_sheet::NoMemory;
use std::alloc::Global;

/// How many digits a sum has.
const SUM: usize = 16;

/// How a file is handed out.
#[derive(Clone, Copy)]
pub enum Form {
    /// What it holds may change: a browser asks for it at each visit.
    Visited,
    /// Its name has a sum of what it holds: a browser keeps it for a year, and asks no more.
    Kept,
    /// The same, and packed by gzip: it is asked for without its `.gz`, and the browser unpacks it.
    Packed,
}

/// The form of the file of this name. A sum is sixteen digits between dots, of 0 to 9 and a to f, as in `style.0123456789abcdef.css.gz`.
pub fn form_of(name: &[u8]) -> Form
    ensures { result ≡ form_of name.now }
{
    if !has_sum(name) {
        Form::Visited
    } else if name.ends_with(b".gz") {
        Form::Packed
    } else {
        Form::Kept
    }
}

/// The path at which the file of this name is asked for, as `/main.js`; that of `index.html` is `/`.
pub(crate) fn path_of(alloc: Global, name: &[u8]) -> Result<Vec<u8>, NoMemory>
    ensures { IfOk result (λ path. path.items ≡ path_of name.now) }
{
    let mut path = Vec::new(alloc);
    path.extend_from_slice(b"/")?;
    path.extend_from_slice(asked_name(name))?;
    Ok(path)
}

/// The name by which a file is asked for.
pub(crate) fn asked_name<'a>(name: &'a [u8]) -> &'a [u8]
    ensures { result.now ≡ asked_name name.now }
{
    if name == b"index.html".as_slice() {
        return &[];
    }
    match form_of(name) {
        Form::Packed => &name[..name.len().saturating_sub(3)],
        Form::Visited | Form::Kept => name,
    }
}

/// Whether a name has a sum.
fn has_sum(name: &[u8]) -> bool
    ensures { result ≡ has_sum name.now }
{
    for at in 0..name.len() {
        if begins_sum(&name[at..]) {
            return true;
        }
    }
    false
}

/// Whether these bytes begin with a sum between dots.
fn begins_sum(bytes: &[u8]) -> bool
    ensures { result ≡ begins_sum bytes.now }
{
    begins_dot(bytes) && begins_digits(behind(bytes, 1)) && begins_dot(behind(bytes, SUM + 1))
}

/// Whether these bytes begin with a dot.
fn begins_dot(bytes: &[u8]) -> bool
    ensures { result ≡ begins_dot bytes.now }
{
    bytes.starts_with(b".")
}

/// Whether these bytes begin with the digits of a sum.
fn begins_digits(bytes: &[u8]) -> bool
    ensures { result ≡ begins_digits bytes.now }
{
    if bytes.len() < SUM {
        return false;
    }
    are_digits(&bytes[..SUM])
}

/// What stands behind so many bytes.
fn behind<'a>(bytes: &'a [u8], count: usize) -> &'a [u8]
    ensures { result.now ≡ drop count bytes.now }
{
    if bytes.len() < count {
        &[]
    } else {
        &bytes[count..]
    }
}

/// Whether all of these bytes are digits of a sum.
fn are_digits(bytes: &[u8]) -> bool
    ensures { result ≡ list_all is_digit bytes.now }
{
    bytes.iter().all(|byte| is_digit(*byte))
}

/// Whether a byte is a digit of a sum.
fn is_digit(byte: u8) -> bool
    ensures { result ≡ is_digit byte }
{
    byte.is_ascii_digit() || (byte >= b'a' && byte <= b'f')
}
