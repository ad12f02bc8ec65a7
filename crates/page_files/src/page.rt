//! The files that browsers may ask for, with their whole answers.

ghost use Rattle.std.specs.Prelude.{◌≡◌, ◌++◌, ◌∷◌, [], IfOk, OnErr, OnOk, option_map};
ghost use Rattle.page_files.specs.Forms.{form_of, path_of};
ghost use Rattle.page_files.specs.Pages.{answer_at, answer_to, first_lines, keeping, plain_answer, response, up_to_length};

use crate::form::{Form, form_of, path_of};
use crate::head::{asks_get, asks_socket, path_in};
use game_sheet::NoMemory;
use itoa::Buffer;
use std::alloc::Global;

/// The answer where no file is at the path.
const NOT_FOUND: &[u8] =
    b"HTTP/1.1 404 Not Found\r\nConnection: close\r\nContent-Type: text/plain\r\nContent-Length: 10\r\n\r\nNot found\n";

/// The answer to another method than GET.
const NOT_ALLOWED: &[u8] =
    b"HTTP/1.1 405 Method Not Allowed\r\nAllow: GET\r\nConnection: close\r\nContent-Type: text/plain\r\nContent-Length: 12\r\n\r\nNot allowed\n";

/// The first lines of an answer, up to how long a browser keeps it.
const UP_TO_KEEPING: &[u8] = b"HTTP/1.1 200 OK\r\nConnection: close\r\nCache-Control: ";

/// The lines behind that, up to the policy.
const UP_TO_POLICY: &[u8] =
    b"\r\nX-Content-Type-Options: nosniff\r\nReferrer-Policy: no-referrer\r\nContent-Security-Policy: ";

/// What a browser may do with a file: run and show what came from here, and connect to here.
const POLICY: &[u8] =
    b"default-src 'none'; script-src 'self' 'wasm-unsafe-eval'; style-src 'self'; img-src 'self'; connect-src 'self'; base-uri 'none'; form-action 'none'; frame-ancestors 'none'";

/// A file that browsers may ask for: its path, as `/main.js`, and the whole answer with it.
#[derive(Drop)]
pub struct Page {
    path: Vec<u8>,
    answer: Vec<u8>,
}

impl Page {
    /// The file of this name in the folder, as `boards/pig.js`, of a kind, as `text/javascript`; its form and its path are those of its name.
    pub fn new(alloc: Global, name: &[u8], kind: &str, body: &[u8]) -> Result<Page, NoMemory>
        ensures path { IfOk result (λ p. p.path.items ≡ path_of name.now) }
        ensures answer { IfOk result (λ p. p.answer.items ≡ response (form_of name.now) kind.now body.now) }
    {
        let path = path_of(alloc, name)?;
        match response(alloc, form_of(name), kind, body) {
            Ok(answer) => Ok(Page { path, answer }),
            Err(NoMemory) => {
                drop(path);
                Err(NoMemory)
            }
        }
    }
}

/// The files that browsers may ask for.
#[derive(Drop)]
pub struct Pages {
    pages: Vec<Page>,
}

impl Pages {
    /// No files. It takes no memory.
    pub fn new(alloc: Global) -> Pages
        ensures { result.pages.items ≡ [] }
    {
        Pages {
            pages: Vec::new(alloc),
        }
    }

    /// Puts a file behind the others.
    pub fn add(&mut self, page: Page) -> Result<(), NoMemory>
        ensures added { OnOk result (self.new.pages.items ≡ self.old.pages.items ++ page ∷ []) }
        ensures err { OnErr result (self.new.pages.items ≡ self.old.pages.items) }
    {
        Ok(self.pages.push(page)?)
    }

    /// What is answered to a head; nothing to one that asks for a WebSocket.
    pub fn answer_to<'a>(&'a self, head: &[u8]) -> Option<&'a [u8]>
        ensures { option_map (λ answer. answer.now) result ≡ answer_to self.now.pages.items head.now }
    {
        if asks_socket(head) {
            return None;
        }
        Some(plain_answer(self.pages.as_slice(), head))
    }
}

/// The whole answer with a file of a form and a kind.
fn response(alloc: Global, form: Form, kind: &str, body: &[u8]) -> Result<Vec<u8>, NoMemory>
    ensures { IfOk result (λ answer. answer.items ≡ response form kind.now body.now) }
{
    let mut digits = Buffer::new();
    let count = digits.format(body.len());
    let mut answer = lines_up_to_length(alloc, form, kind)?;
    answer.extend_from_slice(count.as_bytes())?;
    answer.extend_from_slice(b"\r\n\r\n")?;
    answer.extend_from_slice(body)?;
    Ok(answer)
}

/// The lines of an answer up to its length.
fn lines_up_to_length(alloc: Global, form: Form, kind: &str) -> Result<Vec<u8>, NoMemory>
    ensures { IfOk result (λ lines. lines.items ≡ up_to_length form kind.now) }
{
    let mut lines = first_lines(alloc, form)?;
    lines.extend_from_slice(kind.as_bytes())?;
    lines.extend_from_slice(b"\r\nContent-Length: ")?;
    Ok(lines)
}

/// The lines of an answer up to its kind.
fn first_lines(alloc: Global, form: Form) -> Result<Vec<u8>, NoMemory>
    ensures { IfOk result (λ lines. lines.items ≡ first_lines form) }
{
    let mut lines = Vec::new(alloc);
    lines.extend_from_slice(UP_TO_KEEPING)?;
    lines.extend_from_slice(keeping(form))?;
    lines.extend_from_slice(UP_TO_POLICY)?;
    lines.extend_from_slice(POLICY)?;
    lines.extend_from_slice(b"\r\nContent-Type: ")?;
    Ok(lines)
}

/// How long a browser keeps a file, and how it is packed.
fn keeping(form: Form) -> &'static [u8]
    ensures { result.now ≡ keeping form }
{
    match form {
        Form::Visited => b"no-cache",
        Form::Kept => b"public, max-age=31536000, immutable",
        Form::Packed => b"public, max-age=31536000, immutable\r\nContent-Encoding: gzip",
    }
}

/// What is answered to a head that asks for no WebSocket.
fn plain_answer<'a>(pages: &'a [Page], head: &[u8]) -> &'a [u8]
    ensures { result.now ≡ plain_answer pages.entry.now head.now }
{
    if !asks_get(head) {
        return NOT_ALLOWED;
    }
    match answer_at(pages, path_in(head)) {
        Some(answer) => answer,
        None => NOT_FOUND,
    }
}

/// The answer with the file at a path; none where no file is there.
fn answer_at<'a>(pages: &'a [Page], path: &[u8]) -> Option<&'a [u8]>
    ensures { option_map (λ answer. answer.now) result ≡ answer_at pages.entry.now path.now }
{
    for page in pages {
        if page.path.as_slice() == path {
            return Some(page.answer.as_slice());
        }
    }
    None
}
