//! The files of a folder, as the program reads them once when it starts. What a file of the system has no clause says.

use crate::form::asked_name;
use crate::page::{Page, Pages};
use game_sheet::NoMemory;
use std::alloc::{AllocGlobal, Global};
use std::fs::{self, Files};
use std::io::{self, ErrorKind, Read};

/// The page itself, which a folder of a page has.
const INDEX: &str = "index.html";

/// Folders of a page, which a packed one does without: the games' boards, and the table on which they are drawn.
const PARTS: [&str; 2] = ["boards/", "table/"];

/// The files of the page in this folder, and in its `boards` and `table`. `/` is its `index.html`. Files of other kinds are left out, and so are
/// names that begin with a dot. An Err is the system's, as where there is no `index.html`.
pub fn read_pages<R: Files + AllocGlobal + Clone + Drop>(
    rt: &R,
    folder: &str,
) -> io::Result<Pages> {
    let mut pages = Pages::new(rt.alloc());
    read_page(rt, &mut pages, folder, INDEX)?;
    read_folder(rt, &mut pages, folder, "")?;
    for part in PARTS {
        match read_folder(rt, &mut pages, folder, part) {
            Err(error) if error.kind() == ErrorKind::NotFound => {}
            read => read?,
        }
    }
    Ok(pages)
}

/// Adds the files of a part of the folder.
fn read_folder<R: Files + AllocGlobal + Clone + Drop>(
    rt: &R,
    pages: &mut Pages,
    folder: &str,
    part: &str,
) -> io::Result<()> {
    let place = joined(rt.alloc(), folder, "/", part)?;
    for entry in fs::read_dir(rt, place.as_str())? {
        let entry = entry?;
        let name = joined(rt.alloc(), part, "", entry.file_name())?;
        if name.as_str() != INDEX {
            read_page(rt, pages, folder, name.as_str())?;
        }
    }
    Ok(())
}

/// Adds a file of the folder, if it is of a kind that a page has.
fn read_page<R: Files + AllocGlobal>(
    rt: &R,
    pages: &mut Pages,
    folder: &str,
    name: &str,
) -> io::Result<()> {
    let Some(kind) = kind_of(name) else {
        return Ok(());
    };
    let place = joined(rt.alloc(), folder, "/", name)?;
    let mut file = fs::open(rt, place.as_str())?;
    let mut body = Vec::new(rt.alloc());
    file.read_to_end(&mut body)?;
    match Page::new(rt.alloc(), name.as_bytes(), kind, body.as_slice()) {
        Ok(page) => added(pages.add(page)),
        Err(NoMemory) => added(Err(NoMemory)),
    }
}

/// Want of memory as the system says it.
fn added(done: Result<(), NoMemory>) -> io::Result<()> {
    match done {
        Ok(()) => Ok(()),
        Err(NoMemory) => Err(io::Error::from(ErrorKind::OutOfMemory)),
    }
}

/// Two names with this between.
fn joined(alloc: Global, front: &str, between: &str, behind: &str) -> io::Result<String> {
    let mut place = String::new(alloc);
    place.push_str(front)?;
    place.push_str(between)?;
    place.push_str(behind)?;
    Ok(place)
}

/// The kind of a file, by the end of its name; none where a page has no such files.
fn kind_of(name: &str) -> Option<&'static str> {
    if name == INDEX {
        return Some("text/html; charset=utf-8");
    }
    if name.starts_with(".") || name.starts_with("boards/.") || name.starts_with("table/.") {
        return None;
    }
    let asked = asked_name(name.as_bytes());
    if asked.ends_with(b".css") {
        Some("text/css; charset=utf-8")
    } else if asked.ends_with(b".js") {
        Some("text/javascript; charset=utf-8")
    } else if asked.ends_with(b".svg") {
        Some("image/svg+xml")
    } else if asked.ends_with(b".wasm") {
        Some("application/wasm")
    } else {
        None
    }
}
