//! The file of a journal: it is opened for this process alone, and a new one is put in its place.

use board_links::{Piece, Put};
use room_disk::{Begun, Disk, FileDisk, Place, Size};
use std::fs::{self, File, TryLockError};
use std::io;
use std::os::unix::fs::{FileExt, MetadataExt, OpenOptionsExt};
use std::path::Path;

/// The path at which a journal stands.
pub struct JournalPlace {
    rt: HostRuntime,
    path: String,
}

impl Drop for JournalPlace {
    fn drop(self) {
        let JournalPlace { rt: _, path } = self;
        drop(path);
    }
}

impl Place for JournalPlace {
    fn begin_anew(&mut self, bytes: &[u8]) -> Begun {
        let Ok(spare) = format!(in self.rt.alloc(); "{}.new", self.path.as_str()) else {
            return Begun::Old;
        };
        let Ok(file) = write_new(&self.rt, spare.as_str(), bytes) else {
            return Begun::Old;
        };
        if fs::rename(&self.rt, spare.as_str(), self.path.as_str()).is_err()
            || sync_folder(&self.rt, self.path.as_str()).is_err()
        {
            return Begun::Either;
        }
        Begun::New(file)
    }
}

/// A disk over the file of a journal, of which nothing is told.
#[derive(Drop)]
pub struct JournalDisk {
    disk: FileDisk<JournalPlace>,
}

impl Disk for JournalDisk {
    ghost use Rattle.std.specs.Prelude.{[]};

    ghost is_told = { λ _. ⊥ };

    ghost seen = { λ _. [] };

    ghost may_leave = { λ _ _. ⊥ };

    ghost moment = { λ _. 0 };

    ghost left_since = { λ _ _ _. ⊥ };

    ghost faults = { λ d. ⟦<FileDisk<JournalPlace> as Disk>⟧.faults d.disk };

    ghost leaves_seen = { λ d told. told };

    ghost counts_now = { λ d t c told le left. left };

    ghost only_now = { λ d c told left. left };

    fn len(&mut self) -> Size {
        self.disk.len()
    }

    fn read_at(&mut self, place: u64, buf: &mut [u8]) -> Piece {
        self.disk.read_at(place, buf)
    }

    fn write_at(&mut self, place: u64, bytes: &[u8]) -> Put {
        self.disk.write_at(place, bytes)
    }

    fn sync(&mut self) -> Put {
        self.disk.sync()
    }

    fn replace(&mut self, bytes: &[u8]) -> Put {
        self.disk.replace(bytes)
    }
}

/// A disk over the file of a journal, which is opened for this process alone, and made where there is none.
pub fn open_journal(rt: &HostRuntime, path: String) -> io::Result<JournalDisk> {
    let file = open_locked(rt, path.as_str());
    let place = JournalPlace { rt: *rt, path };
    Ok(JournalDisk {
        disk: FileDisk::new(file?, place),
    })
}

/// Opens a file for this process alone, and makes it where there is none.
fn open_locked(rt: &HostRuntime, path: &str) -> io::Result<File> {
    let file = open_or_make(rt, path)?;
    lock(&file)?;
    // Whoever had the lock before may have put another file in its place.
    if file.metadata()?.ino() != fs::metadata(rt, path)?.ino() {
        return Err(io::Error::from(io::ErrorKind::WouldBlock));
    }
    sync_folder(rt, path)?;
    Ok(file)
}

/// Writes a file of these bytes, all of them on the device, that is open for this process alone. What stood there, as a crash may have left it, is removed
/// first, so that no link that somebody put there is written through.
fn write_new(rt: &HostRuntime, path: &str, bytes: &[u8]) -> io::Result<File> {
    match fs::remove_file(rt, path) {
        Ok(()) => {}
        Err(error) if error.kind() == io::ErrorKind::NotFound => {}
        Err(error) => return Err(error),
    }
    let file = options().create_new(true).open(rt, path)?;
    lock(&file)?;
    file.write_all_at(bytes, 0)?;
    file.sync_all()?;
    Ok(file)
}

/// Opens a file, and makes it where there is none. None is made where a link leads nowhere.
fn open_or_make(rt: &HostRuntime, path: &str) -> io::Result<File> {
    match options().open(rt, path) {
        Err(error) if error.kind() == io::ErrorKind::NotFound => {
            options().create_new(true).open(rt, path)
        }
        opened => opened,
    }
}

/// How a journal is opened. Nobody but its owner may read it, since it has the players' keys.
fn options() -> fs::OpenOptions {
    let mut options = File::options();
    options.read(true).write(true).mode(0o600);
    options
}

/// Locks a file, unless another process has it open so.
fn lock(file: &File) -> io::Result<()> {
    match file.try_lock() {
        Ok(()) => Ok(()),
        Err(TryLockError::WouldBlock) => Err(io::Error::from(io::ErrorKind::WouldBlock)),
        Err(TryLockError::Error(error)) => Err(error),
    }
}

/// Hands the names in a file's folder to the device, so that a crash doesn't lose a file that was made or renamed just now.
fn sync_folder(rt: &HostRuntime, path: &str) -> io::Result<()> {
    let folder = match Path::new(path).parent() {
        Some(folder) => folder,
        None => return Ok(()),
    };
    if folder.as_os_str().is_empty() {
        File::open(rt, ".")?.sync_all()
    } else {
        File::open(rt, folder)?.sync_all()
    }
}
