ghost use Rattle.std.specs.Prelude.{◌≡◌, Option, None, IfSome, OnOk, OnErr};
ghost use Rattle.log_file.specs.Disk.{Disk};
ghost use Rattle.log_file.specs.Opened.{Answers, IsWithin};
ghost use Rattle.log_file.specs.Told.{Appends, AppendsFront, Cuts, MayCut, Syncs, SyncsFront};

use crate::device::Opened;
use std::alloc::Global;
use std::fs::{OpenFile, OpenOptions, TryLockError};
use std::io::{self, ErrorKind, Read, Write};
use std::{fs, rt};

/// An open file. `DiskLog` is proved over any of these, so its clauses fix what becomes of the bytes, though of a file of the
/// system contracts know nothing.
pub trait Device {
    // Its bytes, if contracts know them.
    ghost told: { Self → Option Disk };

    /// Keeps other processes from locking the file as long as this one has it open, or tells that another has locked it.
    fn try_lock(&mut self) -> io::Result<bool>
        ensures kept { told self.new ≡ told self.old };

    /// All that it holds, which is what opening it gives.
    fn contents(&mut self, alloc: Global, limit: u64) -> Opened
        ensures answer { IfSome (told self.old) (λ disk. Answers disk.seen limit result) }
        ensures within { IsWithin limit result }
        ensures kept { told self.new ≡ told self.old };

    /// Adds the whole piece at the end.
    fn append(&mut self, piece: &[u8]) -> io::Result<()>
        ensures appended { OnOk result (Appends (told self.old) (told self.new) piece.now) }
        ensures front { OnErr result (AppendsFront (told self.old) (told self.new) piece.now) };

    /// Waits until all bytes are where a crash leaves them.
    fn sync(&mut self) -> io::Result<()>
        ensures synced { OnOk result (Syncs (told self.old) (told self.new)) }
        ensures front { OnErr result (SyncsFront (told self.old) (told self.new)) };

    /// Removes all behind the first `length` bytes.
    fn cut(&mut self, length: u64) -> io::Result<()>
        ensures cut { OnOk result (Cuts (told self.old) (told self.new) length) }
        ensures may { OnErr result (MayCut (told self.old) (told self.new) length) };
}

/// What opens files by name.
pub trait System {
    type File: Device + Drop;

    /// Opens the file for reading and for writing at its end, and makes an empty one if none has this name. A crash leaves
    /// the name in its folder.
    fn open(&self, name: &str) -> io::Result<Self::File>;
}

/// A file of the system, which was opened for writing at its end.
impl Device for fs::File {
    ghost told = { λ _. None };

    fn try_lock(&mut self) -> io::Result<bool> {
        match fs::File::try_lock(self) {
            Ok(()) => Ok(true),
            Err(TryLockError::WouldBlock) => Ok(false),
            Err(TryLockError::Error(error)) => Err(error),
        }
    }

    fn contents(&mut self, alloc: Global, limit: u64) -> Opened {
        read_whole(alloc, self, limit)
    }

    fn append(&mut self, piece: &[u8]) -> io::Result<()> {
        self.write_all(piece)
    }

    fn sync(&mut self) -> io::Result<()> {
        self.sync_data()
    }

    fn cut(&mut self, length: u64) -> io::Result<()> {
        if self.metadata()?.len() <= length {
            return Ok(());
        }
        self.set_len(length)
    }
}

/// The system that the program runs on.
impl<R: rt::Files> System for R
where
    R::File: Device,
{
    type File = R::File;

    fn open(&self, name: &str) -> io::Result<R::File> {
        let mut how = OpenOptions::new();
        how.read(true).append(true).create(true);
        let file = how.open(self, name)?;
        sync_folder(self, folder_of(name))?;
        Ok(file)
    }
}

fn sync_folder<R: rt::Files>(system: &R, folder: &str) -> io::Result<()> {
    let folder = fs::open(system, folder)?;
    folder.sync_all()
}

// The folder in which a file of this name is.
fn folder_of(name: &str) -> &str {
    match name.rsplit_once('/') {
        Some(("", _)) => "/",
        Some((folder, _)) => folder,
        None => ".",
    }
}

// All that the reader has left, up to the limit.
fn read_whole<R: Read + Drop>(alloc: Global, reader: R, limit: u64) -> Opened
    ensures answer { IfSome (R.remaining reader) (λ seen. Answers seen limit result) }
    ensures within { IsWithin limit result }
{
    let mut bytes = Vec::new(alloc);
    match reader.take(limit.saturating_add(1)).read_to_end(&mut bytes) {
        Ok(0) => Opened::New,
        Ok(_) if bytes.len() as u64 > limit => Opened::TooBig,
        Ok(_) => Opened::Held(bytes),
        Err(error) if error.kind() == ErrorKind::OutOfMemory => Opened::NoMemory,
        Err(_) => Opened::Failed,
    }
}
