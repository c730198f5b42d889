ghost use Rattle.std.specs.Prelude.{◌≡◌, Option, List, Some, None, IsSomeAnd, IfSome, IfOk, IfErr};
ghost use Rattle.std.specs.IoError.{error_kind};
ghost use Rattle.stab_files.specs.Entry.{Entry, contents_of};

use std::io::{self, ErrorKind, Read};
use std::{fs, rt};

/// What opens files by name. `DiskFiles` is proved over any of these, so its clauses fix which file it reads and how much of
/// it, though of the system's own files contracts know nothing.
pub trait System {
    type File: Read + Drop;

    // The files that it holds, if contracts know them.
    ghost holds: { Self → Option (List Entry) };

    /// Opens a file for reading, from its first byte on.
    fn open(&self, name: &str) -> io::Result<Self::File>
        ensures found { IfOk result (λ file. IfSome (holds self.now)
            (λ files. IsSomeAnd (contents_of files name.now) (λ bytes. Self.File.remaining file ≡ Some bytes))) }
        ensures missing { IfErr result (λ error. error_kind error ≡ ErrorKind.NotFound → IfSome (holds self.now)
            (λ files. contents_of files name.now ≡ None)) };
}

/// The system that the program runs on.
impl<R: rt::Files> System for R {
    type File = R::File;

    ghost holds = { λ _. None };

    fn open(&self, name: &str) -> io::Result<R::File> {
        fs::open(self, name)
    }
}
