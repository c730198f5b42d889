ghost use Rattle.std.specs.Prelude.{◌≡◌, ◌≢◌, ◌+◌, ◌<◌, ◌≤◌, ◌↔◌, ◌⊎◌, ◌++◌, ℕ, List, Some, length, take, vec_len, IfSome, IsOk, IfOk, IfErr, OnErr};
ghost use Rattle.std.specs.IoError.{error_kind};
ghost use Rattle.std.specs.Io.{ReadsAtMost};
ghost use Rattle.std.specs.Io.KnownBytes.{Consumes, IsAtEnd, Keeps};
ghost use Rattle.stab_files.specs.Entry.{contents_of};
ghost use Rattle.stab_files.specs.Loaded.{Answers, CountsFault, IsWithin, LoadAnswers, faults_after};

use crate::devices::{Files, Loaded};
use crate::retrying::Retrying;
use crate::system::System;
use std::alloc::Global;
use std::io::{self, ErrorKind, Read};
use std::marker::Model;

/// How many bytes one read asks for at most.
const CHUNK: usize = 4096;

/// The files of a system. Contracts see what it holds, where it says so, and how many faults there were.
#[derive(Drop)]
pub struct DiskFiles<S: System + Drop> {
    system: S,
    faults: u64,
}

impl<S: System + Drop> Model for DiskFiles<S> {
    ghost use Rattle.stab_files.specs.DiskFiles.{SystemFiles};

    ghost Value = { SystemFiles };

    ghost view = { λ s. record { held = S.holds s.system; faults = s.faults } };
}

impl<S: System + Drop> DiskFiles<S> {
    /// The files of this system, without faults so far.
    pub fn new(system: S) -> DiskFiles<S>
        ensures { result ≡ record { held = S.holds system; faults = 0 } }
    {
        DiskFiles { system, faults: 0 }
    }
}

impl<S: System + Drop> Files for DiskFiles<S> {
    ghost held = { λ s. s.held };

    ghost faults = { λ s. s.faults };

    /// Missing is the system's word that no such file is there. A directory fails, and so does a
    /// read that is refused.
    fn load(&mut self, alloc: Global, name: &str, limit: u64) -> Loaded
        ensures answer { IfSome self.old.held (λ files. LoadAnswers files name.now limit result) }
        ensures within { IsWithin limit result }
        ensures counted { CountsFault self.old.faults self.new.faults result }
        ensures after { self.new ≡ record self.old { faults = faults_after self.old.faults result } }
    {
        let answer = read_named(alloc, &self.system, name, limit);
        if matches!(answer, Loaded::Failed) {
            self.faults = self.faults.saturating_add(1);
        }
        answer
    }
}

/// What the file of this name gives.
fn read_named<S: System>(alloc: Global, system: &S, name: &str, limit: u64) -> Loaded
    ensures answer { IfSome (S.holds system.now) (λ files. Answers (contents_of files name.now) limit result) }
    ensures within { IsWithin limit result }
{
    read_opened(alloc, system.open(name), limit)
}

/// What a file gives that was opened, or else why it wasn't.
fn read_opened<F: Read + Drop>(alloc: Global, opened: io::Result<F>, limit: u64) -> Loaded
    ensures bytes { IfOk opened (λ file. IfSome (F.remaining file) (λ rest. Answers (Some rest) limit result)) }
    ensures within { IsWithin limit result }
    ensures there { IsOk opened → result ≢ Loaded.Missing }
    ensures missing { IfErr opened (λ error. (result ≡ Loaded.Missing) ↔ (error_kind error ≡ ErrorKind.NotFound)) }
    ensures failed { IfErr opened (λ error. (result ≡ Loaded.Missing) ⊎ (result ≡ Loaded.Failed)) }
{
    match opened {
        Ok(file) => read_whole(alloc, &mut Retrying::new(file), limit),
        Err(error) if error.kind() == ErrorKind::NotFound => Loaded::Missing,
        Err(_) => Loaded::Failed,
    }
}

/// All that the reader has left, up to the limit. It takes one byte more than the limit at most, and fails only where a
/// read did.
fn read_whole<R: Read + Drop>(alloc: Global, reader: &mut Retrying<R>, limit: u64) -> Loaded
    ensures answer { IfSome (R.remaining reader.old.device) (λ rest. Answers (Some rest) limit result) }
    ensures within { IsWithin limit result }
    ensures there { result ≢ Loaded.Missing }
    ensures sparing { (taken : List ℕ) × (length taken ≤ limit + 1) × Consumes (R.remaining reader.old.device) (R.remaining reader.new.device) taken }
    ensures failed { reader.new.faults ≡ faults_after reader.old.faults result }
{
    let mut bytes = Vec::new(alloc);
    while bytes.len() as u64 <= limit {
        let mut chunk = [0; CHUNK];
        let room = room_in_chunk(limit - bytes.len() as u64);
        let Ok(count) = reader.read(&mut chunk[..room]) else {
            return Loaded::Failed;
        };
        if count == 0 {
            return Loaded::Bytes(bytes);
        }
        if bytes.extend_from_slice(&chunk[..count]).is_err() {
            return Loaded::NoMemory;
        }
    }
    Loaded::TooBig
}

/// How much of a chunk a read fills where `left` bytes more are within the limit: one byte past it at most.
fn room_in_chunk(left: u64) -> usize
    ensures some { 0 < result }
    ensures chunk { result ≤ CHUNK }
    ensures left { result ≤ left + 1 }
{
    left.saturating_add(1).min(CHUNK as u64) as usize
}
