ghost use Rattle.std.specs.Prelude.{◌≡◌, false, None, IfSome, OnErr, is_ok, if◌then◌else◌};
ghost use Rattle.stab_files.specs.Count.{Rose, counted};
ghost use Rattle.log_file.specs.Opened.{Answers, IsWithin};

use crate::device::{LogFail, LogFile, Opened};
use crate::system::{Device, System};
use std::alloc::Global;
use std::marker::Model;

/// A file of a system. It is opened once, and takes nothing more after a fault: what a call that failed left in the file is
/// for the next process to find.
#[derive(Drop)]
pub struct DiskLog<S: System + Drop> {
    system: S,
    file: Option<S::File>,
    is_open: bool,
    faults: u64,
}

impl<S: System + Drop> Model for DiskLog<S> {
    ghost use Rattle.log_file.specs.DiskLog.{SystemLog, told_of};

    ghost Value = { SystemLog };

    ghost view = { λ s. record { told = told_of S.File.told s.file; is_open = s.is_open; faults = s.faults } };
}

impl<S: System + Drop> DiskLog<S> {
    /// No file of the system yet.
    pub fn new(system: S) -> DiskLog<S>
        ensures { result ≡ record { told = None; is_open = false; faults = 0 } }
    {
        DiskLog {
            system,
            file: None,
            is_open: false,
            faults: 0,
        }
    }

    // Opens the file, if none was opened before.
    fn open_once(&mut self, alloc: Global, name: &str, limit: u64) -> Opened
        ensures answer { IfSome self.new.told (λ disk. Answers disk.seen limit result) }
        ensures kept { IfSome self.old.told (λ disk. self.new ≡ self.old) }
        ensures within { IsWithin limit result }
        ensures rest { self.new ≡ record self.old { told = self.new.told } }
    {
        if self.file.is_some() {
            return Opened::Failed;
        }
        let Ok(mut file) = self.system.open(name) else {
            return Opened::Failed;
        };
        let answer = lock_and_read(alloc, &mut file, limit);
        self.file = Some(file);
        answer
    }

    // Closes and counts a fault if a call failed.
    fn answer(&mut self, is_done: bool) -> Result<(), LogFail>
        ensures done { is_ok result ≡ is_done }
        ensures rose { OnErr result (Rose self.old.faults self.new.faults) }
        ensures after { self.new ≡ (if is_done then self.old else record self.old { is_open = false; faults = counted self.old.faults }) }
    {
        if is_done {
            return Ok(());
        }
        self.is_open = false;
        self.faults = self.faults.saturating_add(1);
        Err(LogFail)
    }
}

// What opening gives of a file that was found.
fn lock_and_read<D: Device>(alloc: Global, file: &mut D, limit: u64) -> Opened
    ensures answer { IfSome (D.told file.new) (λ disk. Answers disk.seen limit result) }
    ensures kept { D.told file.new ≡ D.told file.old }
    ensures within { IsWithin limit result }
{
    match file.try_lock() {
        Ok(true) => file.contents(alloc, limit),
        Ok(false) => Opened::Busy,
        Err(_) => Opened::Failed,
    }
}

impl<S: System + Drop> LogFile for DiskLog<S> {
    ghost told = { λ s. s.told };

    ghost is_open = { λ s. s.is_open };

    ghost faults = { λ s. s.faults };

    fn open(&mut self, alloc: Global, name: &str, limit: u64) -> Opened {
        let answer = self.open_once(alloc, name, limit);
        self.is_open = matches!(answer, Opened::New | Opened::Held(_));
        if matches!(answer, Opened::Failed) {
            self.faults = self.faults.saturating_add(1);
        }
        answer
    }

    #[tactic(auto, using(crate::proofs::Firm::appends_nothing))]
    fn append(&mut self, piece: &[u8]) -> Result<(), LogFail> {
        let is_done = match &mut self.file {
            Some(file) if self.is_open => file.append(piece).is_ok(),
            _ => false,
        };
        self.answer(is_done)
    }

    #[tactic(auto, using(crate::proofs::Firm::syncs_nothing))]
    fn sync(&mut self) -> Result<(), LogFail> {
        let is_done = match &mut self.file {
            Some(file) if self.is_open => file.sync().is_ok(),
            _ => false,
        };
        self.answer(is_done)
    }

    fn cut(&mut self, length: u64) -> Result<(), LogFail> {
        let is_done = match &mut self.file {
            Some(file) if self.is_open => file.cut(length).is_ok(),
            _ => false,
        };
        self.answer(is_done)
    }
}
