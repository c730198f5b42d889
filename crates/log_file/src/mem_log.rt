ghost use Rattle.std.specs.Prelude.{◌≡◌, ◌≢◌, ◌↔◌, ◌+◌, ◌⊎◌, ◌++◌, take, true, false, codes, Contains, Some, IsTrue, IsErr, IfOk, OnOk, OnErr};
ghost use Rattle.stab_files.specs.Count.{Rose, counted};
ghost use Rattle.log_file.specs.MemLog.{Fails, IsPlanned, Overflows};
ghost use Rattle.log_file.specs.Opened.{Answers, CountsFault, IsWithin, is_opened};
ghost use Rattle.log_file.specs.Told.{Appends, AppendsFront, Cuts, MayCut, Syncs, SyncsFront};

use crate::device::{LogFail, LogFile, Opened};
use stab_base::NoMemory;
use std::alloc::Global;
use std::error::Error;
use std::fmt;
use std::marker::Model;

/// There was no memory for the log's room, or what it is to hold has no place in it.
#[derive(Clone, Copy, Debug, PartialEq, Eq)]
pub struct LogRefused;

impl fmt::Display for LogRefused {
    ghost output = { λ _. Some (codes "no memory for the log's room") };

    fn fmt<W: fmt::Write>(&self, f: &mut fmt::Formatter<W>) -> fmt::Result {
        f.write_str("no memory for the log's room")
    }
}

impl Error for LogRefused {}

/// A log in memory, with a plan of the calls that fail. It has one file, under whatever name. Where the room ends within a
/// piece, what still has a place is taken, as by a disk that is full.
#[derive(Drop)]
pub struct MemLog {
    bytes: Vec<u8>,
    firm: usize,
    room: u64,
    fails: Vec<u64>,
    is_busy: bool,
    is_open: bool,
    calls: u64,
    faults: u64,
}

impl Model for MemLog {
    ghost use Rattle.std.specs.Prelude.{◌≤◌, take, vec_len, vec_capacity};
    ghost use Rattle.log_file.specs.MemLog.{HeldLog};

    ghost Value = { HeldLog };

    ghost view = { λ s. record {
      disk = record { seen = s.bytes.items; firm = take s.firm s.bytes.items };
      room = s.room;
      fails = s.fails.items;
      is_busy = s.is_busy;
      is_open = s.is_open;
      calls = s.calls;
      faults = s.faults;
    } };

    ghost invariant = { λ s. (s.firm ≤ vec_len s.bytes) × (vec_len s.bytes ≤ s.room) × (s.room ≤ vec_capacity s.bytes) };
}

impl MemLog {
    /// A log that isn't open yet, whose memory for `room` bytes is taken here. It holds these bytes, of which the first `firm`
    /// are synced. The calls of `open`, `append`, `sync` and `cut` are counted from 1, and those whose numbers are in
    /// `fails` fail.
    pub fn new(
        alloc: Global,
        room: u64,
        held: &[u8],
        firm: usize,
        fails: Vec<u64>,
    ) -> Result<MemLog, LogRefused>
        ensures { IfOk result (λ log. log ≡ record {
          disk = record { seen = held.now; firm = take firm held.now };
          room = room;
          fails = fails.items;
          is_busy = false;
          is_open = false;
          calls = 0;
          faults = 0;
        }) }
    {
        if held.len() as u64 > room || firm > held.len() {
            return Err(LogRefused);
        }
        let Ok(mut bytes) = Vec::with_capacity(alloc, room as usize) else {
            return Err(LogRefused);
        };
        bytes.extend_from_slice(held).unwrap();
        Ok(MemLog {
            bytes,
            firm,
            room,
            fails,
            is_busy: false,
            is_open: false,
            calls: 0,
            faults: 0,
        })
    }

    /// Another process has the file open from now on, or hasn't any more.
    pub fn set_busy(&mut self, is_busy: bool)
        ensures { self.new ≡ record self.old { is_busy = is_busy } }
    {
        self.is_busy = is_busy;
    }

    /// What a reader sees.
    pub fn bytes(&self) -> &[u8]
        ensures { result.now ≡ self.now.disk.seen }
    {
        self.bytes.as_slice()
    }

    /// What is there after a crash: the bytes that were synced, and these behind them.
    pub fn after_crash(&self, alloc: Global, behind: &[u8]) -> Result<Vec<u8>, NoMemory>
        ensures { IfOk result (λ left. left.items ≡ self.now.disk.firm ++ behind.now) }
    {
        let mut left = Vec::from_slice(alloc, &self.bytes[..self.firm])?;
        left.extend_from_slice(behind)?;
        Ok(left)
    }

    // Counts a call, and whether it is one of those that fail.
    fn begin(&mut self) -> bool
        ensures planned { IsTrue result ↔ IsPlanned self.old }
        ensures counted { self.new ≡ record self.old { calls = counted self.old.calls } }
    {
        let fails = is_planned(&self.fails, self.calls);
        self.calls = self.calls.saturating_add(1);
        fails
    }

    // The same, where a call fails too if the log isn't open.
    fn begin_open(&mut self) -> bool
        ensures fails { IsTrue result ↔ Fails self.old }
        ensures counted { self.new ≡ record self.old { calls = counted self.old.calls } }
    {
        let is_open = self.is_open;
        self.begin() || !is_open
    }

    // Counts a fault and closes.
    fn fail(&mut self) -> LogFail
        ensures after { self.new ≡ record self.old { is_open = false; faults = counted self.old.faults } }
        ensures rose { Rose self.old.faults self.new.faults }
    {
        self.is_open = false;
        self.faults = self.faults.saturating_add(1);
        LogFail
    }
}

/// Whether the call that comes after `done` others is among those that are planned to fail.
fn is_planned(fails: &[u64], done: u64) -> bool
    ensures { IsTrue result ↔ Contains fails.now (done + 1) }
{
    fails.iter().any(|call| call.checked_sub(1) == Some(done))
}

// What opening gives where a file has these bytes and no other process has it open.
fn opened(alloc: Global, bytes: &[u8], limit: u64) -> Opened
    ensures answer { Answers bytes.now limit result }
    ensures within { IsWithin limit result }
    ensures no_fault { result ≢ Opened.Failed }
{
    if bytes.is_empty() {
        return Opened::New;
    }
    if bytes.len() as u64 > limit {
        return Opened::TooBig;
    }
    match Vec::from_slice(alloc, bytes) {
        Ok(copy) => Opened::Held(copy),
        Err(_) => Opened::NoMemory,
    }
}

impl LogFile for MemLog {
    ghost told = { λ s. Some s.disk };

    ghost is_open = { λ s. s.is_open };

    ghost faults = { λ s. s.faults };

    fn open(&mut self, alloc: Global, _name: &str, limit: u64) -> Opened
        ensures answer { Answers self.old.disk.seen limit result }
        ensures within { IsWithin limit result }
        ensures opened { self.new.is_open ≡ is_opened result }
        ensures counted { CountsFault self.old.faults self.new.faults result }
        ensures failed { (result ≡ Opened.Failed) ↔ IsPlanned self.old }
        ensures rest { self.new ≡ record self.old { is_open = self.new.is_open; calls = counted self.old.calls; faults = self.new.faults } }
    {
        if self.begin() {
            self.fail();
            return Opened::Failed;
        }
        let answer = if self.is_busy {
            Opened::Busy
        } else {
            opened(alloc, &self.bytes, limit)
        };
        self.is_open = matches!(answer, Opened::New | Opened::Held(_));
        answer
    }

    #[tactic(auto, using(crate::proofs::Firm::firm_append, crate::proofs::Firm::appends_nothing))]
    fn append(&mut self, piece: &[u8]) -> Result<(), LogFail>
        ensures failed { IsErr result ↔ (Fails self.old ⊎ Overflows self.old piece.now) }
        ensures appended { OnOk result (Appends (Some self.old.disk) (Some self.new.disk) piece.now) }
        ensures front { OnErr result (AppendsFront (Some self.old.disk) (Some self.new.disk) piece.now) }
        ensures closed { self.old.is_open ≡ false → IsErr result × (Some self.new.disk ≡ Some self.old.disk) }
        ensures open { OnOk result (self.new.is_open ≡ true) }
        ensures closes { OnErr result (self.new.is_open ≡ false) }
        ensures quiet { OnOk result (self.new.faults ≡ self.old.faults) }
        ensures rose { OnErr result (Rose self.old.faults self.new.faults) }
    {
        if self.begin_open() {
            return Err(self.fail());
        }
        let room_left = self.room - self.bytes.len() as u64;
        let taken = room_left.min(piece.len() as u64) as usize;
        self.bytes.extend_from_slice(&piece[..taken]).unwrap();
        if taken < piece.len() {
            return Err(self.fail());
        }
        Ok(())
    }

    #[tactic(auto, using(crate::proofs::Firm::firm_all, crate::proofs::Firm::syncs_nothing))]
    fn sync(&mut self) -> Result<(), LogFail>
        ensures failed { IsErr result ↔ Fails self.old }
        ensures synced { OnOk result (Syncs (Some self.old.disk) (Some self.new.disk)) }
        ensures front { OnErr result (SyncsFront (Some self.old.disk) (Some self.new.disk)) }
        ensures closed { self.old.is_open ≡ false → IsErr result × (Some self.new.disk ≡ Some self.old.disk) }
        ensures open { OnOk result (self.new.is_open ≡ true) }
        ensures closes { OnErr result (self.new.is_open ≡ false) }
        ensures quiet { OnOk result (self.new.faults ≡ self.old.faults) }
        ensures rose { OnErr result (Rose self.old.faults self.new.faults) }
    {
        if self.begin_open() {
            return Err(self.fail());
        }
        self.firm = self.bytes.len();
        Ok(())
    }

    #[tactic(auto, using(crate::proofs::Firm::firm_cut))]
    fn cut(&mut self, length: u64) -> Result<(), LogFail>
        ensures failed { IsErr result ↔ Fails self.old }
        ensures cut { OnOk result (Cuts (Some self.old.disk) (Some self.new.disk) length) }
        ensures may { OnErr result (MayCut (Some self.old.disk) (Some self.new.disk) length) }
        ensures closed { self.old.is_open ≡ false → IsErr result × (Some self.new.disk ≡ Some self.old.disk) }
        ensures open { OnOk result (self.new.is_open ≡ true) }
        ensures closes { OnErr result (self.new.is_open ≡ false) }
        ensures quiet { OnOk result (self.new.faults ≡ self.old.faults) }
        ensures rose { OnErr result (Rose self.old.faults self.new.faults) }
    {
        if self.begin_open() {
            return Err(self.fail());
        }
        let length = length.min(self.bytes.len() as u64) as usize;
        self.bytes.truncate(length);
        self.firm = self.firm.min(length);
        Ok(())
    }
}
