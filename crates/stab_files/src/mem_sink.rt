ghost use Rattle.std.specs.Prelude.{◌≡◌, ◌≤◌, ◌↔◌, [], length, codes, Some, IfOk, IsErr, OnErr};
ghost use Rattle.stab_files.specs.Count.{Rose};
ghost use Rattle.stab_files.specs.MemSink.{PutFails, after_put};

use crate::devices::{Sink, SinkFail};
use crate::planned::is_planned;
use std::alloc::Global;
use std::error::Error;
use std::fmt;
use std::marker::Model;

/// There was no memory for the sink's room.
#[derive(Clone, Copy, Debug, PartialEq, Eq)]
pub struct SinkRefused;

impl fmt::Display for SinkRefused {
    ghost output = { λ _. Some (codes "no memory for the sink's room") };

    fn fmt<W: fmt::Write>(&self, f: &mut fmt::Formatter<W>) -> fmt::Result {
        f.write_str("no memory for the sink's room")
    }
}

impl Error for SinkRefused {}

/// A sink in memory, with a plan of the puts that fail.
#[derive(Drop)]
pub struct MemSink {
    bytes: Vec<u8>,
    room: u64,
    fails: Vec<u64>,
    puts: u64,
    faults: u64,
}

impl Model for MemSink {
    ghost use Rattle.std.specs.Prelude.{◌≤◌, vec_len, vec_capacity};
    ghost use Rattle.stab_files.specs.MemSink.{HeldBytes};

    ghost Value = { HeldBytes };

    ghost view = { λ s. record { bytes = s.bytes.items; room = s.room; fails = s.fails.items; puts = s.puts; faults = s.faults } };

    ghost invariant = { λ s. (vec_len s.bytes ≤ s.room) × (s.room ≤ vec_capacity s.bytes) };
}

impl MemSink {
    /// An empty sink whose memory for `room` bytes is taken here. The puts are counted from 1, and
    /// those whose numbers are in `fails` fail.
    pub fn new(alloc: Global, room: u64, fails: Vec<u64>) -> Result<MemSink, SinkRefused>
        ensures { IfOk result (λ sink. sink ≡ record { bytes = []; room = room; fails = fails.items; puts = 0; faults = 0 }) }
    {
        let Ok(bytes) = Vec::with_capacity(alloc, room as usize) else {
            return Err(SinkRefused);
        };
        Ok(MemSink {
            bytes,
            room,
            fails,
            puts: 0,
            faults: 0,
        })
    }

    /// What was put so far.
    pub fn bytes(&self) -> &[u8]
        ensures bytes { result.now ≡ self.now.bytes }
        ensures within { length self.now.bytes ≤ self.now.room }
    {
        self.bytes.as_slice()
    }
}

impl Sink for MemSink {
    ghost told = { λ s. Some s.bytes };

    ghost faults = { λ s. s.faults };

    fn put(&mut self, piece: &[u8]) -> Result<(), SinkFail>
        ensures rose { OnErr result (Rose self.old.faults self.new.faults) }
        ensures failed { IsErr result ↔ PutFails self.old piece.now }
        ensures after { self.new ≡ after_put self.old piece.now result }
    {
        let fails = is_planned(&self.fails, self.puts);
        self.puts = self.puts.saturating_add(1);
        let room_left = self.room - self.bytes.len() as u64;
        if fails || piece.len() as u64 > room_left {
            self.faults = self.faults.saturating_add(1);
            return Err(SinkFail::Failed);
        }
        self.bytes.extend_from_slice(piece).unwrap();
        Ok(())
    }
}
