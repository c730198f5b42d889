ghost use Rattle.std.specs.Prelude.{◌≡◌, ◌≢◌, ◌+◌, ◌↔◌, Contains, Some, find, option_copied, bytes_eq, string_bytes};
ghost use Rattle.stab_files.specs.Entry.{entries, contents_of};
ghost use Rattle.stab_files.specs.Loaded.{Answers, CountsFault, IsWithin, LoadAnswers};
ghost use Rattle.stab_files.specs.MemFiles.{after_load};

use crate::devices::{Files, Loaded};
use crate::planned::is_planned;
use std::alloc::Global;
use std::marker::Model;

/// Files in memory, with a plan of the loads that fail.
#[derive(Drop)]
pub struct MemFiles {
    held: Vec<(String, Vec<u8>)>,
    fails: Vec<u64>,
    loads: u64,
    faults: u64,
}

impl Model for MemFiles {
    ghost use Rattle.stab_files.specs.Entry.{entries};
    ghost use Rattle.stab_files.specs.MemFiles.{HeldFiles};

    ghost Value = { HeldFiles };

    ghost view = { λ s. record { held = entries s.held.items; fails = s.fails.items; loads = s.loads; faults = s.faults } };
}

impl MemFiles {
    /// Holds these files, the first where two have one name. The loads are counted from 1, and
    /// those whose numbers are in `fails` fail.
    pub fn new(held: Vec<(String, Vec<u8>)>, fails: Vec<u64>) -> MemFiles
        ensures { result ≡ record { held = entries held.items; fails = fails.items; loads = 0; faults = 0 } }
    {
        MemFiles {
            held,
            fails,
            loads: 0,
            faults: 0,
        }
    }
}

impl Files for MemFiles {
    ghost held = { λ s. Some s.held };

    ghost faults = { λ s. s.faults };

    fn load(&mut self, alloc: Global, name: &str, limit: u64) -> Loaded
        ensures answer { LoadAnswers self.old.held name.now limit result }
        ensures within { IsWithin limit result }
        ensures counted { CountsFault self.old.faults self.new.faults result }
        ensures failed { (result ≡ Loaded.Failed) ↔ Contains self.old.fails (self.old.loads + 1) }
        ensures after { self.new ≡ after_load self.old result }
    {
        let fails = is_planned(&self.fails, self.loads);
        self.loads = self.loads.saturating_add(1);
        if fails {
            self.faults = self.faults.saturating_add(1);
            return Loaded::Failed;
        }
        copy_within(alloc, contents(&self.held, name), limit)
    }
}

/// The contents of the first file of this name.
#[tactic(auto, using(crate::proofs::Named::contents_of_entries))]
fn contents<'a>(held: &'a [(String, Vec<u8>)], name: &str) -> Option<&'a [u8]>
    ensures { option_copied result ≡ contents_of (entries held.now) name.now }
{
    let file = first_named(held, name)?;
    Some(file.1.as_slice())
}

fn first_named<'a>(held: &'a [(String, Vec<u8>)], name: &str) -> Option<&'a (String, Vec<u8>)>
    ensures { option_copied result ≡ find (λ file. bytes_eq (string_bytes file.0) name.now) held.now }
{
    held.iter().find(|file| file.0.as_str() == name)
}

fn copy_within(alloc: Global, found: Option<&[u8]>, limit: u64) -> Loaded
    ensures answer { Answers (option_copied found.entry) limit result }
    ensures within { IsWithin limit result }
    ensures no_fault { result ≢ Loaded.Failed }
{
    let Some(bytes) = found else {
        return Loaded::Missing;
    };
    if bytes.len() as u64 > limit {
        return Loaded::TooBig;
    }
    match Vec::from_slice(alloc, bytes) {
        Ok(copy) => Loaded::Bytes(copy),
        Err(_) => Loaded::NoMemory,
    }
}
