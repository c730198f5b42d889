ghost use Rattle.std.specs.Prelude.{◌≡◌, ℕ, List, Option, Some, codes, IfSome, OnOk, OnErr};
ghost use Rattle.stab_files.specs.Count.{Rose};
ghost use Rattle.stab_files.specs.Entry.{Entry};
ghost use Rattle.stab_files.specs.Loaded.{CountsFault, IsWithin, LoadAnswers};
ghost use Rattle.stab_files.specs.Told.{Appends, AppendsPrefix};

use std::alloc::Global;
use std::error::Error;
use std::fmt;

/// What a load of a file gives.
#[derive(Debug, Drop, PartialEq, Eq)]
pub enum Loaded {
    /// The whole file.
    Bytes(Vec<u8>),
    /// No file has the name.
    Missing,
    /// The file is longer than the limit.
    TooBig,
    /// The device failed, and counted a fault.
    Failed,
    /// Memory ran out.
    NoMemory,
}

/// Files by name.
pub trait Files {
    // The files that it holds, if contracts know them.
    ghost held: { Self → Option (List Entry) };

    // How many faults it has had, up to the greatest u64.
    ghost faults: { Self → ℕ };

    /// The whole file of this name, if it has at most `limit` bytes.
    fn load(&mut self, alloc: Global, name: &str, limit: u64) -> Loaded
        ensures answer { IfSome (held self.old) (λ files. LoadAnswers files name.now limit result) }
        ensures within { IsWithin limit result }
        ensures counted { CountsFault (faults self.old) (faults self.new) result }
        ensures kept { held self.new ≡ held self.old };
}

/// Why a sink didn't take a whole piece.
#[derive(Clone, Copy, Debug, PartialEq, Eq)]
pub enum SinkFail {
    /// The device failed, and counted a fault.
    Failed,
}

impl fmt::Display for SinkFail {
    ghost output = { λ _. Some (codes "the sink failed") };

    fn fmt<W: fmt::Write>(&self, f: &mut fmt::Formatter<W>) -> fmt::Result {
        f.write_str("the sink failed")
    }
}

impl Error for SinkFail {}

/// A place that bytes are written to.
pub trait Sink {
    // The bytes that it took, if contracts know them.
    ghost told: { Self → Option (List ℕ) };

    // How many faults it has had, up to the greatest u64.
    ghost faults: { Self → ℕ };

    /// Writes the whole piece after what is there.
    fn put(&mut self, piece: &[u8]) -> Result<(), SinkFail>
        ensures appended { OnOk result (Appends (told self.old) (told self.new) piece.now) }
        ensures quiet { OnOk result (faults self.new ≡ faults self.old) }
        ensures prefix { OnErr result (AppendsPrefix (told self.old) (told self.new) piece.now) }
        ensures rose { OnErr result (Rose (faults self.old) (faults self.new)) };
}
