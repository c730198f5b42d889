ghost use Rattle.std.specs.Prelude.{◌≡◌, ℕ, Bool, true, false, Option, Some, codes, IfSome, IsErr, OnOk, OnErr};
ghost use Rattle.stab_files.specs.Count.{Rose};
ghost use Rattle.log_file.specs.Disk.{Disk};
ghost use Rattle.log_file.specs.Opened.{Answers, CountsFault, IsWithin, is_opened};
ghost use Rattle.log_file.specs.Told.{Appends, AppendsFront, Cuts, MayCut, Syncs, SyncsFront};

use std::alloc::Global;
use std::error::Error;
use std::fmt;

/// What opening a log gives.
#[derive(Debug, Drop, PartialEq, Eq)]
pub enum Opened {
    /// It wasn't there, and is empty now.
    New,
    /// All that it holds.
    Held(Vec<u8>),
    /// Another process has it open.
    Busy,
    /// It is longer than the limit.
    TooBig,
    /// The device failed, and counted a fault.
    Failed,
    /// Memory ran out.
    NoMemory,
}

/// The device failed, and counted a fault. It takes nothing more.
#[derive(Clone, Copy, Debug, PartialEq, Eq)]
pub struct LogFail;

impl fmt::Display for LogFail {
    ghost output = { λ _. Some (codes "the log failed") };

    fn fmt<W: fmt::Write>(&self, f: &mut fmt::Formatter<W>) -> fmt::Result {
        f.write_str("the log failed")
    }
}

impl Error for LogFail {}

/// A file that grows at its end, and that nobody else writes to while it is open. Whoever shows something that must not be
/// lost writes it here and syncs first: a crash leaves all bytes that were synced, and any behind them (`IsLeft`).
pub trait LogFile {
    // Its bytes, if contracts know them.
    ghost told: { Self → Option Disk };

    // Whether it was opened and didn't fail since.
    ghost is_open: { Self → Bool };

    // How many faults it has had, up to the greatest u64.
    ghost faults: { Self → ℕ };

    /// Opens the file of this name and gives what it holds, if it has at most `limit` bytes. What a process left that was
    /// killed may not be synced, so whoever goes on syncs before something is shown.
    fn open(&mut self, alloc: Global, name: &str, limit: u64) -> Opened
        ensures answer { IfSome (told self.new) (λ disk. Answers disk.seen limit result) }
        ensures kept { IfSome (told self.old) (λ disk. told self.new ≡ Some disk) }
        ensures within { IsWithin limit result }
        ensures opened { is_open self.new ≡ is_opened result }
        ensures counted { CountsFault (faults self.old) (faults self.new) result };

    /// Adds the whole piece at the end.
    fn append(&mut self, piece: &[u8]) -> Result<(), LogFail>
        ensures appended { OnOk result (Appends (told self.old) (told self.new) piece.now) }
        ensures front { OnErr result (AppendsFront (told self.old) (told self.new) piece.now) }
        ensures closed { is_open self.old ≡ false → IsErr result × (told self.new ≡ told self.old) }
        ensures open { OnOk result (is_open self.new ≡ true) }
        ensures closes { OnErr result (is_open self.new ≡ false) }
        ensures quiet { OnOk result (faults self.new ≡ faults self.old) }
        ensures rose { OnErr result (Rose (faults self.old) (faults self.new)) };

    /// Waits until all bytes are where a crash leaves them.
    fn sync(&mut self) -> Result<(), LogFail>
        ensures synced { OnOk result (Syncs (told self.old) (told self.new)) }
        ensures front { OnErr result (SyncsFront (told self.old) (told self.new)) }
        ensures closed { is_open self.old ≡ false → IsErr result × (told self.new ≡ told self.old) }
        ensures open { OnOk result (is_open self.new ≡ true) }
        ensures closes { OnErr result (is_open self.new ≡ false) }
        ensures quiet { OnOk result (faults self.new ≡ faults self.old) }
        ensures rose { OnErr result (Rose (faults self.old) (faults self.new)) };

    /// Removes all behind the first `length` bytes.
    fn cut(&mut self, length: u64) -> Result<(), LogFail>
        ensures cut { OnOk result (Cuts (told self.old) (told self.new) length) }
        ensures may { OnErr result (MayCut (told self.old) (told self.new) length) }
        ensures closed { is_open self.old ≡ false → IsErr result × (told self.new ≡ told self.old) }
        ensures open { OnOk result (is_open self.new ≡ true) }
        ensures closes { OnErr result (is_open self.new ≡ false) }
        ensures quiet { OnOk result (faults self.new ≡ faults self.old) }
        ensures rose { OnErr result (Rose (faults self.old) (faults self.new)) };
}
