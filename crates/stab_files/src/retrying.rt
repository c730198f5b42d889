ghost use Rattle.std.specs.Prelude.{◌≡◌, ◌<◌, ◌≤◌, length, take, false, is_ok, if◌then◌else◌, IfOk, OnOk, OnErr};
ghost use Rattle.std.specs.Io.{ReadsAtMost};
ghost use Rattle.std.specs.Io.KnownBytes.{Appends, Consumes, IsAtEnd, Keeps};
ghost use Rattle.stab_files.specs.Count.{Rose, counted};

use std::io::{self, ErrorKind, Read, Write};

/// A reader or a writer of std's, with a count of the calls that failed. A call that a signal interrupts is
/// made again and doesn't count. No other module counts a failure, so a loop over these calls fails only
/// where one of them did. Nor does another module note a flush, so whoever promises one has to make it.
#[derive(Drop)]
pub(crate) struct Retrying<D: Drop> {
    device: D,
    faults: u64,
    is_flushed: bool,
}

impl<D: Drop> Retrying<D> {
    /// The device, without faults so far.
    pub(crate) fn new(device: D) -> Retrying<D>
        ensures device { result.device ≡ device }
        ensures faults { result.faults ≡ 0 }
        ensures flushed { result.is_flushed ≡ false }
    {
        Retrying {
            device,
            faults: 0,
            is_flushed: false,
        }
    }
}

impl<R: Read + Drop> Retrying<R> {
    /// One read.
    pub(crate) fn read(&mut self, buf: &mut [u8]) -> io::Result<usize>
        ensures bound { ReadsAtMost result buf.new }
        ensures bytes { IfOk result (λ n. Consumes (R.remaining self.old.device) (R.remaining self.new.device) (take n buf.new)) }
        ensures end { IfOk result (λ n. n ≡ 0 → 0 < length buf.old → IsAtEnd (R.remaining self.new.device)) }
        ensures kept { OnErr result (Keeps (R.remaining self.old.device) (R.remaining self.new.device)) }
        ensures rose { OnErr result (Rose self.old.faults self.new.faults) }
        ensures counted { self.new.faults ≡ (if is_ok result then self.old.faults else counted self.old.faults) }
    {
        let result = read_again(&mut self.device, buf);
        if result.is_err() {
            self.faults = self.faults.saturating_add(1);
        }
        result
    }
}

impl<W: Write + Drop> Retrying<W> {
    /// One write. To take nothing of the piece is a failure.
    pub(crate) fn write(&mut self, piece: &[u8]) -> io::Result<usize>
        ensures some { IfOk result (λ n. (0 < n) × (n ≤ length piece.now)) }
        ensures bytes { IfOk result (λ n. Appends (W.contents self.old.device) (W.contents self.new.device) (take n piece.now)) }
        ensures kept { OnErr result (Keeps (W.contents self.old.device) (W.contents self.new.device)) }
        ensures flushed { self.new.is_flushed ≡ false }
        ensures rose { OnErr result (Rose self.old.faults self.new.faults) }
        ensures counted { self.new.faults ≡ (if is_ok result then self.old.faults else counted self.old.faults) }
    {
        self.is_flushed = false;
        let result = write_again(&mut self.device, piece);
        if result.is_err() {
            self.faults = self.faults.saturating_add(1);
        }
        result
    }

    /// Lets out what the writer keeps back.
    pub(crate) fn flush(&mut self) -> io::Result<()>
        ensures kept { Keeps (W.contents self.old.device) (W.contents self.new.device) }
        ensures flushed { self.new.is_flushed ≡ is_ok result }
        ensures rose { OnErr result (Rose self.old.faults self.new.faults) }
        ensures counted { self.new.faults ≡ (if is_ok result then self.old.faults else counted self.old.faults) }
    {
        let result = self.device.flush();
        self.is_flushed = result.is_ok();
        if result.is_err() {
            self.faults = self.faults.saturating_add(1);
        }
        result
    }
}

fn read_again<R: Read>(reader: &mut R, buf: &mut [u8]) -> io::Result<usize>
    ensures bound { ReadsAtMost result buf.new }
    ensures ok { IfOk result (λ n. Consumes (R.remaining reader.old) (R.remaining reader.new) (take n buf.new)) }
    ensures end { IfOk result (λ n. n ≡ 0 → 0 < length buf.old → IsAtEnd (R.remaining reader.new)) }
    ensures err { OnErr result (Keeps (R.remaining reader.old) (R.remaining reader.new)) }
{
    for _ in 0..u64::MAX {
        match reader.read(buf) {
            Ok(count) => return Ok(count),
            Err(error) if error.kind() == ErrorKind::Interrupted => {}
            Err(error) => return Err(error),
        }
    }
    Err(io::Error::from(ErrorKind::Interrupted))
}

fn write_again<W: Write>(writer: &mut W, piece: &[u8]) -> io::Result<usize>
    ensures some { IfOk result (λ n. (0 < n) × (n ≤ length piece.now)) }
    ensures ok { IfOk result (λ n. Appends (W.contents writer.old) (W.contents writer.new) (take n piece.now)) }
    ensures err { OnErr result (Keeps (W.contents writer.old) (W.contents writer.new)) }
{
    for _ in 0..u64::MAX {
        match writer.write(piece) {
            Ok(0) => return Err(io::Error::from(ErrorKind::WriteZero)),
            Ok(count) => return Ok(count),
            Err(error) if error.kind() == ErrorKind::Interrupted => {}
            Err(error) => return Err(error),
        }
    }
    Err(io::Error::from(ErrorKind::Interrupted))
}
