ghost use Rattle.std.specs.Prelude.{◌≡◌, None, true, false, is_ok, IsSome, OnOk, OnErr, if◌then◌else◌};
ghost use Rattle.std.specs.Io.KnownBytes.{Appends};
ghost use Rattle.stab_base.specs.Gain.{SomePrefix};
ghost use Rattle.stab_files.specs.Count.{Rose, counted};
ghost use Rattle.stab_files.specs.Told.{Appends as AppendsTold, AppendsPrefix};

use crate::devices::{Sink, SinkFail};
use crate::retrying::Retrying;
use std::io::Write;
use std::marker::Model;

/// One of std's writers. Contracts see what the writer holds, where it says so, whether all of it was flushed, and how many
/// faults there were. As a sink it tells its bytes where it was made as one that does.
#[derive(Drop)]
pub struct OutSink<W: Write + Drop> {
    writer: Retrying<W>,
    tells: bool,
}

impl<W: Write + Drop> Model for OutSink<W> {
    ghost use Rattle.std.specs.Prelude.{◌≡◌, true, IsSome};
    ghost use Rattle.stab_files.specs.OutSink.{Written, told_if};

    ghost Value = { Written };

    ghost view = { λ s. record {
      contents = W.contents s.writer.device;
      told = told_if s.tells (W.contents s.writer.device);
      is_flushed = s.writer.is_flushed;
      faults = s.writer.faults;
    } };

    ghost invariant = { λ s. s.tells ≡ true → IsSome (W.contents s.writer.device) };
}

impl<W: Write + Drop> OutSink<W> {
    /// A sink over the writer, without faults so far. Its bytes aren't told.
    pub fn new(writer: W) -> OutSink<W>
        ensures { result ≡ record { contents = W.contents writer; told = None; is_flushed = false; faults = 0 } }
    {
        OutSink {
            writer: Retrying::new(writer),
            tells: false,
        }
    }

    /// A sink over a writer that says what it holds, without faults so far. It tells these bytes.
    pub fn telling(writer: W) -> OutSink<W>
        requires { IsSome (W.contents writer) }
        ensures { result ≡ record { contents = W.contents writer; told = W.contents writer; is_flushed = false; faults = 0 } }
    {
        OutSink {
            writer: Retrying::new(writer),
            tells: true,
        }
    }
}

impl<W: Write + Drop> Sink for OutSink<W> {
    ghost told = { λ s. s.told };

    ghost faults = { λ s. s.faults };

    /// Flushes the writer, so that a piece that was taken has gone out. A writer that takes nothing fails.
    fn put(&mut self, piece: &[u8]) -> Result<(), SinkFail>
        ensures appended { OnOk result (AppendsTold self.old.told self.new.told piece.now) }
        ensures prefix { OnErr result (AppendsPrefix self.old.told self.new.told piece.now) }
        ensures rose { OnErr result (Rose self.old.faults self.new.faults) }
        ensures after { self.new.faults ≡ (if is_ok result then self.old.faults else counted self.old.faults) }
        ensures whole { OnOk result (Appends self.old.contents self.new.contents piece.now) }
        ensures flushed { self.new.is_flushed ≡ is_ok result }
        ensures part { OnErr result (SomePrefix (Appends self.old.contents self.new.contents) piece.now) }
    {
        write_out(&mut self.writer, piece)
    }
}

/// Writes the piece and flushes. It fails only where a write or the flush did.
fn write_out<W: Write + Drop>(writer: &mut Retrying<W>, piece: &[u8]) -> Result<(), SinkFail>
    ensures rose { OnErr result (Rose writer.old.faults writer.new.faults) }
    ensures after { writer.new.faults ≡ (if is_ok result then writer.old.faults else counted writer.old.faults) }
    ensures whole { OnOk result (Appends (W.contents writer.old.device) (W.contents writer.new.device) piece.now) }
    ensures flushed { writer.new.is_flushed ≡ is_ok result }
    ensures prefix { OnErr result (SomePrefix (Appends (W.contents writer.old.device) (W.contents writer.new.device)) piece.now) }
{
    let mut rest = piece;
    while !rest.is_empty() {
        match writer.write(rest) {
            Ok(count) => rest = &rest[count..],
            Err(_) => return Err(SinkFail::Failed),
        }
    }
    writer.flush().map_err(|_| SinkFail::Failed)
}
