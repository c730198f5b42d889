//! A sink that discards everything.
ghost use Rattle.std.specs.Prelude.{None};

use stab_files::{Sink, SinkFail};

/// Accepts each piece and discards it. No `put` fails.
#[derive(Drop)]
pub struct Silent;

impl Sink for Silent {
    ghost told = { λ _. None };

    ghost faults = { λ _. 0 };

    fn put(&mut self, _piece: &[u8]) -> Result<(), SinkFail> {
        Ok(())
    }
}
