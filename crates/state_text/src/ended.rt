//! Whether all threads of a state ended.
ghost use Rattle.std.specs.Prelude.{◌≡◌, None, true, false};
ghost use Rattle.language.specs.Plain.{standing};
ghost use Rattle.state_text.specs.Ended.{AllDone, SomeHeld};

use plain_language::{Look, PlainState};

/// Whether each thread ended without a fault.
pub fn all_ended(state: &PlainState) -> bool
    requires { standing state.now.state 0 ≡ None }
    ensures all { result ≡ true → AllDone state.now.program state.now.state }
    ensures some { result ≡ false → SomeHeld state.now.program state.now.state }
{
    let mut last = 0;
    while let Some((t, e)) = state.thread_after(last) {
        match e.look() {
            Look::Done => last = t.0,
            _ => return false,
        }
    }
    true
}
