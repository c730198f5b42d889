//! Drills of short texts: random scripts beside the judge of histories, and runs by one worker beside the drills of their turns.

mod scripts;
mod solo;
mod texts;

use stab_code::Program;
use stab_text::read_program;
use std::alloc::Global;
use std::sync::Arc;

// The program of a text, if it is one.
fn program_of(alloc: Global, text: &str) -> Option<Arc<Program>> {
    let bytes = text.as_bytes();
    if bytes.len() > 1_048_576 {
        return None;
    }
    let program = read_program(alloc, bytes).ok()?;
    Arc::new(alloc, program).ok()
}
