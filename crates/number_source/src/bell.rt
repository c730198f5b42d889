//! A bell that one thread rings and others look at.

use stab_base::NoMemory;
use std::alloc::Global;
use std::sync::atomic::AtomicBool;
use std::sync::atomic::Ordering::SeqCst;
use std::sync::{Arc, Wait};
use std::thread::Parker;
use std::time::Duration;

/// How many milliseconds one wait for the bell takes at most.
const PATIENCE: u64 = 100;

/// Says that numbers may have come since it was last silenced. Whoever takes numbers silences it before it takes them, so a
/// number that comes afterwards rings it anew. No contract speaks of it: it may ring where nothing has come.
#[derive(Drop)]
pub struct Bell {
    shared: Arc<Shared, Global>,
}

#[derive(Drop)]
struct Shared {
    rung: AtomicBool,
    sleeper: Parker,
}

impl Bell {
    /// A bell that hasn't rung.
    pub fn new(alloc: Global) -> Result<Bell, NoMemory> {
        let shared = Shared {
            rung: AtomicBool::new(false),
            sleeper: Parker::new(),
        };
        Ok(Bell {
            shared: Arc::new(alloc, shared)?,
        })
    }

    /// The same bell for another thread.
    pub fn share(&self) -> Result<Bell, NoMemory> {
        Ok(Bell {
            shared: Arc::try_clone(&self.shared)?,
        })
    }

    pub fn ring(&self) {
        self.shared.rung.store(true, SeqCst);
        self.shared.sleeper.unpark();
    }

    pub fn has_rung(&self) -> bool {
        self.shared.rung.load(SeqCst)
    }

    /// Takes the ringing back.
    pub fn silence(&self) {
        self.shared.rung.store(false, SeqCst);
    }

    /// Sleeps until it rings, or for a while. It returns at once where it was rung since the last wait. One thread at a time
    /// may wait for it.
    pub(crate) fn wait<R: Wait>(&self, rt: &R) {
        let patience = Duration::from_millis(PATIENCE);
        self.shared.sleeper.park_timeout(rt, patience);
    }
}
