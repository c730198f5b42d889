//! Gates at which a worker is held until the other has come.

use std::sync::atomic::AtomicU64;
use std::sync::atomic::Ordering::SeqCst;
use std::thread::yield_now;
use worker_lease::Gate;

// How often a worker that is held looks at most.
const LOOKS: u64 = 20_000_000;

/// How often workers 1 and 2 came to a gate, how often a worker with another number, and how many gave up waiting there.
#[derive(Drop)]
pub(crate) struct Visits {
    first: AtomicU64,
    second: AtomicU64,
    others: AtomicU64,
    gave_up: AtomicU64,
}

impl Visits {
    fn new() -> Visits {
        Visits {
            first: AtomicU64::new(0),
            second: AtomicU64::new(0),
            others: AtomicU64::new(0),
            gave_up: AtomicU64::new(0),
        }
    }

    fn of(&self, worker: u32) -> &AtomicU64 {
        match worker {
            1 => &self.first,
            2 => &self.second,
            _ => &self.others,
        }
    }

    /// How often a worker came.
    pub(crate) fn times(&self, worker: u32) -> u64 {
        self.of(worker).load(SeqCst)
    }

    /// Whether nobody gave up, and nobody came with another number than 1 or 2.
    pub(crate) fn all_met(&self) -> bool {
        self.gave_up.load(SeqCst) == 0 && self.others.load(SeqCst) == 0
    }

    // Notes that a worker came. Returns how often it had come before.
    fn note(&self, worker: u32) -> u64 {
        self.of(worker).fetch_add(1, SeqCst)
    }

    // Returns once a worker has come so often, or gives up.
    fn wait_for(&self, worker: u32, times: u64) {
        for _ in 0..LOOKS {
            if self.times(worker) >= times {
                return;
            }
            yield_now();
        }
        self.gave_up.fetch_add(1, SeqCst);
    }
}

/// Holds worker 2 before its first commit until worker 1 has come, and worker 1 before its first until worker 2 has come twice.
#[derive(Drop)]
pub(crate) struct GateTwo {
    pub(crate) visits: Visits,
}

impl GateTwo {
    pub(crate) fn new() -> GateTwo {
        GateTwo {
            visits: Visits::new(),
        }
    }
}

impl Gate for GateTwo {
    fn before_commit(&self, worker: u32) {
        let (other, times) = if worker == 1 { (2, 2) } else { (1, 1) };
        if self.visits.note(worker) == 0 {
            self.visits.wait_for(other, times);
        }
    }
}

/// Lets its first call pass, and holds the worker of its second call until the other worker has come twice after that.
#[derive(Drop)]
pub(crate) struct GateStab {
    calls: AtomicU64,
    pub(crate) visits: Visits,
}

impl GateStab {
    pub(crate) fn new() -> GateStab {
        GateStab {
            calls: AtomicU64::new(0),
            visits: Visits::new(),
        }
    }
}

impl Gate for GateStab {
    fn before_commit(&self, worker: u32) {
        let other = if worker == 1 { 2 } else { 1 };
        let before = self.visits.times(other);
        self.visits.note(worker);
        if self.calls.fetch_add(1, SeqCst) == 1 {
            self.visits.wait_for(other, before.saturating_add(2));
        }
    }
}

// How often two workers that are held look for a third.
const HELD: u64 = 100_000;

/// Lets its first call pass, and holds the next two until both have come, and then for a while, in which a third worker could come.
#[derive(Drop)]
pub(crate) struct GateThree {
    came: AtomicU64,
    went_on: AtomicU64,
    gave_up: AtomicU64,
    third: AtomicU64,
}

impl GateThree {
    pub(crate) fn new() -> GateThree {
        GateThree {
            came: AtomicU64::new(0),
            went_on: AtomicU64::new(0),
            gave_up: AtomicU64::new(0),
            third: AtomicU64::new(0),
        }
    }

    /// Whether two came, and no third one while both were held.
    pub(crate) fn two_alone(&self) -> bool {
        self.came.load(SeqCst) > 3 && self.gave_up.load(SeqCst) == 0 && self.third.load(SeqCst) == 0
    }

    // Returns once two have come, or gives up.
    fn wait_for_two(&self) {
        for _ in 0..LOOKS {
            if self.came.load(SeqCst) >= 3 {
                return;
            }
            yield_now();
        }
        self.gave_up.fetch_add(1, SeqCst);
    }

    // Looks for a third one while nobody has gone on.
    fn look_for_third(&self) {
        for _ in 0..HELD {
            let came = self.came.load(SeqCst);
            if self.went_on.load(SeqCst) == 0 && came > 3 {
                self.third.fetch_add(1, SeqCst);
                return;
            }
            yield_now();
        }
    }
}

impl Gate for GateThree {
    fn before_commit(&self, _worker: u32) {
        let before = self.came.fetch_add(1, SeqCst);
        if before == 1 || before == 2 {
            self.wait_for_two();
            self.look_for_third();
            self.went_on.fetch_add(1, SeqCst);
        }
    }
}

/// A gate that holds nobody.
pub(crate) struct OpenGate;

impl Gate for OpenGate {
    fn before_commit(&self, _worker: u32) {}
}
