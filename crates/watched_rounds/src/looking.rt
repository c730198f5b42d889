//! A gate at which the board is read.
ghost use Rattle.std.specs.Prelude.{◌≡◌, length, IfOk};
ghost use Rattle.std.specs.Arc.{arc_value};

use stab_base::NoMemory;
use stab_watch::{Board, ReadPass, Reading, WritePass};
use std::alloc::Global;
use std::sync::{Arc, Mutex, Wait};
use worker_lease::Gate;

// A right to read, with its board.
#[derive(Drop)]
struct Reader {
    board: Arc<Board>,
    pass: ReadPass,
    ghost own: { pass.board ≡ arc_value board },
}

impl Reader {
    fn read<R: Wait>(&mut self, rt: &R) -> Reading {
        self.board.read(rt, &mut self.pass)
    }
}

/// A gate round another: each worker reads the board, with a pass of its own, and then calls the other.
#[derive(Drop)]
pub struct LookingGate<'a, R: Wait, G: Gate> {
    rt: &'a R,
    readers: Vec<Mutex<Reader>>,
    gate: &'a G,
}

impl<'a, R: Wait, G: Gate> LookingGate<'a, R, G> {
    /// Such a gate for so many workers.
    pub fn new(
        rt: &'a R,
        alloc: Global,
        board: &Arc<Board>,
        writer: &mut WritePass,
        workers: u32,
        gate: &'a G,
    ) -> Result<Self, NoMemory>
        requires own { writer.old.board ≡ arc_value board.now }
        ensures writer { writer.new ≡ writer.old }
        ensures readers { IfOk result (λ g. length g.readers.items ≡ workers) }
    {
        let mut readers = Vec::new(alloc);
        for _made in 0..workers {
            let pass = board.reader(writer);
            let board = board.clone()?;
            readers.push(Mutex::new(Reader { board, pass }))?;
        }
        Ok(LookingGate { rt, readers, gate })
    }
}

impl<'a, R: Wait, G: Gate> Gate for LookingGate<'a, R, G> {
    fn before_commit(&self, worker: u32) {
        let place = (worker as usize).wrapping_sub(1);
        if let Some(reader) = self.readers.get(place) {
            reader.lock(self.rt).read(self.rt);
        }
        self.gate.before_commit(worker);
    }
}
