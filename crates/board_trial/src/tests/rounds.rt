//! Rounds of a writer and readers, each in a thread of its own.
ghost use Rattle.std.specs.Prelude.{◌≡◌, All, IfOk};

use crate::tests::readers::{Notes, Reader};
use crate::tests::writer::Writer;
use stab_base::NoMemory;
use stab_watch::{Board, Reading};
use std::alloc::Global;
use std::sync::Wait;
use std::sync::atomic::{AtomicU64, Ordering};
use std::thread;
use std::thread::Threads;

/// What is done in a round.
#[derive(Clone, Copy)]
pub struct Plan {
    pub readers: u32,
    /// How often each reader reads, or oftener.
    pub readings: u64,
    /// How many events are added, each shown by itself.
    pub events: u64,
    /// After every so many of these, the writer makes a reader, reads by it, and gathers it.
    pub own: Option<u64>,
}

/// What came of a reader, and what it was gathered with.
#[derive(Clone, Copy)]
pub struct Heard {
    pub notes: Notes,
    pub gathered: Reading,
}

/// A board and its writer.
#[derive(Drop)]
pub struct Trial {
    board: Board,
    writer: Writer,
    /// How many readings of the writer's own readers weren't what was shown last.
    pub wrong: u64,
    ghost own: { writer.pass.board ≡ board },
}

impl Trial {
    pub fn new(alloc: Global) -> Result<Trial, NoMemory> {
        let (board, pass) = Board::new(alloc)?;
        Ok(Trial {
            board,
            writer: Writer::new(alloc, pass),
            wrong: 0,
        })
    }

    /// Makes readers, shows events while they read, and gathers them.
    pub fn round<R: Threads + Wait + Sync>(
        self,
        rt: &R,
        alloc: Global,
        plan: Plan,
    ) -> Result<(Trial, Vec<Heard>), NoMemory> {
        let Trial {
            board,
            mut writer,
            wrong,
        } = self;
        let readers = readers_of(alloc, &board, &mut writer, plan.readers)?;
        let done = AtomicU64::new(0);
        let read = ||
            requires { All (λ r. r.pass.board ≡ board) readers.items }
        { read_all(rt, &board, readers, plan.readings, &done) };
        let (readers, shown) = thread::join(rt, read, || show_all(rt, &board, writer, plan, &done));
        let (mut writer, found) = shown?;
        let heard = gather_all(rt, alloc, &board, &mut writer, readers?)?;
        let wrong = wrong.saturating_add(found);
        Ok((
            Trial {
                board,
                writer,
                wrong,
            },
            heard,
        ))
    }
}

fn readers_of(
    alloc: Global,
    board: &Board,
    writer: &mut Writer,
    count: u32,
) -> Result<Vec<Reader>, NoMemory>
    requires own { writer.old.pass.board ≡ board.now }
    ensures own { writer.new.pass.board ≡ writer.old.pass.board }
    ensures readers { IfOk result (λ v. All (λ r. r.pass.board ≡ board.now) v.items) }
{
    let mut readers = Vec::new(alloc);
    for _ in 0..count {
        let notes = Notes::new(writer.shown());
        let pass = board.reader(&mut writer.pass);
        readers.push(Reader { pass, notes })?;
    }
    Ok(readers)
}

// Each reader reads in a thread of its own.
fn read_all<R: Threads + Wait + Sync>(
    rt: &R,
    board: &Board,
    readers: Vec<Reader>,
    readings: u64,
    done: &AtomicU64,
) -> Result<Vec<Reader>, NoMemory>
    requires { All (λ r. r.pass.board ≡ board.now) readers.items }
    ensures { IfOk result (λ v. All (λ r. r.pass.board ≡ board.now) v.items) }
{
    let read = |reader: Reader| -> Reader
        requires { reader.pass.board ≡ board.now }
        ensures { result.pass.board ≡ board.entry.now }
    {
        let mut reader = reader;
        reader.read_all(rt, board, readings, done);
        reader
    };
    Ok(thread::map_vec(rt, readers, &read)?)
}

// Shows events one after another, and then says that it is done. Answers the writer, and how many of its own readings were wrong.
fn show_all<R: Wait>(
    rt: &R,
    board: &Board,
    writer: Writer,
    plan: Plan,
    done: &AtomicU64,
) -> Result<(Writer, u64), NoMemory>
    requires { writer.pass.board ≡ board.now }
    ensures { IfOk result (λ r. r.0.pass.board ≡ board.now) }
{
    let mut writer = writer;
    let shown = show_each(rt, board, &mut writer, plan);
    done.store(1, Ordering::SeqCst);
    Ok((writer, shown?))
}

fn show_each<R: Wait>(
    rt: &R,
    board: &Board,
    writer: &mut Writer,
    plan: Plan,
) -> Result<u64, NoMemory>
    requires own { writer.old.pass.board ≡ board.now }
    ensures own { writer.new.pass.board ≡ writer.old.pass.board }
{
    let mut wrong = 0u64;
    for event in 0..plan.events {
        writer.show_next(rt, board)?;
        if plan
            .own
            .is_some_and(|often| event.checked_rem(often) == Some(0))
            && !writer.reads_own(rt, board)
        {
            wrong = wrong.saturating_add(1);
        }
    }
    Ok(wrong)
}

fn gather_all<R: Wait>(
    rt: &R,
    alloc: Global,
    board: &Board,
    writer: &mut Writer,
    readers: Vec<Reader>,
) -> Result<Vec<Heard>, NoMemory>
    requires own { writer.old.pass.board ≡ board.now }
    requires readers { All (λ r. r.pass.board ≡ board.now) readers.items }
    ensures own { writer.new.pass.board ≡ writer.old.pass.board }
{
    let mut heard = Vec::new(alloc);
    for reader in readers {
        let Reader { pass, notes } = reader;
        let gathered = board.gather(rt, &mut writer.pass, pass);
        heard.push(Heard { notes, gathered })?;
    }
    Ok(heard)
}
