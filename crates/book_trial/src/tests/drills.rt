//! Leases that are held over undos: what each call is told, a line each.
ghost use Rattle.std.specs.Prelude.{◌≤◌, length};
ghost use Rattle.stab_journal.specs.Event.{IsWorker};

use super::is;
use super::texts::CASCADE;
use super::turns::{Stuck, Work, answer, book_with, next_work};
use book_text::shown_text;
use commit_book::{Book, Done, Lease};
use stab_base::{NoMemory, Seq};
use std::alloc::{AllocGlobal, Global};
use std::process::Abort;
use std::test::Fail;

const QUANTUM: u32 = 1_000;

// A book and what its calls were told.
#[derive(Drop)]
struct Drill {
    alloc: Global,
    book: Book,
    told: String,
    // Whether a line is missing, for want of memory or of a thread that is ready.
    lacks: bool,
}

fn lease_line(alloc: Global, k: u32, lease: &Lease) -> Result<String, NoMemory> {
    let (t, generation) = (lease.thread().0, lease.generation().0);
    Ok(format!(in alloc; "lease {k} thread {t} gen {generation}\n")?)
}

fn commit_line(alloc: Global, k: u32, done: &Done) -> Result<String, NoMemory> {
    match done {
        Done::Taken { first, count } => {
            let first = first.0;
            Ok(format!(in alloc; "commit {k} taken {first} {count}\n")?)
        }
        Done::Parked { first, count } => {
            let first = first.0;
            Ok(format!(in alloc; "commit {k} parked {first} {count}\n")?)
        }
        Done::Undone {
            first,
            count,
            mark,
            removed,
            marks: _,
        } => {
            let (first, mark) = (first.0, mark.0);
            Ok(format!(in alloc;
                "commit {k} undone {first} {count} mark {mark} removed {removed}\n"
            )?)
        }
        Done::Stale {
            lease_generation,
            now: Some(now),
        } => {
            let (generation, now) = (lease_generation.0, now.0);
            Ok(format!(in alloc; "commit {k} stale {generation} now {now}\n")?)
        }
        Done::Stale {
            lease_generation,
            now: None,
        } => {
            let generation = lease_generation.0;
            Ok(format!(in alloc; "commit {k} stale {generation} now none\n")?)
        }
        Done::Over { weight } => Ok(format!(in alloc; "commit {k} over {weight}\n")?),
    }
}

impl Drill {
    fn new(alloc: Global, text: &str, script: &[i64]) -> Result<Drill, Fail>
        requires { length script.now ≤ 10 }
    {
        Ok(Drill {
            alloc,
            book: book_with(alloc, text, script, 10_000)?,
            told: String::new(alloc),
            lacks: false,
        })
    }

    fn say(&mut self, line: Result<String, NoMemory>) {
        let said = match line {
            Ok(line) => self.told.push_str(line.as_str()).is_ok(),
            Err(NoMemory) => false,
        };
        self.lacks = self.lacks || !said;
    }

    fn lease(&mut self, k: u32) -> Option<Work>
        requires { IsWorker k }
    {
        match next_work(&mut self.book, k, QUANTUM) {
            Ok(Some((lease, progress))) => {
                self.say(lease_line(self.alloc, k, &lease));
                Some((lease, progress))
            }
            _ => {
                self.lacks = true;
                None
            }
        }
    }

    fn commit(&mut self, k: u32, work: Option<Work>) {
        let Some((lease, progress)) = work else {
            return;
        };
        match answer(&mut self.book, lease, progress) {
            Ok(done) => self.say(commit_line(self.alloc, k, &done)),
            Err(_) => self.lacks = true,
        }
    }

    fn give_back(&mut self, work: Option<Work>) {
        if let Some((lease, _progress)) = work {
            self.book.give_back(lease);
        }
    }

    // Turns of the first worker.
    fn turns(&mut self, count: u32) {
        for _ in 0..count {
            let work = self.lease(1);
            self.commit(1, work);
        }
    }

    // What the book shows now is told too.
    fn show(&mut self) -> Result<(), Fail> {
        let shown = shown_text(self.alloc, &self.book)?;
        self.told.push_str(std::str::from_utf8(shown.as_slice())?)?;
        Ok(())
    }
}

#[test]
fn stale_lease_of_another_control(rt: HostRuntime) -> Result<(), Fail> {
    let mut drill = Drill::new(rt.alloc(), "fn main(): unit { print(5); print(6) }", &[])?;
    another_control(&rt, &mut drill)
}

fn another_control<R: AllocGlobal + Abort>(rt: &R, drill: &mut Drill) -> Result<(), Fail> {
    let held = drill.lease(2);
    drill.book.recall();
    drill.turns(1);
    drill.commit(2, held);
    drill.show()?;
    let told = "\
lease 2 thread 1 gen 0
lease 1 thread 1 gen 0
commit 1 taken 1 1
commit 2 stale 0 now 0
5
ended 0 faulted 0 waiting 1
";
    has_told(rt, drill, told);
    let counts = drill.book.counts();
    is(
        rt,
        &(counts.commits, counts.stale, counts.undos),
        &(1, 1, 0),
    );
    Ok(())
}

// These lines were told, and none is missing.
fn has_told<R: Abort>(rt: &R, drill: &Drill, told: &str) {
    is(rt, &(drill.told.as_str(), drill.lacks), &(told, false));
}

#[test]
fn stale_lease_of_a_gone_thread(rt: HostRuntime) -> Result<(), Fail> {
    let text = "
fn kid(): unit { stabilize() }
fn part(): unit { spawn kid(); if probe() < 0 { stabilize() } else { () } }
fn main(): unit { stable part() }";
    let mut drill = Drill::new(rt.alloc(), text, &[-1])?;
    gone_thread(&rt, &mut drill)
}

fn gone_thread<R: AllocGlobal + Abort>(rt: &R, drill: &mut Drill) -> Result<(), Fail> {
    drill.turns(2);
    let of_the_child = drill.lease(2);
    drill.turns(2);
    drill.commit(2, of_the_child);
    drill.show()?;
    let told = "\
lease 1 thread 1 gen 0
commit 1 taken 1 1
lease 1 thread 1 gen 0
commit 1 taken 2 1
lease 2 thread 2 gen 0
lease 1 thread 1 gen 0
commit 1 taken 3 2
lease 1 thread 1 gen 0
commit 1 undone 5 2 mark 1 removed 5
commit 2 stale 0 now none
ended 0 faulted 0 waiting 1
";
    has_told(rt, drill, told);
    Ok(())
}

#[test]
fn stale_lease_of_the_same_control(rt: HostRuntime) -> Result<(), Fail> {
    let text = "
fn b(c: chan[int]): unit { recv(c); b(c) }
fn part(c: chan[int]): unit { send(c, 1); if probe() < 0 { stabilize() } else { () } }
fn a(c: chan[int]): unit { stable part(c) }
fn main(): unit { let c = chan[int](); spawn b(c); spawn a(c); stable part(c) }";
    let mut drill = Drill::new(rt.alloc(), text, &[-1, -1])?;
    same_control(&rt, &mut drill)
}

fn same_control<R: AllocGlobal + Abort>(rt: &R, drill: &mut Drill) -> Result<(), Fail> {
    drill.turns(9);
    let third = drill.lease(3);
    drill.turns(1);
    let second = drill.lease(2);
    drill.turns(1);
    let fourth = drill.lease(4);
    let fifth = drill.lease(5);
    drill.commit(3, third);
    let third = drill.lease(3);
    drill.commit(3, third);
    drill.commit(5, fifth);
    drill.commit(2, second);
    let shown = drill.show();
    drill.give_back(fourth);
    shown?;
    let told = "\
lease 1 thread 1 gen 0
commit 1 taken 1 1
lease 1 thread 1 gen 0
commit 1 taken 2 2
lease 1 thread 2 gen 0
commit 1 parked 4 0
lease 1 thread 1 gen 0
commit 1 taken 4 2
lease 1 thread 3 gen 0
commit 1 taken 6 1
lease 1 thread 1 gen 0
commit 1 taken 7 2
lease 1 thread 3 gen 0
commit 1 taken 9 1
lease 1 thread 1 gen 0
commit 1 parked 10 0
lease 1 thread 2 gen 0
commit 1 taken 10 2
lease 3 thread 3 gen 0
lease 1 thread 1 gen 0
commit 1 taken 12 2
lease 2 thread 2 gen 0
lease 1 thread 1 gen 0
commit 1 undone 14 2 mark 8 removed 5
lease 4 thread 1 gen 1
lease 5 thread 2 gen 1
commit 3 taken 16 2
lease 3 thread 3 gen 0
commit 3 undone 18 2 mark 6 removed 6
commit 5 stale 1 now 2
commit 2 stale 0 now 2
ended 0 faulted 0 waiting 3
";
    has_told(rt, drill, told);
    Ok(())
}

#[test]
fn an_undo_tells_which_nodes_it_took_away(rt: HostRuntime) -> Result<(), Fail> {
    let mut nodes = Vec::new(rt.alloc());
    let told = undo_of_cascade(rt.alloc(), &mut nodes)?;
    let taken_away = nodes.as_slice() == &[17, 20, 23, 26, 28][..];
    is(&rt, &(told, taken_away), &(Some((31, 2, 17, 10)), true));
    Ok(())
}

fn undo_of_cascade(
    alloc: Global,
    nodes: &mut Vec<u64>,
) -> Result<Option<(u64, u32, u64, u64)>, Fail> {
    let mut book = book_with(alloc, CASCADE, &[-1], 10_000)?;
    last_undo(&mut book, 32, nodes)
}

// Where the events of the last undo in so many turns begin, how many there are, the section's mark and how many steps were
// removed. The nodes of each undo are added.
fn last_undo(
    book: &mut Book,
    turns: u32,
    nodes: &mut Vec<u64>,
) -> Result<Option<(u64, u32, u64, u64)>, Fail> {
    let mut told = None;
    for _ in 0..turns {
        let undo = next_undo(book, nodes)?;
        told = undo.or(told);
    }
    Ok(told)
}

// The same of the next turn, if it is an undo.
fn next_undo(book: &mut Book, nodes: &mut Vec<u64>) -> Result<Option<(u64, u32, u64, u64)>, Fail> {
    match next_answer(book)? {
        Some(done) => undo_of(&done, nodes),
        None => Ok(None),
    }
}

fn undo_of(done: &Done, nodes: &mut Vec<u64>) -> Result<Option<(u64, u32, u64, u64)>, Fail> {
    match done {
        Done::Undone {
            first,
            count,
            mark,
            removed,
            marks,
        } => {
            sorted(marks, nodes)?;
            Ok(Some((first.0, *count, mark.0, *removed)))
        }
        _ => Ok(None),
    }
}

// What is answered to the next thread's work, if one is lent.
fn next_answer(book: &mut Book) -> Result<Option<Done>, Stuck> {
    match next_work(book, 1, QUANTUM)? {
        Some((lease, progress)) => Ok(Some(answer(book, lease, progress)?)),
        None => Ok(None),
    }
}

// Adds the numbers, in order.
fn sorted(nodes: &[Seq], numbers: &mut Vec<u64>) -> Result<(), Fail> {
    for q in nodes {
        numbers.push(q.0)?;
    }
    numbers.sort_unstable();
    Ok(())
}

#[test]
fn three_stale_leases(rt: HostRuntime) -> Result<(), Fail> {
    let text = "
fn b(c: chan[int]): unit { recv(c); b(c) }
fn part(c: chan[int]): unit { send(c, 1); if probe() < 0 { stabilize() } else { () } }
fn main(): unit { let c = chan[int](); spawn b(c); stable part(c) }";
    let mut drill = Drill::new(rt.alloc(), text, &[-1, -1, -1])?;
    three_leases(&rt, &mut drill)
}

fn three_leases<R: AllocGlobal + Abort>(rt: &R, drill: &mut Drill) -> Result<(), Fail> {
    drill.turns(5);
    let over_three = drill.lease(2);
    drill.turns(5);
    let over_two = drill.lease(3);
    drill.turns(5);
    let over_one = drill.lease(4);
    drill.turns(2);
    drill.commit(2, over_three);
    drill.commit(3, over_two);
    drill.commit(4, over_one);
    drill.show()?;
    let told = "\
lease 1 thread 1 gen 0
commit 1 taken 1 1
lease 1 thread 1 gen 0
commit 1 taken 2 2
lease 1 thread 2 gen 0
commit 1 parked 4 0
lease 1 thread 1 gen 0
commit 1 taken 4 2
lease 1 thread 1 gen 0
commit 1 taken 6 1
lease 2 thread 2 gen 0
lease 1 thread 1 gen 0
commit 1 taken 7 2
lease 1 thread 1 gen 0
commit 1 undone 9 2 mark 5 removed 5
lease 1 thread 1 gen 1
commit 1 taken 11 1
lease 1 thread 2 gen 1
commit 1 parked 12 0
lease 1 thread 1 gen 1
commit 1 taken 12 1
lease 3 thread 2 gen 1
lease 1 thread 1 gen 1
commit 1 taken 13 2
lease 1 thread 1 gen 1
commit 1 undone 15 2 mark 11 removed 5
lease 1 thread 1 gen 2
commit 1 taken 17 1
lease 1 thread 2 gen 2
commit 1 parked 18 0
lease 1 thread 1 gen 2
commit 1 taken 18 1
lease 4 thread 2 gen 2
lease 1 thread 1 gen 2
commit 1 taken 19 2
lease 1 thread 1 gen 2
commit 1 undone 21 2 mark 17 removed 5
commit 2 stale 0 now 3
commit 3 stale 1 now 3
commit 4 stale 2 now 3
ended 0 faulted 0 waiting 2
";
    has_told(rt, drill, told);
    Ok(())
}
