//! A reference's value over the calls on a log.
ghost use Rattle.std.specs.Prelude.{◌≡◌, ◌<◌, ℕ, OnOk, IfSome, IsTrue};
ghost use Rattle.std.specs.List.{All};
ghost use Rattle.ref_log.specs.Log.{writes_of, has_write};
ghost use Rattle.ref_log.specs.Calls.{wrote, struck, IsAllowed, IsAfter};

use super::is;
use ref_log::RefLog;
use stab_base::{NoMemory, RefId, Seq, Value};
use std::alloc::Global;
use std::test::Fail;

// Whether the last write of a reference is this number's, and wrote this integer.
fn reads(log: &RefLog, r: u32, number: u64, integer: i64) -> bool {
    match log.read(RefId(r)) {
        Some((value, q)) => q.0 == number && value.same(&Value::int(integer)),
        None => false,
    }
}

// Writes the reference 1 once more.
fn write(log: &mut RefLog, q: u64, v: Value) -> Result<(), NoMemory>
    requires { IsAllowed (wrote 1 q v) log.old }
    ensures { OnOk result (IsAfter (wrote 1 q v) log.old log.new) }
{
    log.reserve(RefId(1))?;
    log.write(RefId(1), Seq(q), v);
    Ok(())
}

#[test]
fn a_value_falls_back(rt: HostRuntime) -> Result<(), Fail> {
    let mut log = RefLog::new(rt.alloc());
    log.reserve(RefId(1))?;
    log.make(RefId(1), Seq(2), Value::int(20));
    write(&mut log, 5, Value::int(50))?;
    write(&mut log, 7, Value::int(70))?;
    log.strike(RefId(1), Seq(5));
    let before = reads(&log, 1, 7, 70);
    log.strike(RefId(1), Seq(7));
    assert!(rt; before && reads(&log, 1, 2, 20));
    Ok(())
}

#[test]
fn a_value_falls_back_to_one_before_the_cut(rt: HostRuntime) -> Result<(), Fail> {
    let mut log = RefLog::new(rt.alloc());
    log.reserve(RefId(1))?;
    log.make(RefId(1), Seq(2), Value::int(20));
    write(&mut log, 5, Value::int(50))?;
    log.cut(Seq(6));
    let before = reads(&log, 1, 5, 50);
    write(&mut log, 9, Value::int(90))?;
    log.strike(RefId(1), Seq(9));
    assert!(rt; before && reads(&log, 1, 5, 50));
    Ok(())
}

#[test]
fn a_reference_is_gone_with_its_writes(rt: HostRuntime) -> Result<(), Fail> {
    let mut log = RefLog::new(rt.alloc());
    let missing = log.read(RefId(3)).is_none();
    log.reserve(RefId(3))?;
    log.make(RefId(3), Seq(4), Value::unit());
    log.strike(RefId(3), Seq(4));
    let gone = log.read(RefId(3)).is_none();
    log.reserve(RefId(3))?;
    log.make(RefId(3), Seq(6), Value::int(-6));
    assert!(rt; missing && gone && reads(&log, 3, 6, -6));
    Ok(())
}

#[derive(Clone, Copy)]
enum Call {
    /// Makes the reference where it isn't there.
    Write(u32, i64),
    /// Strikes the last write of the reference, where it is above the last cut.
    Undo(u32),
    Cut,
}

/// A log with its last cut and a number that is above all that are in it.
#[derive(Drop)]
struct Growing {
    log: RefLog,
    cut: u64,
    top: u64,
    ghost last_cut: { log.last_cut ≡ cut },
    ghost cut_below: { cut < top },
    ghost writes_below: { (r : ℕ) → All (λ w. w.number < top) (writes_of log r) },
}

impl Growing {
    fn new(alloc: Global) -> Growing {
        Growing {
            log: RefLog::new(alloc),
            cut: 0,
            top: 1,
        }
    }

    fn write(&mut self, r: u32, v: i64) -> Result<(), NoMemory> {
        let q = self.top;
        if q < u64::MAX {
            self.log.reserve(RefId(r))?;
            if self.log.read(RefId(r)).is_none() {
                self.log.make(RefId(r), Seq(q), Value::int(v));
            } else {
                self.log.write(RefId(r), Seq(q), Value::int(v));
            }
            self.top = q + 1;
        }
        Ok(())
    }

    fn undo(&mut self, r: u32) {
        if let Some(q) = last(&self.log, r) {
            if q.0 > self.cut {
                strike(&mut self.log, RefId(r), q, self.top);
            }
        }
    }

    fn cut(&mut self) {
        let q = self.top;
        if q < u64::MAX {
            cut_above(&mut self.log, Seq(q));
            self.cut = q;
            self.top = q + 1;
        }
    }
}

// The number of the last write of a reference.
fn last(log: &RefLog, r: u32) -> Option<Seq>
    ensures { IfSome result (λ q. IsTrue (has_write q.0 (writes_of log.now r))) }
{
    let read = log.read(RefId(r))?;
    Some(read.1)
}

// Strikes a write of a log in which all are below a number.
fn strike(log: &mut RefLog, r: RefId, q: Seq, top: u64)
    requires allowed { IsAllowed (struck r.0 q.0) log.old }
    requires below { (s : ℕ) → All (λ w. w.number < top) (writes_of log.old s) }
    ensures below { (s : ℕ) → All (λ w. w.number < top) (writes_of log.new s) }
    ensures last_cut { log.new.last_cut ≡ log.old.last_cut }
{
    log.strike(r, q);
}

// Cuts above all writes.
fn cut_above(log: &mut RefLog, q: Seq)
    requires below { (r : ℕ) → All (λ w. w.number < q.0) (writes_of log.old r) }
    requires last_cut { log.old.last_cut < q.0 }
    ensures below { (r : ℕ) → All (λ w. w.number < q.0) (writes_of log.new r) }
    ensures last_cut { log.new.last_cut ≡ q.0 }
{
    log.cut(q);
}

/// A write in a plain list: the reference, its number and the integer.
#[derive(Clone, Copy)]
struct Written {
    reference: u32,
    number: u64,
    integer: i64,
}

// The same on a list of the writes that weren't struck, each under the number that it gets in the log.
fn on_list(plain: &mut Vec<Written>, growing: &Growing, call: Call) -> Result<(), Fail> {
    match call {
        Call::Write(reference, integer) => plain.push(Written {
            reference,
            number: growing.top,
            integer,
        })?,
        Call::Undo(r) => {
            if let Some(i) = plain.iter().rposition(|w| w.reference == r) {
                if i < plain.len() && plain[i].number > growing.cut {
                    let _struck = plain.remove(i);
                }
            }
        }
        Call::Cut => {}
    }
    Ok(())
}

// Whether the log and the list agree on a reference.
fn agree(log: &RefLog, plain: &[Written], r: u32) -> bool {
    match plain.iter().rev().find(|w| w.reference == r) {
        Some(w) => reads(log, r, w.number, w.integer),
        None => log.read(RefId(r)).is_none(),
    }
}

const THIRTY: [Call; 30] = [
    Call::Write(1, 10),
    Call::Write(2, 20),
    Call::Write(1, 11),
    Call::Undo(1),
    Call::Undo(2),
    Call::Write(3, 30),
    Call::Write(2, 21),
    Call::Write(2, 22),
    Call::Cut,
    Call::Undo(1),
    Call::Undo(2),
    Call::Write(2, 23),
    Call::Write(1, 12),
    Call::Write(3, 31),
    Call::Undo(2),
    Call::Write(1, 13),
    Call::Undo(1),
    Call::Undo(1),
    Call::Undo(1),
    Call::Write(4, 40),
    Call::Cut,
    Call::Cut,
    Call::Undo(4),
    Call::Undo(3),
    Call::Write(5, 50),
    Call::Undo(5),
    Call::Write(5, 51),
    Call::Write(3, 32),
    Call::Undo(3),
    Call::Write(4, 41),
];

#[test]
fn a_log_beside_a_list(rt: HostRuntime) -> Result<(), Fail> {
    let mut growing = Growing::new(rt.alloc());
    let mut plain = Vec::new(rt.alloc());
    let apart = first_apart(&mut growing, &mut plain)?;
    is(&rt, &apart, &None);
    Ok(())
}

fn apply(growing: &mut Growing, call: Call) -> Result<(), NoMemory> {
    match call {
        Call::Write(r, v) => growing.write(r, v)?,
        Call::Undo(r) => growing.undo(r),
        Call::Cut => growing.cut(),
    }
    Ok(())
}

fn all_agree(log: &RefLog, plain: &[Written]) -> bool {
    (1..6).all(|r| agree(log, plain, r))
}

// How many calls were made when both first don't agree.
fn first_apart(growing: &mut Growing, plain: &mut Vec<Written>) -> Result<Option<usize>, Fail> {
    for (calls, call) in THIRTY.iter().enumerate() {
        on_list(plain, growing, *call)?;
        apply(growing, *call)?;
        if !all_agree(&growing.log, plain) {
            return Ok(Some(calls));
        }
    }
    Ok(None)
}

#[test]
fn room_for_many(rt: HostRuntime) -> Result<(), Fail> {
    let mut log = RefLog::new(rt.alloc());
    assert!(rt; log.reserve(RefId(99_999)).is_ok());
    Ok(())
}

fn write_many(growing: &mut Growing) -> Result<(), NoMemory> {
    for r in 1..1000u32 {
        growing.write(r, i64::from(r))?;
    }
    Ok(())
}

#[test]
fn many_references(rt: HostRuntime) -> Result<(), Fail> {
    let mut growing = Growing::new(rt.alloc());
    write_many(&mut growing)?;
    assert!(rt; reads(&growing.log, 999, 999, 999));
    Ok(())
}
