//! The evaluator beside the machine of the plain language, step by step, over programs that use every form.

use super::is;
use super::thread::{Thread, number, program_of};
use plain_language::{ActKind, Look, PlainState};
use stab_base::{ChanId, Fault, FnId, RefId, Seq, ThreadId, Value};
use stab_code::Program;
use stab_journal::Label;
use std::alloc::Global;
use std::process::Abort;
use std::sync::Arc;
use std::test::Fail;
use step_eval::{Act, Ask, Rest};

// What every probe gets.
const PROBED: i64 = -7;

fn kind_of(act: Act) -> ActKind {
    match act {
        Act::Spawn(_) => ActKind::Spawn,
        Act::NewChan => ActKind::NewChan,
        Act::NewRef => ActKind::NewRef,
        Act::Get(r) => ActKind::Get(r),
        Act::Set(r) => ActKind::Set(r),
        Act::Send(c) => ActKind::Send(c),
        Act::Recv(c) => ActKind::Recv(c),
        Act::Pick(c, d) => ActKind::Pick(c, d),
        Act::Enter(_) => ActKind::Enter,
        Act::Stabilize => ActKind::Stabilize,
        Act::Cut => ActKind::Cut,
        Act::Pin => ActKind::Pin,
        Act::Print => ActKind::Print,
        Act::Probe => ActKind::Probe,
        Act::Attempt => ActKind::Attempt,
    }
}

fn seen(ask: Ask) -> Look {
    match ask {
        Ask::More => Look::Pure,
        Ask::Done => Look::Done,
        Ask::Failed(k) => Look::Failed(k),
        Ask::Act(a) => Look::Act(kind_of(a)),
    }
}

// Both machines, and how many channels, references and steps there are.
#[derive(Drop)]
struct Walk {
    alloc: Global,
    program: Arc<Program>,
    state: PlainState,
    threads: Vec<Thread>,
    channels: u32,
    references: u32,
    steps: u64,
    printed: Vec<Value>,
}

fn id(k: usize) -> ThreadId {
    ThreadId(u32::try_from(k).unwrap_or(0).saturating_add(1))
}

// Whether a thread that asks this receives on the channel, and of a pick which of its two it is.
fn received(ask: Ask, c: ChanId) -> Option<Option<i64>> {
    match ask {
        Ask::Act(Act::Recv(d)) if d == c => Some(None),
        Ask::Act(Act::Pick(d, _)) if d == c => Some(Some(0)),
        Ask::Act(Act::Pick(_, d)) if d == c => Some(Some(1)),
        _ => None,
    }
}

impl Walk {
    fn new(alloc: Global, text: &str) -> Result<Walk, Fail> {
        let program = program_of(alloc, text)?;
        let state = PlainState::start(alloc, &program)?;
        let mut threads = Vec::new(alloc);
        threads.push(Thread::new(alloc, &program, program.main(), &[])?)?;
        Ok(Walk {
            alloc,
            program,
            state,
            threads,
            channels: 0,
            references: 0,
            steps: 0,
            printed: Vec::new(alloc),
        })
    }

    fn play(&mut self, label: Label) -> Result<(), Fail> {
        self.steps = self.steps.saturating_add(1);
        match self.state.play(self.alloc, Seq(self.steps), &label) {
            Ok(()) => Ok(()),
            Err(_fault) => Err(Fail::from("the plain machine has no such step")),
        }
    }

    // What the evaluator says is next of a thread, where the plain machine says the same.
    fn agreed(&self, k: usize) -> Result<Ask, Fail> {
        let Some(thread) = self.threads.get(k) else {
            return Err(Fail::from("no thread"));
        };
        let ask = thread.ask();
        if self.state.look(id(k)) != Some(seen(ask)) {
            return Err(Fail::from("the machines say something else"));
        }
        if self.state.mark(id(k)) != thread.mark() {
            return Err(Fail::from("the machines have other marks"));
        }
        Ok(ask)
    }

    fn answer(&mut self, k: usize, v: Value) -> Result<(), Fail> {
        match self.threads.get_mut(k) {
            Some(thread) => thread.answer(v),
            None => Err(Fail::from("no thread")),
        }
    }

    fn fail(&mut self, k: usize, fault: Fault) -> Result<(), Fail> {
        match self.threads.get_mut(k) {
            Some(thread) => {
                thread.fail(fault);
                Ok(())
            }
            None => Err(Fail::from("no thread")),
        }
    }

    fn operand(&self, k: usize, i: usize) -> Result<Value, Fail> {
        let Some(thread) = self.threads.get(k) else {
            return Err(Fail::from("no thread"));
        };
        match thread.operands().get(i) {
            Some(v) => Ok(v.copy()?),
            None => Err(Fail::from("no operand")),
        }
    }

    fn held(&self, r: RefId) -> Result<Value, Fail> {
        match self.state.reference_after(r.0.saturating_sub(1)) {
            Some((q, v)) if q == r => Ok(v.copy()?),
            _ => Err(Fail::from("no reference")),
        }
    }

    // The step of an act that one thread makes alone, and what the act gets.
    fn alone(&mut self, k: usize, act: Act) -> Result<(Label, Value), Fail> {
        let t = id(k);
        match act {
            Act::NewChan => {
                self.channels = self.channels.saturating_add(1);
                let c = ChanId(self.channels);
                Ok((Label::NewChan(t, c), Value::chan(c)))
            }
            Act::NewRef => {
                self.references = self.references.saturating_add(1);
                let r = RefId(self.references);
                Ok((Label::NewRef(t, r), Value::reference(r)))
            }
            Act::Get(r) => Ok((Label::Get(t, r), self.held(r)?)),
            Act::Set(r) => Ok((Label::Set(t, r), Value::unit())),
            Act::Cut => Ok((Label::Cut(t), Value::unit())),
            Act::Pin => Ok((Label::Pin(t), Value::unit())),
            Act::Print => {
                let v = self.operand(k, 0)?;
                self.printed.push(v)?;
                Ok((Label::Print(t), Value::unit()))
            }
            Act::Probe => Ok((Label::Probe(t, PROBED), Value::int(PROBED))),
            Act::Attempt => Ok((Label::Attempt(t, 2), Value::int(2))),
            _ => Err(Fail::from("no act of one thread")),
        }
    }

    fn spawn(&mut self, k: usize, f: FnId) -> Result<bool, Fail> {
        let u = id(self.threads.len());
        let child = match self.threads.get(k) {
            Some(thread) => Thread::new(self.alloc, &self.program, f, thread.operands())?,
            None => return Err(Fail::from("no thread")),
        };
        self.threads.push(child)?;
        self.play(Label::Spawn(id(k), u))?;
        self.answer(k, Value::unit())?;
        Ok(true)
    }

    fn enter(&mut self, k: usize) -> Result<bool, Fail> {
        self.play(Label::Enter(id(k)))?;
        let q = Seq(self.steps);
        match self.threads.get_mut(k) {
            Some(thread) => thread.enter(q)?,
            None => return Err(Fail::from("no thread")),
        }
        Ok(true)
    }

    // What the receiver gets, a pair where it picked.
    fn receive(&mut self, k: usize, which: Option<i64>, v: Value) -> Result<(), Fail> {
        let Some(i) = which else {
            return self.answer(k, v);
        };
        match Value::pair(self.alloc, Value::int(i), v) {
            Ok(pair) => self.answer(k, pair),
            Err(_deep) => self.fail(k, Fault::DeepValue),
        }
    }

    // The first thread that waits on the channel receives.
    fn send(&mut self, k: usize, c: ChanId) -> Result<bool, Fail> {
        for r in 0..self.threads.len() {
            let ask = match self.threads.get(r) {
                Some(thread) => thread.ask(),
                None => Ask::Done,
            };
            if let Some(which) = received(ask, c) {
                self.give(k, c, (r, which))?;
                return Ok(true);
            }
        }
        Ok(false)
    }

    // One thread sends, and another one receives.
    fn give(&mut self, k: usize, c: ChanId, (r, which): (usize, Option<i64>)) -> Result<(), Fail> {
        let v = self.operand(k, 1)?;
        self.play(Label::Comm(id(k), id(r), c))?;
        self.answer(k, Value::unit())?;
        self.receive(r, which, v)
    }

    // The act of a thread in both machines; none where it waits for a partner.
    fn act(&mut self, k: usize, act: Act) -> Result<bool, Fail> {
        match act {
            Act::Recv(_c) => Ok(false),
            Act::Pick(_c, _d) => Ok(false),
            Act::Send(c) => self.send(k, c),
            Act::Spawn(f) => self.spawn(k, f),
            Act::Enter(_f) => self.enter(k),
            Act::Stabilize => {
                self.play(Label::Refuse(id(k)))?;
                self.fail(k, Fault::NoSection)?;
                Ok(true)
            }
            _ => {
                let (label, v) = self.alone(k, act)?;
                self.play(label)?;
                self.answer(k, v)?;
                Ok(true)
            }
        }
    }

    // One pure step of a thread in both machines, if one is next.
    fn step(&mut self, k: usize) -> Result<bool, Fail> {
        let steps = match self.threads.get_mut(k) {
            Some(thread) => thread.advance(1)?,
            None => return Err(Fail::from("no thread")),
        };
        if steps == 0 {
            return Ok(false);
        }
        self.play(Label::Local(id(k), 1))?;
        Ok(true)
    }

    // One step of a thread in both machines, if there is one.
    fn turn(&mut self, k: usize) -> Result<bool, Fail> {
        let stepped = self.step(k)?;
        match self.agreed(k)? {
            Ask::Act(act) if !stepped => self.act(k, act),
            _ => Ok(stepped),
        }
    }

    // One turn of each thread; whether one of them had a step.
    fn round(&mut self) -> Result<bool, Fail> {
        let mut any = false;
        for k in 0..self.threads.len() {
            if self.turn(k)? {
                any = true;
            }
        }
        Ok(any)
    }

    fn run(&mut self) -> Result<(), Fail> {
        for _round in 0..100_000u32 {
            if !self.round()? {
                return Ok(());
            }
        }
        Err(Fail::from("a program that ends"))
    }

    // What was printed, and how each thread ended.
    fn told(&self) -> Result<String, Fail> {
        let mut told = String::new(self.alloc);
        self.tell_printed(&mut told)?;
        self.tell_rests(&mut told)?;
        Ok(told)
    }

    fn tell_printed(&self, told: &mut String) -> Result<(), Fail> {
        for v in &self.printed {
            match number(v) {
                Some(n) => told.push_str(&format!(in self.alloc; "{n} ")?)?,
                None => told.push_str("? ")?,
            }
        }
        Ok(())
    }

    fn tell_rests(&self, told: &mut String) -> Result<(), Fail> {
        for thread in &self.threads {
            match thread.rest() {
                Rest::Done => told.push_str("done ")?,
                Rest::Going => told.push_str("waits ")?,
                Rest::Failed(k) => told.push_str(&format!(in self.alloc; "{k:?} ")?)?,
            }
        }
        Ok(())
    }

    // Both machines printed the same values.
    fn has_same_output(&self) -> bool {
        let printed = self.state.printed();
        printed.len() == self.printed.len()
            && printed
                .iter()
                .zip(self.printed.iter())
                .all(|(v, w)| v.same(w))
    }
}

// The program goes to its end in both machines, and what it tells is compared.
fn expect_walk<R: AllocGlobal + Abort>(rt: &R, text: &str, expected: &str) -> Result<(), Fail> {
    let mut walk = Walk::new(rt.alloc(), text)?;
    expect_run(rt, &mut walk, text, expected)
}

fn expect_run(rt: &impl Abort, walk: &mut Walk, text: &str, expected: &str) -> Result<(), Fail> {
    walk.run()?;
    assert!(rt; walk.has_same_output(), "{text}");
    let told = walk.told()?;
    is(rt, &(text, told.as_str().trim_end()), &(text, expected));
    Ok(())
}

fn expect_walks<R: AllocGlobal + Abort>(rt: &R, table: &str) -> Result<(), Fail> {
    for row in table.lines() {
        let (text, expected) = row.split_once(" -> ").ok_or("no arrow")?;
        expect_walk(rt, text, expected)?;
    }
    Ok(())
}

// Each row is a program, then ` -> ` and what it prints and how its threads end.
const PURE: &str = "\
fn main(): unit { print(1 + 2 * 3 - 4) } -> 3 done
fn main(): unit { let a = 1; let b = { let a = a + 1; a * 10 }; print(a + b) } -> 21 done
fn main(): unit { if 1 < 2 { print(5) } else { print(6) }; if false { print(7) } } -> 5 done
fn main(): unit { if (false && 1 / 0 == 0) || true && !false { print(1) } } -> 1 done
fn main(): unit { if true || 1 / 0 == 0 { print(1) }; if false || true { print(2) }; if true && false { print(3) } } -> 1 2 done
fn main(): unit { print(true && 5); print(false || 6) } -> 5 6 done
fn main(): unit { print(--5 / -2); print(-7 / 2); print(-7 % 2); print(7 % -2) } -> -2 -3 -1 1 done
fn main(): unit { let p = (1, (2, 3)); print(fst(p) + snd(snd(p))) } -> 4 done
fn f(a: int, b: int): int { a - b } fn main(): unit { print(f(f(9, 4), 1)) } -> 4 done
fn f(a: int): int { { let b = a; { let c = b + a; let d = c * c; d } } } fn main(): unit { { 1; 2 }; print(f(3)) } -> 36 done
fn b(x: bool): int { if x { 1 } else { 0 } } fn main(): unit { print(b(2 <= 2)); print(b(3 > 4)); print(b(3 >= 4)); print(b(() == ())); print(b(\"a\" != \"b\")); print(b(1 == true)); print(b(1 != true)); print(b(2 < 2)); print(b(4 > 3)) } -> 1 0 0 1 1 0 1 0 1 done
";

// Of several threads, references, sections and the other acts.
const ACTS: &str = "\
fn p(c: chan[int]): unit { send(c, 4) } fn main(): unit { let c = chan[int](); spawn p(c); print(recv(c) + 1) } -> 5 done done
fn p(c: chan[int]): unit { send(c, 4) } fn main(): unit { let a = chan[int](); let c = chan[int](); spawn p(c); let v = pick(a, c); print(fst(v)); print(snd(v)) } -> 1 4 done done
fn p(c: chan[int]): unit { send(c, 4) } fn main(): unit { let c = chan[int](); spawn p(c); print(fst(pick(c, c))) } -> 0 done done
fn main(): unit { let r = ref(5); set(r, get(r) + 1); print(get(r)) } -> 6 done
fn part(n: int): int { print(n); n + 1 } fn main(): unit { print(stable part(3)) } -> 3 4 done
fn inner(): int { 1 + probe() } fn outer(): int { let a = stable inner(); a + stable inner() } fn main(): unit { print(stable outer()) } -> -12 done
fn five(): int { 5 } fn same(n: int): int { n } fn main(): unit { print(stable five() + stable same(2)) } -> 7 done
fn part(): unit { stabilize() } fn main(): unit { print(1); stable part(); print(2) } -> 1 NoSection
fn main(): unit { cut(); pin(); print(attempt()) } -> 2 done
fn main(): unit { let c = chan[int](); print(3); recv(c) } -> 3 waits
";

// That fail.
const FAULTS: &str = "\
fn main(): unit { print(1 / 0) } -> ZeroDivisor
fn main(): unit { print(1 % 0) } -> ZeroDivisor
fn main(): unit { print(-9223372036854775808 / -1) } -> Overflow
fn main(): unit { print(-9223372036854775808 % -1) } -> Overflow
fn main(): unit { print(9223372036854775807 + 1) } -> Overflow
fn main(): unit { print(-9223372036854775808 - 1) } -> Overflow
fn main(): unit { print(9223372036854775807 * 2) } -> Overflow
fn main(): unit { print(-(-9223372036854775808)) } -> Overflow
fn main(): unit { print(true + 1) } -> WrongKind
fn main(): unit { print(() - 1) } -> WrongKind
fn main(): unit { print(2 * false) } -> WrongKind
fn main(): unit { print(1 / ()) } -> WrongKind
fn main(): unit { print(1 % \"a\") } -> WrongKind
fn main(): unit { if 1 < true { print(1) } } -> WrongKind
fn main(): unit { if \"a\" <= \"a\" { print(1) } } -> WrongKind
fn main(): unit { if () > () { print(1) } } -> WrongKind
fn main(): unit { if true >= 1 { print(1) } } -> WrongKind
fn main(): unit { if 1 && true { print(1) } } -> WrongKind
fn main(): unit { if () || true { print(1) } } -> WrongKind
fn main(): unit { if !1 { print(1) } } -> WrongKind
fn main(): unit { print(-true) } -> WrongKind
fn main(): unit { print(fst(1)) } -> WrongKind
fn main(): unit { print(snd(())) } -> WrongKind
fn deep(n: int, v: int): int { if n == 0 { v } else { deep(n - 1, (0, v)) } } fn main(): unit { deep(65, 0); print(1) } -> DeepValue
fn main(): unit { print(1); get(2) } -> 1 WrongKind
fn main(): unit { set(1, 2) } -> WrongKind
fn main(): unit { recv(1) } -> WrongKind
fn main(): unit { pick(chan[int](), 2) } -> WrongKind
fn main(): unit { pick(2, chan[int]()) } -> WrongKind
fn part(): int { 1 / 0 } fn main(): unit { print(stable part()) } -> ZeroDivisor
fn main(): unit { let c = chan[int](); send(1, c) } -> WrongKind
fn main(): unit { if 1 { print(1) } } -> WrongKind
fn deep(n: int, v: int): int { if n == 0 { v } else { deep(n - 1, (0, v)) } } fn p(c: chan[int]): unit { send(c, deep(64, 0)) } fn main(): unit { let c = chan[int](); spawn p(c); pick(c, c); print(1) } -> DeepValue done
";

#[test]
fn pure_steps_of_both(rt: HostRuntime) -> Result<(), Fail> {
    expect_walks(&rt, PURE)
}

#[test]
fn acts_of_both(rt: HostRuntime) -> Result<(), Fail> {
    expect_walks(&rt, ACTS)
}

#[test]
fn faults_of_both(rt: HostRuntime) -> Result<(), Fail> {
    expect_walks(&rt, FAULTS)
}
