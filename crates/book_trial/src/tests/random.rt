//! Traces of random schedules, which are made on the plain language's machine by rules that stand here once more.

use super::judged::{is_verdict, verdict_on};
use plain_language::{ActKind, Look, PlainState};
use stab_base::{ChanId, RefId, Seq, ThreadId};
use stab_code::Program;
use stab_journal::{Label, Numbered};
use stab_text::read_program;
use std::alloc::Global;
use std::process::Abort;
use std::sync::Arc;
use std::test::Fail;

// Workers that share a channel and a reference, take sections back, cut, pin, and stop after three tries.
const SHARED: &str = "
fn source(c: chan[int], n: int): unit { if n == 0 { () } else { send(c, n); source(c, n - 1) } }
fn part(c: chan[int], d: chan[int], r: ref[int]): unit {
    if attempt() < 3 { set(r, get(r) + snd(pick(c, d))); if probe() < 0 { stabilize() } else { print(get(r)) } } else { pin(); stabilize() }
}
fn worker(c: chan[int], d: chan[int], r: ref[int], n: int): unit {
    if n == 0 { () } else { stable part(c, d, r); if get(r) % 3 == 0 { cut() } else { () }; worker(c, d, r, n - 1) }
}
fn main(): unit {
    let c = chan[int](); let d = chan[int](); let r = ref(0);
    spawn source(c, 9); spawn source(d, 9); spawn worker(c, d, r, 3); spawn worker(d, c, r, 3); spawn worker(c, d, r, 3);
    stabilize()
}
";

const SCRIPT: [i64; 12] = [-1, 0, -1, -1, 0, 0, -1, 0, -1, -1, 0, -1];

// Threads, channels and references are numbered up to this.
const MOST: u32 = 6;

// The events so far, as their words, and what they lead to.
#[derive(Drop)]
struct Schedule {
    program: Arc<Program>,
    state: PlainState,
    run: Vec<Numbered>,
    // Each event's sign and words; a step's sign is that of a step that stays.
    events: Vec<(char, String)>,
    struck: Vec<u64>,
    // How often each thread was put back.
    times: Vec<u64>,
    probes: usize,
    released: u64,
    seed: u64,
}

impl Schedule {
    fn new(alloc: Global, text: &str, seed: u64) -> Result<Schedule, Fail> {
        let text = text.as_bytes();
        if text.len() > 1_048_576 {
            return Err(Fail::from("a short text"));
        }
        let Ok(program) = read_program(alloc, text) else {
            return Err(Fail::from("the text of a program"));
        };
        let times = vec![in alloc; 0; 8]?;
        let program = Arc::new(alloc, program)?;
        let state = start_of(alloc, &program)?;
        Ok(Schedule {
            program,
            state,
            run: Vec::new(alloc),
            events: Vec::new(alloc),
            struck: Vec::new(alloc),
            times,
            probes: 0,
            released: 0,
            seed,
        })
    }

    // A number below 1,000.
    fn any(&mut self) -> u64 {
        self.seed = self
            .seed
            .wrapping_mul(6_364_136_223_846_793_005)
            .wrapping_add(1_442_695_040_888_963_407);
        (self.seed >> 33) % 1_000
    }

    fn number(&self) -> Seq {
        Seq((self.events.len() as u64).saturating_add(1))
    }

    // Makes the step, where the language has it.
    fn step(&mut self, alloc: Global, label: Label) -> Result<bool, Fail> {
        let seq = self.number();
        if self.state.play(alloc, seq, &label).is_err() {
            return Ok(false);
        }
        self.run.push(Numbered { seq, label })?;
        let words = words_of(alloc, label)?;
        self.events.push(('+', words))?;
        Ok(true)
    }

    // The next event of a thread, if it has one alone or with another.
    fn go(&mut self, alloc: Global, t: u32) -> Result<bool, Fail> {
        let thread = ThreadId(t);
        match self.state.look(thread) {
            None | Some(Look::Done | Look::Failed(_)) => Ok(false),
            Some(Look::Pure) => self.pure(alloc, thread),
            Some(Look::Act(ActKind::Stabilize)) => self.stabilize(alloc, t),
            Some(Look::Act(ActKind::Probe)) => {
                let i = self.probe();
                self.step(alloc, Label::Probe(thread, i))
            }
            Some(Look::Act(ActKind::Attempt)) => {
                let g = self.times_of(t);
                self.step(alloc, Label::Attempt(thread, g))
            }
            Some(Look::Act(kind)) => self.act(alloc, t, kind),
        }
    }

    // Up to four pure steps.
    fn pure(&mut self, alloc: Global, thread: ThreadId) -> Result<bool, Fail> {
        let n = (self.any() % 4) as u32 + 1;
        if self.step(alloc, Label::Local(thread, n))? {
            return Ok(true);
        }
        self.step(alloc, Label::Local(thread, 1))
    }

    // What the next probe gets.
    fn probe(&mut self) -> i64 {
        let i = match SCRIPT.get(self.probes) {
            Some(number) => *number,
            None => 0,
        };
        self.probes = self.probes.saturating_add(1);
        i
    }

    fn times_of(&self, t: u32) -> u64 {
        match self.times.get(t as usize) {
            Some(times) => *times,
            None => 0,
        }
    }

    // An act of the thread, with the number that the language has for it or with the thread that it can meet.
    fn act(&mut self, alloc: Global, t: u32, kind: ActKind) -> Result<bool, Fail> {
        for n in 1..=MOST {
            if self.act_with(alloc, t, kind, n)? {
                return Ok(true);
            }
        }
        Ok(false)
    }

    fn act_with(&mut self, alloc: Global, t: u32, kind: ActKind, n: u32) -> Result<bool, Fail> {
        match kind {
            ActKind::Send(_) => self.meet(alloc, t, n),
            ActKind::Recv(_) | ActKind::Pick(..) => self.meet(alloc, n, t),
            _ => self.step(alloc, label_of(kind, t, n)),
        }
    }

    // A communication of the two threads.
    fn meet(&mut self, alloc: Global, s: u32, r: u32) -> Result<bool, Fail> {
        for c in 1..=2 {
            let label = Label::Comm(ThreadId(s), ThreadId(r), ChanId(c));
            if self.step(alloc, label)? {
                return Ok(true);
            }
        }
        Ok(false)
    }

    // The numbers of the steps to which a chain of dependences leads from the step numbered m.
    fn reached(&self, alloc: Global, m: Seq) -> Result<Vec<u64>, Fail> {
        let mut reached = Vec::new(alloc);
        for (i, step) in self.run.iter().enumerate() {
            if step.seq.0 == m.0 || self.depends(i, &reached) {
                reached.push(step.seq.0)?;
            }
        }
        Ok(reached)
    }

    // Whether the i-th step of the run depends directly on one of those.
    fn depends(&self, i: usize, reached: &[u64]) -> bool {
        let Some(step) = self.run.get(i) else {
            return false;
        };
        let mut last_write = None;
        let mut met = false;
        for before in self.run.iter().take(i) {
            let is_reached = reached.contains(&before.seq.0);
            if is_reached && touches_actor(before.label, step.label) {
                met = true;
            }
            if let (Some(r), Label::Get(_, read)) = (written(before.label), step.label) {
                if r == read {
                    last_write = Some(is_reached);
                }
            }
        }
        met || last_write == Some(true)
    }

    fn has_pin(&self, numbers: &[u64]) -> bool {
        self.run.iter().any(|step| matches!(step.label, Label::Pin(_))
            && numbers.contains(&step.seq.0))
    }

    fn last_cut(&self) -> u64 {
        let mut cut = 0;
        for step in &self.run {
            if matches!(step.label, Label::Cut(_)) {
                cut = step.seq.0;
            }
        }
        cut
    }

    fn stabilize(&mut self, alloc: Global, t: u32) -> Result<bool, Fail> {
        if let Some(m) = self.state.mark(ThreadId(t)) {
            if m.0 > self.last_cut() && self.undo(alloc, t, m)? {
                return Ok(true);
            }
        }
        self.step(alloc, Label::Refuse(ThreadId(t)))
    }

    // Takes the section entered at m back, if nothing that goes with it is pinned.
    fn undo(&mut self, alloc: Global, t: u32, m: Seq) -> Result<bool, Fail> {
        let reached = self.reached(alloc, m)?;
        if self.has_pin(&reached) {
            return Ok(false);
        }
        self.take_back(alloc, t, m, &reached)?;
        Ok(true)
    }

    // The rest is played again from the start.
    fn take_back(&mut self, alloc: Global, t: u32, m: Seq, reached: &[u64]) -> Result<(), Fail> {
        let number = m.0;
        let words = format!(in alloc; "undo {t} {number}")?;
        self.events.push(('!', words))?;
        self.count_lost(reached);
        self.strike(reached)?;
        self.play_rest(alloc)
    }

    // The threads of which a step is lost are put back once more.
    fn count_lost(&mut self, reached: &[u64]) {
        for t in 1..=MOST {
            let lost = self.run.iter().any(|step| reached.contains(&step.seq.0)
                && acts(step.label, t));
            if let (true, Some(times)) = (lost, self.times.get_mut(t as usize)) {
                *times = times.saturating_add(1);
            }
        }
    }

    fn strike(&mut self, reached: &[u64]) -> Result<(), Fail> {
        for q in reached {
            self.struck.push(*q)?;
        }
        self.run.retain(|step| !reached.contains(&step.seq.0));
        Ok(())
    }

    fn play_rest(&mut self, alloc: Global) -> Result<(), Fail> {
        self.state = start_of(alloc, &self.program)?;
        for step in &self.run {
            if self.state.play(alloc, step.seq, &step.label).is_err() {
                return Err(Fail::from("the rest is a run"));
            }
        }
        Ok(())
    }

    // How many prints are before the last cut.
    fn final_prints(&self) -> u64 {
        let cut = self.last_cut();
        let mut prints: u64 = 0;
        for step in &self.run {
            if step.seq.0 < cut && matches!(step.label, Label::Print(_)) {
                prints = prints.saturating_add(1);
            }
        }
        prints
    }

    // Releases what is final, if something is that wasn't released.
    fn release(&mut self, alloc: Global) -> Result<(), Fail> {
        let prints = self.final_prints();
        if prints > self.released {
            self.released = prints;
            let words = format!(in alloc; "release {prints}")?;
            self.events.push(('=', words))?;
        }
        Ok(())
    }

    fn turn(&mut self, alloc: Global) -> Result<(), Fail> {
        let t = (self.any() % 6) as u32 + 1;
        let _made = self.go(alloc, t)?;
        if self.any() < 100 {
            self.release(alloc)?;
        }
        Ok(())
    }

    fn undos(&self) -> usize {
        let mut undos = 0usize;
        for (sign, _words) in &self.events {
            if *sign == '!' {
                undos = undos.saturating_add(1);
            }
        }
        undos
    }

    // The sign of an event, turned where it is the one with this number.
    fn sign(&self, number: usize, sign: char, turned: usize) -> char {
        let struck = self.struck.contains(&(number as u64));
        match (sign, struck != (number == turned)) {
            ('+', true) => '-',
            (sign, _) => sign,
        }
    }

    fn put_events(&self, alloc: Global, turned: usize, text: &mut String) -> Result<(), Fail> {
        for (i, (sign, words)) in self.events.iter().enumerate() {
            let sign = self.sign(i.saturating_add(1), *sign, turned);
            let comma = if i == 0 { "" } else { "," };
            text.push_str(format!(in alloc; "{comma}{sign}{words}")?.as_str())?;
        }
        Ok(())
    }

    // The events, with the sign of the one that has this number turned.
    fn text(&self, alloc: Global, turned: usize) -> Result<String, Fail> {
        let mut text = String::new(alloc);
        self.put_events(alloc, turned, &mut text)?;
        Ok(text)
    }

    // The judge says this of the events with one sign turned.
    fn is_judged(&self, alloc: Global, turned: usize, expected: &str) -> Result<(), Fail> {
        let events = self.text(alloc, turned)?;
        let verdict = verdict_on(alloc, SHARED, &SCRIPT, events.as_str())?;
        is_verdict(alloc, events.as_str(), verdict.as_str(), expected)
    }

    // Of a step whose sign is turned, that is told.
    fn is_told_of_a_sign(&mut self, alloc: Global) -> Result<(), Fail> {
        let place = (self.any() as usize) % 100;
        if let Some(('+', _)) = self.events.get(place) {
            let turned = place.saturating_add(1);
            let expected = format!(in alloc; "no {turned} WrongSign")?;
            self.is_judged(alloc, turned, expected.as_str())?;
        }
        Ok(())
    }
}

fn start_of(alloc: Global, program: &Arc<Program>) -> Result<PlainState, Fail> {
    PlainState::start(alloc, program).map_err(|_| Fail::from("no memory"))
}

// The label of an act of the thread with a number.
fn label_of(kind: ActKind, t: u32, n: u32) -> Label {
    let t = ThreadId(t);
    match kind {
        ActKind::Spawn => Label::Spawn(t, ThreadId(n)),
        ActKind::NewChan => Label::NewChan(t, ChanId(n)),
        ActKind::NewRef => Label::NewRef(t, RefId(n)),
        ActKind::Get(_) => Label::Get(t, RefId(n)),
        ActKind::Set(_) => Label::Set(t, RefId(n)),
        ActKind::Enter => Label::Enter(t),
        ActKind::Cut => Label::Cut(t),
        ActKind::Pin => Label::Pin(t),
        _ => Label::Print(t),
    }
}

// The word of a step, its thread, and up to two numbers more.
type Words = (&'static str, ThreadId, Option<i64>, Option<i64>);

fn parts_of(label: Label) -> Words {
    match label {
        Label::Local(t, n) => ("local", t, Some(i64::from(n)), None),
        Label::Spawn(t, u) => ("spawn", t, Some(i64::from(u.0)), None),
        Label::NewChan(t, c) => ("newchan", t, Some(i64::from(c.0)), None),
        Label::Comm(s, r, c) => ("comm", s, Some(i64::from(r.0)), Some(i64::from(c.0))),
        Label::NewRef(t, r) => ("newref", t, Some(i64::from(r.0)), None),
        Label::Get(t, r) => ("get", t, Some(i64::from(r.0)), None),
        Label::Set(t, r) => ("set", t, Some(i64::from(r.0)), None),
        Label::Enter(t) => ("enter", t, None, None),
        Label::Cut(t) => ("cut", t, None, None),
        Label::Print(t) => ("print", t, None, None),
        Label::Probe(t, i) => ("probe", t, Some(i), None),
        Label::Refuse(t) => ("refuse", t, None, None),
        Label::Pin(t) => ("pin", t, None, None),
        Label::Attempt(t, g) => ("attempt", t, Some(i64::try_from(g).unwrap_or(-1)), None),
    }
}

fn words_of(alloc: Global, label: Label) -> Result<String, Fail> {
    let (word, t, first, second) = parts_of(label);
    let t = t.0;
    let words = match (first, second) {
        (Some(n), Some(m)) => format!(in alloc; "{word} {t} {n} {m}"),
        (Some(n), None) => format!(in alloc; "{word} {t} {n}"),
        (None, _) => format!(in alloc; "{word} {t}"),
    };
    Ok(words?)
}

fn acts(label: Label, t: u32) -> bool {
    match label {
        Label::Comm(s, r, _) => s.0 == t || r.0 == t,
        Label::Local(u, _)
        | Label::Spawn(u, _)
        | Label::NewChan(u, _)
        | Label::NewRef(u, _)
        | Label::Get(u, _)
        | Label::Set(u, _)
        | Label::Enter(u)
        | Label::Cut(u)
        | Label::Print(u)
        | Label::Probe(u, _)
        | Label::Refuse(u)
        | Label::Pin(u)
        | Label::Attempt(u, _) => u.0 == t,
    }
}

// Whether a thread that the first step touches acts in the second.
fn touches_actor(first: Label, second: Label) -> bool {
    let mut met = false;
    for t in 1..=MOST {
        let touched = acts(first, t) || matches!(first, Label::Spawn(_, u) if u.0 == t);
        met = met || touched && acts(second, t);
    }
    met
}

fn written(label: Label) -> Option<RefId> {
    match label {
        Label::NewRef(_, r) | Label::Set(_, r) => Some(r),
        _ => None,
    }
}

fn play(alloc: Global, schedule: &mut Schedule) -> Result<(), Fail> {
    for _ in 0..400 {
        schedule.turn(alloc)?;
    }
    Ok(())
}

// How many undos there are in a schedule that is judged, also with signs turned.
fn undos_of(alloc: Global, seed: u64) -> Result<usize, Fail> {
    let mut schedule = Schedule::new(alloc, SHARED, seed)?;
    play_and_judge(alloc, &mut schedule)?;
    Ok(schedule.undos())
}

fn play_and_judge(alloc: Global, schedule: &mut Schedule) -> Result<(), Fail> {
    play(alloc, schedule)?;
    schedule.is_judged(alloc, 0, "yes")?;
    for _ in 0..3 {
        schedule.is_told_of_a_sign(alloc)?;
    }
    Ok(())
}

#[test]
fn random_schedules(rt: HostRuntime) -> Result<(), Fail> {
    let mut undos = 0usize;
    for seed in 0..5 {
        undos = undos.saturating_add(undos_of(rt.alloc(), seed)?);
    }
    // Sections were taken back in them.
    assert!(rt; undos > 5);
    Ok(())
}
