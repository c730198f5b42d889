//! The machine: a labelled step of a state.
ghost use Rattle.std.specs.Prelude.{◌≡◌, ℕ};
ghost use Rattle.stab_journal.specs.declared.event.Label.TheVariants as Label;
ghost use Rattle.plain_language.specs.declared.play.PlayFault.TheVariants as PlayFault;
ghost use Rattle.plain_language.specs.Plays.{Plays};

use crate::state::PlainState;
use stab_base::{ChanId, NoMemory, RefId, Seq, ThreadId, Value};
use stab_journal::Label;
use std::alloc::Global;

/// Why a step wasn't played.
#[derive(Clone, Copy, PartialEq, Eq, Debug)]
pub enum PlayFault {
    /// The language has no such step from the state.
    NoStep,
    NoMemory,
}

impl From<NoMemory> for PlayFault {
    ghost from_gives = { λ _ fault. fault ≡ PlayFault.NoMemory };

    fn from(_: NoMemory) -> PlayFault {
        PlayFault::NoMemory
    }
}

impl PlainState {
    /// Makes the step with this number and label. A fault leaves the state as it was.
    pub fn play(&mut self, alloc: Global, q: Seq, label: &Label) -> Result<(), PlayFault>
        ensures { Plays self.old self.new q.0 label.now result }
    {
        match *label {
            Label::Local(t, 1) => self.local_once(alloc, t),
            Label::Local(t, n) => self.local(alloc, t, n),
            Label::Spawn(t, u) => self.spawn(alloc, t, u),
            Label::NewChan(t, c) => self.new_chan(alloc, t, c),
            Label::Comm(s, r, c) => self.meet(alloc, s, r, c),
            Label::NewRef(t, r) => self.new_ref(alloc, t, r),
            Label::Get(t, r) => self.get(alloc, t, r),
            Label::Set(t, r) => self.set(alloc, t, r),
            Label::Enter(t) => self.enter(alloc, q, t),
            Label::Cut(t) => self.cut(alloc, t),
            Label::Print(t) => self.print(alloc, t),
            Label::Probe(t, i) => self.probe(alloc, t, i),
            Label::Refuse(t) => self.refuse(t),
            Label::Pin(t) => self.pin(alloc, t),
            Label::Attempt(t, n) => self.attempt(alloc, t, n),
        }
    }

    /// Makes one pure step, in place.
    fn local_once(&mut self, alloc: Global, t: ThreadId) -> Result<(), PlayFault>
        ensures { (q : ℕ) → Plays self.old self.new q (Label.Local t 1) result }
    {
        let state = &*self;
        let e = state.expr(t).ok_or(PlayFault::NoStep)?;
        let next = e
            .next_pure(alloc, &state.program)?
            .ok_or(PlayFault::NoStep)?;
        self.make(t.0, next);
        Ok(())
    }

    /// Makes pure steps: where one of several can't be made, none is, so these are made on a copy.
    fn local(&mut self, alloc: Global, t: ThreadId, n: u32) -> Result<(), PlayFault>
        ensures { (q : ℕ) → Plays self.old self.new q (Label.Local t n) result }
    {
        let state = &*self;
        let e = state.expr(t).ok_or(PlayFault::NoStep)?;
        let next = e
            .after_local(alloc, &state.program, n)?
            .ok_or(PlayFault::NoStep)?;
        self.stand(t.0, next);
        Ok(())
    }

    /// Reads the reference r.
    fn get(&mut self, alloc: Global, t: ThreadId, r: RefId) -> Result<(), PlayFault>
        ensures { (q : ℕ) → Plays self.old self.new q (Label.Get t r) result }
    {
        let e = self.expr(t).ok_or(PlayFault::NoStep)?;
        let next = e
            .after_get(alloc, r, self.reference(r))?
            .ok_or(PlayFault::NoStep)?;
        self.stand(t.0, next);
        Ok(())
    }

    /// Enters a section, whose number is the step's.
    fn enter(&mut self, alloc: Global, q: Seq, t: ThreadId) -> Result<(), PlayFault>
        ensures { Plays self.old self.new q.0 (Label.Enter t) result }
    {
        let state = &*self;
        let e = state.expr(t).ok_or(PlayFault::NoStep)?;
        let next = e
            .after_enter(alloc, &state.program, q)?
            .ok_or(PlayFault::NoStep)?;
        self.stand(t.0, next);
        Ok(())
    }

    /// Makes a cut.
    fn cut(&mut self, alloc: Global, t: ThreadId) -> Result<(), PlayFault>
        ensures { (q : ℕ) → Plays self.old self.new q (Label.Cut t) result }
    {
        let e = self.expr(t).ok_or(PlayFault::NoStep)?;
        let next = e.after_cut(alloc)?.ok_or(PlayFault::NoStep)?;
        self.stand(t.0, next);
        Ok(())
    }

    /// Gives a probe its number.
    fn probe(&mut self, alloc: Global, t: ThreadId, i: i64) -> Result<(), PlayFault>
        ensures { (q : ℕ) → Plays self.old self.new q (Label.Probe t i) result }
    {
        let e = self.expr(t).ok_or(PlayFault::NoStep)?;
        let next = e.after_probe(alloc, i)?.ok_or(PlayFault::NoStep)?;
        self.stand(t.0, next);
        Ok(())
    }

    /// Refuses a `stabilize`.
    fn refuse(&mut self, t: ThreadId) -> Result<(), PlayFault>
        ensures { (q : ℕ) → Plays self.old self.new q (Label.Refuse t) result }
    {
        let e = self.expr(t).ok_or(PlayFault::NoStep)?;
        let next = e.after_refuse().ok_or(PlayFault::NoStep)?;
        self.stand(t.0, next);
        Ok(())
    }

    /// Makes a pin.
    fn pin(&mut self, alloc: Global, t: ThreadId) -> Result<(), PlayFault>
        ensures { (q : ℕ) → Plays self.old self.new q (Label.Pin t) result }
    {
        let e = self.expr(t).ok_or(PlayFault::NoStep)?;
        let next = e.after_pin(alloc)?.ok_or(PlayFault::NoStep)?;
        self.stand(t.0, next);
        Ok(())
    }

    /// Gives an attempt its number.
    fn attempt(&mut self, alloc: Global, t: ThreadId, n: u64) -> Result<(), PlayFault>
        ensures { (q : ℕ) → Plays self.old self.new q (Label.Attempt t n) result }
    {
        let e = self.expr(t).ok_or(PlayFault::NoStep)?;
        let next = e.after_attempt(alloc, n)?.ok_or(PlayFault::NoStep)?;
        self.stand(t.0, next);
        Ok(())
    }

    /// Starts the thread u.
    fn spawn(&mut self, alloc: Global, t: ThreadId, u: ThreadId) -> Result<(), PlayFault>
        ensures { (q : ℕ) → Plays self.old self.new q (Label.Spawn t u) result }
    {
        let state = &*self;
        if state.expr(u).is_some() {
            return Err(PlayFault::NoStep);
        }
        let e = state.expr(t).ok_or(PlayFault::NoStep)?;
        let (next, inner) = e
            .after_spawn(alloc, &state.program)?
            .ok_or(PlayFault::NoStep)?;
        self.put_thread(u.0, inner)?;
        self.stand(t.0, next);
        Ok(())
    }

    /// Makes the channel c.
    fn new_chan(&mut self, alloc: Global, t: ThreadId, c: ChanId) -> Result<(), PlayFault>
        ensures { (q : ℕ) → Plays self.old self.new q (Label.NewChan t c) result }
    {
        if self.has_channel(c) {
            return Err(PlayFault::NoStep);
        }
        let e = self.expr(t).ok_or(PlayFault::NoStep)?;
        let next = e.after_new_chan(alloc, c)?.ok_or(PlayFault::NoStep)?;
        self.put_channel(c.0)?;
        self.stand(t.0, next);
        Ok(())
    }

    /// Hands a value from the thread s to the thread r.
    fn meet(&mut self, alloc: Global, s: ThreadId, r: ThreadId, c: ChanId) -> Result<(), PlayFault>
        ensures { (q : ℕ) → Plays self.old self.new q (Label.Comm s r c) result }
    {
        let a = self.expr(s).ok_or(PlayFault::NoStep)?;
        let b = self.expr(r).ok_or(PlayFault::NoStep)?;
        let v = a.sent(c).ok_or(PlayFault::NoStep)?;
        let other = b.after_receive(alloc, c, v)?.ok_or(PlayFault::NoStep)?;
        let next = a.answered(alloc, Value::unit())?;
        self.stand(r.0, other);
        self.stand(s.0, next);
        Ok(())
    }

    /// Makes the reference r.
    fn new_ref(&mut self, alloc: Global, t: ThreadId, r: RefId) -> Result<(), PlayFault>
        ensures { (q : ℕ) → Plays self.old self.new q (Label.NewRef t r) result }
    {
        if self.reference(r).is_some() {
            return Err(PlayFault::NoStep);
        }
        let e = self.expr(t).ok_or(PlayFault::NoStep)?;
        let (next, v) = e.after_new_ref(alloc, r)?.ok_or(PlayFault::NoStep)?;
        self.put_reference(r.0, v)?;
        self.stand(t.0, next);
        Ok(())
    }

    /// Sets the reference r.
    fn set(&mut self, alloc: Global, t: ThreadId, r: RefId) -> Result<(), PlayFault>
        ensures { (q : ℕ) → Plays self.old self.new q (Label.Set t r) result }
    {
        if self.reference(r).is_none() {
            return Err(PlayFault::NoStep);
        }
        let e = self.expr(t).ok_or(PlayFault::NoStep)?;
        let (next, v) = e.after_set(alloc, r)?.ok_or(PlayFault::NoStep)?;
        self.hold(r.0, v);
        self.stand(t.0, next);
        Ok(())
    }

    /// Prints a value.
    fn print(&mut self, alloc: Global, t: ThreadId) -> Result<(), PlayFault>
        ensures { (q : ℕ) → Plays self.old self.new q (Label.Print t) result }
    {
        let e = self.expr(t).ok_or(PlayFault::NoStep)?;
        let v = e.printed()?.ok_or(PlayFault::NoStep)?;
        self.put_printed(v)?;
        self.answer(t.0, Value::unit());
        Ok(())
    }
}
