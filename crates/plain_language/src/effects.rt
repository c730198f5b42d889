//! What steps make that change more than one thread's expression.
ghost use Rattle.std.specs.Prelude.{◌≡◌, ℕ, IfOk, IsSome, option_map};
ghost use Rattle.std.specs.Option.{option_copied};
ghost use Rattle.language.specs.Effects.{picked_at, picked_by, printed_of, spawned_of, written_of};
ghost use Rattle.language.specs.Expression.{Expr as Expression};
ghost use Rattle.language.specs.Look.{language, look};
ghost use Rattle.language.specs.Program.{body};
ghost use Rattle.language.specs.Redex.{redex};
ghost use Rattle.language.specs.Table.{chan_by, print_by, received_by, ref_by, sent_by, set_by, spawn_by, to};

use crate::act::Act;
use crate::body::called;
use crate::expr::Expr;
use stab_base::{ChanId, Fault, NoMemory, PairFault, RefId, Value};
use stab_code::Program;
use std::alloc::Global;

impl Expr {
    /// The expression after a spawn, and the body that is spawned.
    pub(crate) fn after_spawn(
        &self,
        alloc: Global,
        program: &Program,
    ) -> Result<Option<(Expr, Expr)>, NoMemory>
        ensures { let g = language (body program.now) in IfOk result (λ o. option_map (spawned_of g) o ≡ spawn_by g self.now (look (body program.now) self.now)) }
    {
        let Some(act) = self.act() else {
            return Ok(None);
        };
        let Act::Spawn(f, parts) = act else {
            return Ok(None);
        };
        let inner = called(alloc, program, f, parts)?;
        Ok(Some((self.answered(alloc, Value::unit())?, inner)))
    }

    /// The expression after a channel was made.
    pub(crate) fn after_new_chan(&self, alloc: Global, c: ChanId) -> Result<Option<Expr>, NoMemory>
        ensures { (fs : ℕ → Expression) → let g = language fs in IfOk result (λ o. option_map (to g) o ≡ chan_by g c.0 self.now (look fs self.now)) }
    {
        let Some(act) = self.act() else {
            return Ok(None);
        };
        let Act::NewChan = act else {
            return Ok(None);
        };
        Ok(Some(self.answered(alloc, Value::chan(c))?))
    }

    /// The expression after a reference was made, and what the reference holds.
    pub(crate) fn after_new_ref(
        &self,
        alloc: Global,
        r: RefId,
    ) -> Result<Option<(Expr, Value)>, NoMemory>
        ensures { (fs : ℕ → Expression) → let g = language fs in IfOk result (λ o. option_map (written_of g self.now) o ≡ ref_by g r.0 self.now (look fs self.now)) }
    {
        let Some(act) = self.act() else {
            return Ok(None);
        };
        let Act::NewRef(v) = act else {
            return Ok(None);
        };
        let copy = v.copy()?;
        Ok(Some((self.answered(alloc, Value::reference(r))?, copy)))
    }

    /// The expression after the reference was set, and what it is set to.
    pub(crate) fn after_set(
        &self,
        alloc: Global,
        r: RefId,
    ) -> Result<Option<(Expr, Value)>, NoMemory>
        ensures { (fs : ℕ → Expression) → let g = language fs in IfOk result (λ o. option_map (written_of g self.now) o ≡ set_by g r.0 self.now (look fs self.now)) }
    {
        let Some(act) = self.act() else {
            return Ok(None);
        };
        let Act::Set(at, v) = act else {
            return Ok(None);
        };
        if at.0 != r.0 {
            return Ok(None);
        }
        let copy = v.copy()?;
        Ok(Some((self.answered(alloc, Value::unit())?, copy)))
    }

    /// What is printed, where a print is next.
    pub(crate) fn printed(&self) -> Result<Option<Value>, NoMemory>
        ensures prints { (fs : ℕ → Expression) → let g = language fs in IfOk result (λ o. option_map (printed_of g self.now) o ≡ print_by g self.now (look fs self.now)) }
        ensures redex { IfOk result (λ o. IsSome o → IsSome (redex self.now)) }
    {
        let Some(act) = self.act() else {
            return Ok(None);
        };
        let Act::Print(v) = act else {
            return Ok(None);
        };
        Ok(Some(v.copy()?))
    }

    /// What is sent on the channel.
    pub(crate) fn sent(&self, c: ChanId) -> Option<&Value>
        ensures sent { (fs : ℕ → Expression) → option_copied result ≡ sent_by (language fs) c.0 (look fs self.now) }
        ensures redex { IsSome result → IsSome (redex self.now) }
    {
        let Some(act) = self.act() else {
            return None;
        };
        let Act::Send(at, v) = act else {
            return None;
        };
        if at.0 == c.0 { Some(v) } else { None }
    }

    /// The expression with the pair of an index and a value, or a fault where that is too large.
    fn picked(&self, alloc: Global, i: i64, v: &Value) -> Result<Expr, NoMemory>
        requires { IsSome (redex self.now) }
        ensures { IfOk result (λ e. e ≡ picked_at self.now i v.now) }
    {
        match Value::pair(alloc, Value::int(i), v.copy()?) {
            Ok(pair) => self.answered(alloc, pair),
            Err(PairFault::Deep(_, _)) => Ok(Expr::fault(Fault::DeepValue)),
            Err(PairFault::NoMemory(_, _)) => Err(NoMemory),
        }
    }

    /// The expression after a pick of these two channels, where a value came on the channel c.
    fn after_pick(
        &self,
        alloc: Global,
        first: ChanId,
        second: ChanId,
        c: ChanId,
        v: &Value,
    ) -> Result<Option<Expr>, NoMemory>
        requires { IsSome (redex self.now) }
        ensures { IfOk result (λ o. o ≡ picked_by first.0 second.0 c.0 self.now v.now) }
    {
        if first.0 == c.0 {
            Ok(Some(self.picked(alloc, 0, v)?))
        } else if second.0 == c.0 {
            Ok(Some(self.picked(alloc, 1, v)?))
        } else {
            Ok(None)
        }
    }

    /// The expression after a value was received on the channel c.
    pub(crate) fn after_receive(
        &self,
        alloc: Global,
        c: ChanId,
        v: &Value,
    ) -> Result<Option<Expr>, NoMemory>
        ensures { (fs : ℕ → Expression) → IfOk result (λ o. o ≡ received_by (language fs) c.0 self.now v.now (look fs self.now)) }
    {
        let Some(act) = self.act() else {
            return Ok(None);
        };
        match act {
            Act::Recv(at) => {
                if at.0 != c.0 {
                    return Ok(None);
                }
                let copy = v.copy()?;
                Ok(Some(self.answered(alloc, copy)?))
            }
            Act::Pick(first, second) => self.after_pick(alloc, first, second, c, v),
            _ => Ok(None),
        }
    }
}
