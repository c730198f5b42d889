//! Where a thread goes by a step that changes nothing else.
ghost use Rattle.std.specs.Prelude.{◌≡◌, ℕ, IfOk, IsSome, option_map};
ghost use Rattle.std.specs.Option.{option_copied};
ghost use Rattle.language.specs.Expression.{Expr as Expression};
ghost use Rattle.language.specs.Look.{answered, language, look};
ghost use Rattle.language.specs.Program.{body};
ghost use Rattle.language.specs.Redex.{redex};
ghost use Rattle.language.specs.Table.{attempt_by, cut_by, enter_by, get_by, local_by, pin_by, probe_by, refuse_by, to};

use crate::act::Act;
use crate::body::called;
use crate::expr::Expr;
use stab_base::{Fault, NoMemory, RefId, Seq, Value};
use stab_code::Program;
use std::alloc::Global;

impl Expr {
    /// After this many pure steps, one at least.
    pub(crate) fn after_local(
        &self,
        alloc: Global,
        program: &Program,
        n: u32,
    ) -> Result<Option<Expr>, NoMemory>
        ensures { let g = language (body program.now) in IfOk result (λ o. option_map (to g) o ≡ local_by g n self.now) }
    {
        if n == 0 {
            return Ok(None);
        }
        self.copy(alloc)?.stepped_times(alloc, program, n)
    }

    /// After a `get` of the reference, which holds the value.
    pub(crate) fn after_get(
        &self,
        alloc: Global,
        r: RefId,
        held: Option<&Value>,
    ) -> Result<Option<Expr>, NoMemory>
        ensures { (fs : ℕ → Expression) → let g = language fs in IfOk result (λ o. option_map (to g) o ≡ get_by g r.0 self.now (option_copied held.entry) (look fs self.now)) }
    {
        let Some(act) = self.act() else {
            return Ok(None);
        };
        let Act::Get(at) = act else {
            return Ok(None);
        };
        if at.0 != r.0 {
            return Ok(None);
        }
        self.with_held(alloc, held)
    }

    /// With the value in place of the redex, if there is a value.
    fn with_held(&self, alloc: Global, held: Option<&Value>) -> Result<Option<Expr>, NoMemory>
        requires { IsSome (redex self.now) }
        ensures { (fs : ℕ → Expression) → let g = language fs in IfOk result (λ o. option_map (to g) o ≡ option_map (λ v. to g (answered self.now v)) (option_copied held.entry)) }
    {
        match held {
            Some(v) => {
                let copy = v.copy()?;
                Ok(Some(self.answered(alloc, copy)?))
            }
            None => Ok(None),
        }
    }

    /// In the section that is entered at the number.
    pub(crate) fn after_enter(
        &self,
        alloc: Global,
        program: &Program,
        q: Seq,
    ) -> Result<Option<Expr>, NoMemory>
        ensures { let g = language (body program.now) in IfOk result (λ o. option_map (to g) o ≡ enter_by g q.0 self.now (look (body program.now) self.now)) }
    {
        let Some(act) = self.act() else {
            return Ok(None);
        };
        let Act::Enter(f, parts) = act else {
            return Ok(None);
        };
        let inner = called(alloc, program, f, parts)?;
        Ok(Some(self.entered(alloc, q, inner)?))
    }

    pub(crate) fn after_cut(&self, alloc: Global) -> Result<Option<Expr>, NoMemory>
        ensures { (fs : ℕ → Expression) → let g = language fs in IfOk result (λ o. option_map (to g) o ≡ cut_by g self.now (look fs self.now)) }
    {
        let Some(act) = self.act() else {
            return Ok(None);
        };
        let Act::Cut = act else {
            return Ok(None);
        };
        Ok(Some(self.answered(alloc, Value::unit())?))
    }

    pub(crate) fn after_pin(&self, alloc: Global) -> Result<Option<Expr>, NoMemory>
        ensures { (fs : ℕ → Expression) → let g = language fs in IfOk result (λ o. option_map (to g) o ≡ pin_by g self.now (look fs self.now)) }
    {
        let Some(act) = self.act() else {
            return Ok(None);
        };
        let Act::Pin = act else {
            return Ok(None);
        };
        Ok(Some(self.answered(alloc, Value::unit())?))
    }

    /// With the number that a probe got.
    pub(crate) fn after_probe(&self, alloc: Global, i: i64) -> Result<Option<Expr>, NoMemory>
        ensures { (fs : ℕ → Expression) → let g = language fs in IfOk result (λ o. option_map (to g) o ≡ probe_by g i self.now (look fs self.now)) }
    {
        let Some(act) = self.act() else {
            return Ok(None);
        };
        let Act::Probe = act else {
            return Ok(None);
        };
        Ok(Some(self.answered(alloc, Value::int(i))?))
    }

    pub(crate) fn after_refuse(&self) -> Option<Expr>
        ensures { (fs : ℕ → Expression) → let g = language fs in option_map (to g) result ≡ refuse_by g (look fs self.now) }
    {
        let Some(act) = self.act() else {
            return None;
        };
        let Act::Stabilize = act else {
            return None;
        };
        Some(Expr::fault(Fault::NoSection))
    }

    /// The expression after `attempt()` gave `n`.
    pub(crate) fn after_attempt(&self, alloc: Global, n: u64) -> Result<Option<Expr>, NoMemory>
        ensures { (fs : ℕ → Expression) → let g = language fs in IfOk result (λ o. option_map (to g) o ≡ attempt_by g n self.now (look fs self.now)) }
    {
        let Some(act) = self.act() else {
            return Ok(None);
        };
        let Act::Attempt = act else {
            return Ok(None);
        };
        if n > i64::MAX as u64 {
            return Ok(None);
        }
        Ok(Some(self.answered(alloc, Value::int(n as i64))?))
    }
}
