//! Stretches of forms that are gone through in the order of the list.
ghost use Rattle.std.specs.Prelude.{◌≡◌, ◌+◌, ◌<◌, ◌^◌, false, length, IfOk, IfErr, OnOk};
ghost use Rattle.scope_check.specs.Forms.{has_lets};
ghost use Rattle.scope_check.specs.Progress.{HasText, HaveTexts, IsFaultOf, met_of, seen_of};
ghost use Rattle.scope_check.specs.Scope.{head_met};
ghost use Rattle.scope_check.specs.Stretches.{ArePlain, ArePlainFrom, IsHeadAdded, IsStretchFault, IsStretchMade, plain};

use crate::fault::ScopeFault;
use crate::plan::Plan;
use crate::progress::Progress;
use stab_code::Head as Code;
use stab_parse::{FormNode, Head};
use std::alloc::Global;

/// Whether a form is plain: no block with lets, call, spawn or stable, and a text or variable only without parts. Its head is then
/// the same before and after its parts.
fn is_plain(form: &FormNode) -> bool
    ensures { result ≡ plain form.now }
{
    match &form.head {
        Head::Text(_) => form.parts == 0,
        Head::Variable(_) => form.parts == 0,
        Head::LetBlock(_) => false,
        Head::Call(_) => false,
        Head::Start(_, _) => false,
        _ => true,
    }
}

/// For each form the least number from which on all forms up to it and with it are plain, which is the next one's where it
/// isn't plain itself.
pub(crate) fn plain_from(alloc: Global, forms: &[FormNode]) -> Result<Vec<u32>, ScopeFault>
    requires { length forms.now < 2 ^ 32 }
    ensures length { IfOk result (λ numbers. length numbers.items ≡ length forms.now) }
    ensures numbers { IfOk result (λ numbers. ArePlainFrom forms.now numbers.items) }
    ensures fault { IfErr result (λ fault. fault ≡ ScopeFault.NoMemory) }
{
    let mut numbers = Vec::with_capacity(alloc, forms.len())?;
    let mut first = 0;
    for (i, form) in forms.iter().enumerate() {
        if !is_plain(form) {
            first = i as u32 + 1;
        }
        numbers.push(first)?;
    }
    Ok(numbers)
}

impl<'a> Plan<'a> {
    /// Makes the head of a block without lets after those that were made.
    #[inline(never)]
    fn add_block(&self, progress: &mut Progress, form: &FormNode) -> Result<(), ScopeFault>
        requires { form.now.head ≡ Head.Block }
        ensures ok { OnOk result (IsHeadAdded self.now.bytes.now self.now.functions.now form.now progress.old progress.new) }
        ensures fault { IfErr result (λ fault. fault ≡ ScopeFault.NoMemory) }
    {
        let slots = self.no_slots(progress, form.parts)?;
        progress.heads.push(Code::Block(slots))?;
        Ok(())
    }

    /// Makes the head of a form that isn't a block with lets after those that were made.
    #[inline(always)]
    fn add(&self, progress: &mut Progress, form: &FormNode) -> Result<(), ScopeFault>
        requires text { HasText self.now.bytes.now form.now.head }
        requires other { has_lets form.now.head ≡ false }
        ensures ok { OnOk result (IsHeadAdded self.now.bytes.now self.now.functions.now form.now progress.old progress.new) }
        ensures fault { IfErr result (IsFaultOf (head_met self.now.bytes.now self.now.functions.now (seen_of progress.old)
            (met_of progress.old) form.now.head form.now.parts)) }
    {
        if let Head::Block = &form.head {
            return self.add_block(progress, form);
        }
        let head = self.head(progress, form)?;
        progress.heads.push(head)?;
        Ok(())
    }

    /// Makes the heads of the forms up to one and with it, after those that were made. All of them are plain.
    #[inline(never)]
    pub(crate) fn stretch(&self, progress: &mut Progress, at: usize) -> Result<(), ScopeFault>
        requires texts { HaveTexts self.now.bytes.now self.now.forms.now }
        requires there { at < length self.now.forms.now }
        requires plain { ArePlain self.now.forms.now (length progress.old.heads.items) (at + 1) }
        ensures ok { OnOk result (IsStretchMade self.now.bytes.now self.now.functions.now self.now.forms.now (at + 1) progress.old progress.new) }
        ensures seen { OnOk result (progress.new.seen.items ≡ progress.old.seen.items) }
        ensures fault { IfErr result (IsStretchFault self.now.bytes.now self.now.functions.now self.now.forms.now (at + 1) progress.old) }
    {
        for i in progress.heads.len()..at + 1 {
            self.add(progress, &self.forms[i])?;
        }
        Ok(())
    }
}
