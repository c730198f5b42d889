//! Forms in forms.
ghost use Rattle.std.specs.Prelude.{◌≡◌, ◌<◌, ◌≤◌, [], IfOk, IfErr, OnOk, length, slice_get, take};
ghost use Rattle.scope_check.specs.Made.{ArePartsMade, IsLetBlock, IsFormFault, IsFormMade, IsOther, IsPartFault, IsPartMade, IsPartsFault};
ghost use Rattle.scope_check.specs.Progress.{HaveTexts};

use crate::fault::ScopeFault;
use crate::plan::Plan;
use crate::progress::Progress;
use stab_code::{Head as Code, Slots};
use stab_parse::{Head, Span};

impl<'a> Plan<'a> {
    /// Makes the heads of a form and of those in it, in a function that takes this many arguments.
    #[cycle(forms)]
    #[inline(always)]
    pub(crate) fn form(
        &self,
        progress: &mut Progress,
        arity: u32,
        at: usize,
    ) -> Result<(), ScopeFault>
        requires texts { HaveTexts self.now.bytes.now self.now.forms.now }
        requires there { at < length self.now.forms.now }
        requires few { arity ≤ 8 }
        ensures ok { OnOk result (IsFormMade self.now.bytes.now self.now.functions.now arity self.now.forms.now at progress.old progress.new) }
        ensures seen { OnOk result (progress.new.seen.items ≡ progress.old.seen.items) }
        ensures fault { IfErr result (IsFormFault self.now.bytes.now self.now.functions.now arity self.now.forms.now at progress.old) }
    {
        if self.plain_from[at] as usize <= progress.heads.len() {
            return self.stretch(progress, at);
        }
        let form = &self.forms[at];
        if let Head::LetBlock(names) = &form.head {
            return self.block(progress, arity, at, names.all());
        }
        let head = self.head(progress, form)?;
        self.operands(progress, arity, at)?;
        progress.heads.push(head)?;
        Ok(())
    }

    /// Makes the heads of the parts of a form that isn't a block with lets.
    #[cycle(forms)]
    #[inline(never)]
    fn operands(&self, progress: &mut Progress, arity: u32, at: usize) -> Result<(), ScopeFault>
        requires texts { HaveTexts self.now.bytes.now self.now.forms.now }
        requires other { IsOther self.now.forms.now at }
        requires few { arity ≤ 8 }
        ensures ok { OnOk result (ArePartsMade self.now.bytes.now self.now.functions.now arity self.now.forms.now at progress.old progress.new []) }
        ensures seen { OnOk result (progress.new.seen.items ≡ progress.old.seen.items) }
        ensures fault { IfErr result (IsPartsFault self.now.bytes.now self.now.functions.now arity self.now.forms.now at progress.old) }
    {
        for part in self.parts.of(at) {
            self.form(progress, arity, part.0 as usize)?;
        }
        Ok(())
    }

    /// Makes the heads of a block with lets and of the forms in it. The names of its items are seen up to its end.
    #[cycle(forms)]
    #[inline(never)]
    fn block(
        &self,
        progress: &mut Progress,
        arity: u32,
        at: usize,
        names: &[Option<Span>],
    ) -> Result<(), ScopeFault>
        requires texts { HaveTexts self.now.bytes.now self.now.forms.now }
        requires block { IsLetBlock self.now.forms.now at names.now }
        requires few { arity ≤ 8 }
        ensures ok { OnOk result (IsFormMade self.now.bytes.now self.now.functions.now arity self.now.forms.now at progress.old progress.new) }
        ensures seen { OnOk result (progress.new.seen.items ≡ progress.old.seen.items) }
        ensures fault { IfErr result (IsFormFault self.now.bytes.now self.now.functions.now arity self.now.forms.now at progress.old) }
    {
        let seen = progress.seen.len();
        let slots = self.block_parts(progress, arity, at, names)?;
        progress.seen.truncate(seen);
        let head = Code::Block(Slots::new(self.alloc, slots)?);
        progress.heads.push(head)?;
        Ok(())
    }

    /// Makes the heads of the parts of a block with lets, and gives the slots of those that are its items.
    #[cycle(forms)]
    fn block_parts(
        &self,
        progress: &mut Progress,
        arity: u32,
        at: usize,
        names: &[Option<Span>],
    ) -> Result<Vec<Option<u32>>, ScopeFault>
        requires texts { HaveTexts self.now.bytes.now self.now.forms.now }
        requires block { IsLetBlock self.now.forms.now at names.now }
        requires few { arity ≤ 8 }
        ensures ok { IfOk result (λ slots. ArePartsMade self.now.bytes.now self.now.functions.now arity self.now.forms.now at
            progress.old progress.new slots.items) }
        ensures seen { OnOk result (take (length progress.old.seen.items) progress.new.seen.items ≡ progress.old.seen.items) }
        ensures fault { IfErr result (IsPartsFault self.now.bytes.now self.now.functions.now arity self.now.forms.now at progress.old) }
    {
        let mut slots = Vec::new(self.alloc);
        for (i, part) in self.parts.of(at).iter().enumerate() {
            self.part(
                progress,
                arity,
                &mut slots,
                item_at(names, i),
                part.0 as usize,
            )?;
        }
        Ok(slots)
    }

    /// Makes the heads of one part more. An item that is a let is counted before its form, and seen after it.
    #[cycle(forms)]
    fn part(
        &self,
        progress: &mut Progress,
        arity: u32,
        slots: &mut Vec<Option<u32>>,
        item: Option<Option<Span>>,
        at: usize,
    ) -> Result<(), ScopeFault>
        requires texts { HaveTexts self.now.bytes.now self.now.forms.now }
        requires there { at < length self.now.forms.now }
        requires few { arity ≤ 8 }
        ensures ok { OnOk result (IsPartMade self.now.bytes.now self.now.functions.now arity self.now.forms.now at item
            progress.old slots.old.items progress.new slots.new.items) }
        ensures seen { OnOk result (take (length progress.old.seen.items) progress.new.seen.items ≡ progress.old.seen.items) }
        ensures fault { IfErr result (IsPartFault self.now.bytes.now self.now.functions.now arity self.now.forms.now at item
            progress.old slots.old.items) }
    {
        match item {
            None => self.form(progress, arity, at),
            Some(None) => {
                self.form(progress, arity, at)?;
                slots.push(None)?;
                Ok(())
            }
            Some(Some(name)) => {
                let variable = progress.number_let(arity, name)?;
                self.form(progress, arity, at)?;
                slots.push(Some(variable.slot))?;
                progress.seen.push(variable)?;
                Ok(())
            }
        }
    }
}

/// For an item of a block with lets the name of its let, or none; the form after the items is none of them.
fn item_at(names: &[Option<Span>], i: usize) -> Option<Option<Span>>
    ensures { result ≡ slice_get names.now i }
{
    names.get(i).copied()
}
