//! What a form is, apart from its parts.
ghost use Rattle.std.specs.Prelude.{◌≡◌, ◌-◌, [], false, None, Ok, IfOk, IfErr, OnOk, replicate};
ghost use Rattle.stab_lex.specs.Pieces.{IsText};
ghost use Rattle.scope_check.specs.Forms.{act_named, has_lets};
ghost use Rattle.scope_check.specs.Names.{named, text_at};
ghost use Rattle.scope_check.specs.Progress.{HasText, IsFaultOf, KeepsHeadsAndSeen, met_of, seen_of, texts_of};
ghost use Rattle.scope_check.specs.Scope.{head_met, text_numbered};

use crate::fault::ScopeFault;
use crate::names::written;
use crate::plan::Plan;
use crate::progress::Progress;
use crate::types::type_of;
use stab_base::TextId;
use stab_code::{Head as Code, Slots};
use stab_lex::characters;
use stab_parse::{ActWord, CallWord, FormNode, Head, Span};

impl<'a> Plan<'a> {
    /// The number of a text that is written there.
    #[inline(never)]
    fn text(&self, progress: &mut Progress, span: Span) -> Result<TextId, ScopeFault>
        requires { IsText (named self.now.bytes.now span) }
        ensures lets { OnOk result (progress.new.lets ≡ progress.old.lets) }
        ensures number { IfOk result (λ number. text_numbered span (text_at self.now.bytes.now span) (texts_of progress.old)
            ≡ Ok (number.0, texts_of progress.new)) }
        ensures others { OnOk result (KeepsHeadsAndSeen progress.old progress.new) }
        ensures fault { IfErr result (IsFaultOf (text_numbered span (text_at self.now.bytes.now span) (texts_of progress.old))) }
    {
        let Ok(text) = characters(self.alloc, written(self.bytes, span)) else {
            return Err(ScopeFault::NoMemory);
        };
        let kept = text.into_bytes();
        progress.number_text(span, kept)
    }

    /// The slots of a block with this many parts, none a let. A block shares them with the last such block before it, where
    /// that has as many.
    #[inline(never)]
    pub(crate) fn no_slots(
        &self,
        progress: &mut Progress,
        parts: usize,
    ) -> Result<Slots, ScopeFault>
        ensures slots { IfOk result (λ slots. slots ≡ replicate (parts - 1) None) }
        ensures met { OnOk result (met_of progress.new ≡ met_of progress.old) }
        ensures others { OnOk result (KeepsHeadsAndSeen progress.old progress.new) }
        ensures fault { IfErr result (λ fault. fault ≡ ScopeFault.NoMemory) }
    {
        let items = parts.saturating_sub(1);
        if progress.nones.all().len() != items {
            let nones = Vec::from_elem(self.alloc, None, items)?;
            progress.nones = Slots::new(self.alloc, nones)?;
        }
        Ok(progress.nones.share()?)
    }

    /// What a form is that isn't a block with lets, apart from its parts.
    #[inline(always)]
    pub(crate) fn head(&self, progress: &mut Progress, form: &FormNode) -> Result<Code, ScopeFault>
        requires text { HasText self.now.bytes.now form.now.head }
        requires other { has_lets form.now.head ≡ false }
        ensures head { IfOk result (λ head. head_met self.now.bytes.now self.now.functions.now (seen_of progress.old) (met_of progress.old)
            form.now.head form.now.parts ≡ Ok (head, met_of progress.new)) }
        ensures others { OnOk result (KeepsHeadsAndSeen progress.old progress.new) }
        ensures fault { IfErr result (IsFaultOf (head_met self.now.bytes.now self.now.functions.now (seen_of progress.old)
            (met_of progress.old) form.now.head form.now.parts)) }
    {
        match &form.head {
            Head::Unit => Ok(Code::Unit),
            Head::Truth(truth) => Ok(Code::Truth(*truth)),
            Head::Int(number) => Ok(Code::Int(*number)),
            Head::Text(span) => Ok(Code::Text(self.text(progress, *span)?)),
            Head::Variable(name) => Ok(Code::Var(progress.slot(self.bytes, *name)?)),
            Head::Block => Ok(Code::Block(self.no_slots(progress, form.parts)?)),
            Head::LetBlock(_) => unreachable!(),
            Head::If => Ok(Code::If),
            Head::Two(op) => Ok(Code::Two(*op)),
            Head::Not => Ok(Code::Not),
            Head::Neg => Ok(Code::Neg),
            Head::Pair => Ok(Code::Pair),
            Head::Call(name) => Ok(Code::Call(self.callee(*name, form.parts)?)),
            Head::Start(CallWord::Spawn, name) => Ok(Code::Spawn(self.callee(*name, form.parts)?)),
            Head::Start(CallWord::Stable, name) => Ok(Code::Stable(self.callee(
                *name, form.parts,
            )?)),
            Head::NewChan(ty) => Ok(Code::NewChan(type_of(self.alloc, ty)?)),
            Head::Act(word) => Ok(act(*word)),
        }
    }
}

/// The act of a word.
fn act(word: ActWord) -> Code
    ensures { result ≡ act_named word }
{
    match word {
        ActWord::Ref => Code::NewRef,
        ActWord::Get => Code::Get,
        ActWord::Recv => Code::Recv,
        ActWord::Print => Code::Print,
        ActWord::Fst => Code::Fst,
        ActWord::Snd => Code::Snd,
        ActWord::Set => Code::Set,
        ActWord::Send => Code::Send,
        ActWord::Pick => Code::Pick,
        ActWord::Stabilize => Code::Stabilize,
        ActWord::Cut => Code::Cut,
        ActWord::Probe => Code::Probe,
        ActWord::Pin => Code::Pin,
        ActWord::Attempt => Code::Attempt,
    }
}
