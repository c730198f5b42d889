//! The step by which a thread does what it does next.
ghost use Rattle.std.specs.Prelude.{◌≡◌, ℕ, ◌≤◌, ◌<◌, ◌^◌, true, false, IfSome, IsSome, Some};
ghost use Rattle.language.specs.Plain.{PlainState as State, plain_step};
ghost use Rattle.stab_code.specs.Program.{ProgramParts};
ghost use Rattle.ready_steps.specs.Labels.{IsOpen, label_of};
ghost use Rattle.ready_steps.specs.Ready.{look_of};

use plain_language::{ActKind, Look};
use stab_base::{ChanId, RefId, ThreadId};
use stab_journal::Label;

/// What a step gets that the language leaves open: the number of what it makes, and what it answers.
#[derive(Clone, Copy)]
pub struct Given {
    pub thread: ThreadId,
    pub chan: ChanId,
    pub reference: RefId,
    pub probe: i64,
    pub generation: u64,
}

/// The step of a thread that does this next, where it makes one by itself that isn't pure and isn't a `stabilize`.
pub fn label_for(t: ThreadId, look: Look, given: Given) -> Option<Label>
    ensures label { result ≡ label_of t given look }
    ensures can { (p : ProgramParts) (s : State) (q : ℕ) → look_of p s t.0 ≡ Some look → IsOpen s given → IfSome result (λ l. IsSome (plain_step p s q l)) }
{
    let Look::Act(kind) = look else {
        return None;
    };
    match kind {
        ActKind::Spawn => Some(Label::Spawn(t, given.thread)),
        ActKind::NewChan => Some(Label::NewChan(t, given.chan)),
        ActKind::NewRef => Some(Label::NewRef(t, given.reference)),
        ActKind::Get(r) => Some(Label::Get(t, r)),
        ActKind::Set(r) => Some(Label::Set(t, r)),
        ActKind::Enter => Some(Label::Enter(t)),
        ActKind::Cut => Some(Label::Cut(t)),
        ActKind::Pin => Some(Label::Pin(t)),
        ActKind::Print => Some(Label::Print(t)),
        ActKind::Probe => Some(Label::Probe(t, given.probe)),
        ActKind::Attempt => Some(Label::Attempt(t, given.generation)),
        ActKind::Send(_) | ActKind::Recv(_) | ActKind::Pick(_, _) | ActKind::Stabilize => None,
    }
}
