//! What holds of images and of the events that continue them. The call does nothing, takes no memory and answers nothing; what
//! it says is its contract.
ghost use Rattle.std.specs.Prelude.{List, ℤ, ◌++◌};
ghost use Rattle.stab_code.specs.Program.{ProgramParts};
ghost use Rattle.stab_journal.specs.declared.event.Event.{Event};
ghost use Rattle.language.specs.Plain.{PlainState};
ghost use Rattle.image_laws.specs.Image.{Image, IsContinuedBy, IsHistoryTo, StandsAt};

/// Where events continue an image, they continue each history of a program and a script for which the image stands: the
/// two together are a history that ends in the same state.
pub fn continued()
    ensures { (p : ProgramParts) (script : List ℤ) (events since : List Event) (image : Image) (s : PlainState)
        → StandsAt p script events image → IsContinuedBy image since s → IsHistoryTo p script (events ++ since) s }
{}
