//! What holds of the state of an image. The calls do nothing.
ghost use Rattle.std.specs.Prelude.{◌≡◌, ℕ, List, Ok};
ghost use Rattle.stab_code.specs.Program.{ProgramParts};
ghost use Rattle.image_lines.specs.declared.head.Next.{Next};
ghost use Rattle.image_lines.specs.declared.line.Line.{Line};
ghost use Rattle.image_lines.specs.BodyText.{body_text};
ghost use Rattle.image_state.specs.Parts.{Parts, parts_from};
ghost use Rattle.image_state.specs.State.{AreOfState, IsStateOf, state_in};

/// The lines of a state are read from their text, where they fit together, and from no other bytes.
pub fn states_read_back()
    ensures written { (p : ProgramParts) (next : Next) (at : ℕ) (ls : List Line) → AreOfState p next ls → state_in p next at (body_text ls) ≡ Ok (parts_from ls) }
    ensures exact { (p : ProgramParts) (next : Next) (at : ℕ) (bytes : List ℕ) (parts : Parts) → state_in p next at bytes ≡ Ok parts → IsStateOf p next bytes parts }
{}
