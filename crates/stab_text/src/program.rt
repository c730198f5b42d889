//! Reading programs.
ghost use Rattle.std.specs.Prelude.{◌≤◌, ◌⊎◌, length, IfOk, IfErr};
ghost use Rattle.stab_lex.specs.Limits.{max_text};
ghost use Rattle.stab_text.specs.Text.{HasFault, IsNoMemory, IsTextOf};

use crate::fault::TextFault;
use scope_check::scope;
use stab_code::Program;
use stab_lex::lex;
use stab_parse::parse;
use std::alloc::Global;

/// The program of a text, or its first fault: a fault of tokens comes before one of syntax, and that before one of names. It
/// takes time that grows with the length of the text. Calls go as deep as forms and types are nested, which is at most 200; else
/// nothing recurses on the text.
pub fn read_program(alloc: Global, bytes: &[u8]) -> Result<Program, TextFault>
    requires { length bytes.now ≤ max_text }
    ensures program { IfOk result (IsTextOf bytes.now) }
    ensures fault { IfErr result (λ fault. IsNoMemory fault ⊎ HasFault bytes.now fault) }
{
    let tree = parse(alloc, &lex(alloc, bytes)?, bytes)?;
    Ok(scope(alloc, &tree, bytes)?)
}
