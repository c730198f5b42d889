//! Whether the functions and texts that an expression names are those of a program.
ghost use Rattle.std.specs.Prelude.{◌≡◌};
ghost use Rattle.language.specs.Expression.{parts_of};
ghost use Rattle.image_state.specs.Counted.{are_of, has_function, is_of};

use crate::values::has_texts;
use language::Head;
use plain_language::Expr;
use stab_code::Program;

/// Whether each function and each text that an expression names is the program's.
#[cycle(counting)]
pub(crate) fn is_of(program: &Program, e: &Expr) -> bool
    ensures { result ≡ is_of program.now e.now }
{
    if let Some(v) = e.as_value() {
        return has_texts(program.texts().len(), v);
    }
    match e.as_form() {
        Some((head, parts)) => has_function(program, head) && are_of(program, parts),
        None => true,
    }
}

#[cycle(counting)]
fn are_of(program: &Program, parts: &[Expr]) -> bool
    ensures { result ≡ are_of program.now (parts_of parts.now) }
{
    for part in parts {
        if !is_of(program, part) {
            return false;
        }
    }
    true
}

fn has_function(program: &Program, head: &Head) -> bool
    ensures { result ≡ has_function program.now head.now }
{
    match head {
        Head::Call(f) | Head::Spawn(f) | Head::Stable(f) => f.0 < program.functions(),
        _ => true,
    }
}
