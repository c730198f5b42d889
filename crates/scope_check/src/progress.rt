//! What was made and met so far, going through a program's bodies.
ghost use Rattle.std.specs.Prelude.{◌≡◌, ◌≤◌, None, length, replicate};
ghost use Rattle.scope_check.specs.Limits.{max_lets, max_texts};

use crate::seen::Variable;
use indexmap::IndexSet;
use stab_code::{Head, Slots};

/// What was made so far of a program, the heads of its nodes and its texts, and of a function: how many lets it has, and the
/// variables that are seen, the innermost last. The slots of the last block without lets are kept, since the next one may share them.
#[derive(Drop)]
pub struct Progress {
    pub heads: Vec<Head>,
    pub texts: IndexSet<Vec<u8>>,
    pub seen: Vec<Variable>,
    pub lets: usize,
    pub nones: Slots,
    ghost few_lets: { lets ≤ max_lets },
    ghost few_texts: { length texts.keys ≤ max_texts },
    ghost no_lets: { nones ≡ replicate (length nones) None },
}
