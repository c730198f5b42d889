//! The law.
ghost use Rattle.std.specs.Prelude.{List};
ghost use Rattle.stab_code.specs.Valid.{CountsAreWithin};
ghost use Rattle.stab_journal.specs.declared.event.Numbered.{Numbered};
ghost use Rattle.language.specs.Plain.{IsRun, PlainState};
ghost use Rattle.standing_runs.specs.Standing.{IsStanding};

use crate::numbers::numbers_fit;
use stab_code::Program;

/// In the state in which a run ends each thread stands at a whole expression of bounded depth, or at a fault alone, and
/// each value keeps its limits. It takes as long as one pass over the nodes of the program.
pub fn runs_stand(program: &Program)
    ensures stand { (run : List Numbered) (s : PlainState) → IsRun program.now run s → IsStanding program.now s }
    ensures counts { CountsAreWithin program.now }
{
    numbers_fit(program);
}
