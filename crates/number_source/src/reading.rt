//! What the reader's thread does.
ghost use Rattle.std.specs.Prelude.{◌≡◌, [], ◌∷◌, ◌++◌, IfSome, IsTrue, IsFalse};
ghost use Rattle.rtrb.specs.Ring.{sent};
ghost use Rattle.number_source.specs.Input.{IsTold, answers_on, followed};
ghost use Rattle.number_source.specs.declared.came.Came.TheVariants.{End as Ended};

use crate::came::Came;
use crate::line::Line;
use crate::outlet::Outlet;
use std::io::Read;
use std::sync::Wait;

/// Reads an input to its end, or up to the first line that is no number, and puts the answers of its lines. It says whether it
/// put them all: not where a read failed, and not where nobody takes answers any more.
pub(crate) fn read_input<R: Wait, I: Read + Drop>(
    rt: &R,
    input: I,
    line: Line,
    out: &mut Outlet,
) -> bool
    ensures all { IfSome (I.remaining input) (λ bytes. IsTrue result → sent out.new.queue ≡ sent out.old.queue ++ answers_on line bytes) }
    ensures part { IfSome (I.remaining input) (λ bytes. IsTold (answers_on line bytes) (sent out.old.queue) (sent out.new.queue)) }
{
    let mut line = line;
    for byte in input.bytes() {
        let Ok(byte) = byte else {
            out.put(rt, Came::Failed);
            return false;
        };
        let answer = line.take(byte);
        match answer {
            Came::Nothing => {}
            Came::Number(_) => {
                if !out.put(rt, answer) {
                    return false;
                }
            }
            _ => return out.put(rt, answer),
        }
    }
    end_input(rt, &line, out)
}

// The input ends within the line.
fn end_input<R: Wait>(rt: &R, line: &Line, out: &mut Outlet) -> bool
    ensures all { IsTrue result → sent out.new.queue ≡ sent out.old.queue ++ answers_on line.now [] }
    ensures part { IsTold (answers_on line.now []) (sent out.old.queue) (sent out.new.queue) }
{
    let answer = line.end();
    match answer {
        Came::Nothing => out.put(rt, Came::End),
        Came::Number(_) => out.put(rt, answer) && out.put(rt, Came::End),
        _ => out.put(rt, answer),
    }
}
