//! What the lines of a state say.
ghost use Rattle.std.specs.Prelude.{◌≡◌, ◌++◌, ◌∷◌, [], IfOk, OnOk};
ghost use Rattle.image_state.specs.Held.{held_parts};
ghost use Rattle.image_state.specs.Named.{lines_in};
ghost use Rattle.image_state.specs.Parts.{parts_from, with_line};

use image_lines::Line;
use plain_language::Expr;
use stab_base::{ChanId, NoMemory, RefId, ThreadId, Value};
use std::alloc::Global;

/// The channels, the references and what they hold, what was printed, the threads, and how often each was put back, in the order
/// of their lines.
#[derive(Drop)]
pub struct Parts {
    pub channels: Vec<ChanId>,
    pub references: Vec<(RefId, Value)>,
    pub output: Vec<Value>,
    pub threads: Vec<(ThreadId, Expr)>,
    pub generations: Vec<(u32, u64)>,
}

impl Parts {
    /// What these lines say.
    pub(crate) fn of(alloc: Global, lines: Vec<(u64, Line)>) -> Result<Parts, NoMemory>
        ensures { IfOk result (λ p. held_parts p ≡ parts_from (lines_in lines.items)) }
    {
        let mut parts = Parts {
            channels: Vec::new(alloc),
            references: Vec::new(alloc),
            output: Vec::new(alloc),
            threads: Vec::new(alloc),
            generations: Vec::new(alloc),
        };
        for (_, line) in lines {
            parts.add(line)?;
        }
        Ok(parts)
    }

    fn add(&mut self, line: Line) -> Result<(), NoMemory>
        ensures { OnOk result (held_parts self.new ≡ with_line (held_parts self.old) line) }
    {
        match line {
            Line::Chan(c) => self.channels.push(c)?,
            Line::Ref(r, v) => self.references.push((r, v))?,
            Line::Out(v) => self.output.push(v)?,
            Line::Thread(t, generation, e) => {
                self.generations.push((t.0, generation))?;
                self.threads.push((t, e))?;
            }
            Line::End => {}
        }
        Ok(())
    }
}
