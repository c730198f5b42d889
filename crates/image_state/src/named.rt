//! Which channels and references have a line.
ghost use Rattle.std.specs.Prelude.{◌≡◌, ◌||◌, ℕ, IfOk, OnOk};
ghost use Rattle.std.specs.Ordering.{nat_cmp};
ghost use Rattle.std.specs.BTreeSet.{contains};
ghost use Rattle.image_state.specs.Held.{AreNamed};
ghost use Rattle.image_state.specs.Named.{is_channel, is_reference, lines_in};

use image_lines::Line;
use stab_base::NoMemory;
use std::alloc::Global;
use std::collections::BTreeSet;

/// The channels and the references that have a line.
#[derive(Drop)]
pub(crate) struct Named {
    pub(crate) channels: BTreeSet<u32>,
    pub(crate) references: BTreeSet<u32>,
}

impl Named {
    /// Those of these lines, which stand with their places.
    pub(crate) fn of(alloc: Global, lines: &[(u64, Line)]) -> Result<Named, NoMemory>
        ensures { IfOk result (λ n. AreNamed n (lines_in lines.now)) }
    {
        let mut named = Named {
            channels: BTreeSet::new(alloc),
            references: BTreeSet::new(alloc),
        };
        for placed in lines {
            named.add(&placed.1)?;
        }
        Ok(named)
    }

    fn add(&mut self, line: &Line) -> Result<(), NoMemory>
        ensures channels { OnOk result ((c : ℕ) → contains nat_cmp self.new.channels c ≡ (is_channel c line.now || contains nat_cmp self.old.channels c)) }
        ensures references { OnOk result ((r : ℕ) → contains nat_cmp self.new.references r ≡ (is_reference r line.now || contains nat_cmp self.old.references r)) }
    {
        match line {
            Line::Chan(c) => {
                self.channels.insert(c.0)?;
            }
            Line::Ref(r, _) => {
                self.references.insert(r.0)?;
            }
            _ => {}
        }
        Ok(())
    }
}
