//! Goes on from an image.
ghost use Rattle.std.specs.Prelude.{◌≡◌, ◌≤◌, ◌++◌, IfOk, List, ℤ};
ghost use Rattle.stab_code.specs.Limits.{max_fuel, max_quantum};
ghost use Rattle.stab_code.specs.Program.{ProgramParts};
ghost use Rattle.stab_journal.specs.declared.event.Event.{Event as OneEvent};
ghost use Rattle.image_laws.specs.Image.{IsHistoryTo, StandsAt};
ghost use Rattle.image_text.specs.Rising.{IsRising};
ghost use Rattle.stab_image.specs.Resumed.{IsBehind, IsResumed};

use crate::image::Image;
use image_laws::continued;
use image_run::{Next, Origin, Resumed, go_on};
use stab_base::NoMemory;
use std::alloc::Global;
use std::collections::BTreeMap;

/// Goes on from an image by one worker, until no thread can step or events of this weight were made. With the events of each run
/// for which the image stands, they are a history that ends in the same state. An undo costs a copy of the state, and what is
/// left of the steps from its section's entry on is played again.
pub fn resume(alloc: Global, image: Image, fuel: u64, quantum: u32) -> Result<Resumed, NoMemory>
    requires fuel { fuel ≤ max_fuel }
    requires some_quantum { 1 ≤ quantum }
    requires quantum { quantum ≤ max_quantum }
    ensures resumed { IfOk result (IsResumed image fuel quantum) }
    ensures behind { IfOk result (IsBehind image) }
    ensures history { (p : ProgramParts) (script : List ℤ) (events : List OneEvent) → StandsAt p script events image
        → IfOk result (λ r. IsHistoryTo p script (events ++ r.events.items) r.state.state) }
{
    continued();
    let generations = map_of(alloc, &image.generations)?;
    let next = Next {
        thread: image.next_thread,
        chan: image.next_chan,
        reference: image.next_ref,
    };
    let origin = Origin {
        state: image.state,
        script: image.script,
        used: image.used,
        cut: image.cut,
        next,
        generations,
    };
    let resumed = go_on(alloc, origin, fuel, quantum)?;
    Ok(resumed)
}

// Pairs as a map.
fn map_of(alloc: Global, pairs: &[(u32, u64)]) -> Result<BTreeMap<u32, u64>, NoMemory>
    requires { IsRising 0 pairs.now }
    ensures { IfOk result (λ m. m.entries ≡ pairs.now) }
{
    let mut map = BTreeMap::new(alloc);
    for pair in pairs {
        map.insert(pair.0, pair.1)?;
    }
    Ok(map)
}
