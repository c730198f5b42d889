//! The numbers of the mill.
ghost use Rattle.std.specs.Prelude.{◌≡◌, ◌+◌, IfOk};
ghost use Rattle.mill_text.specs.Mill.{mill_script, probe_number};

use stab_base::NoMemory;
use std::alloc::Global;

/// The numbers that the probes of the mill of this size get, one for each section. Each -1 rolls one section back, and
/// that section then probes again.
pub fn mill_script(alloc: Global, size: u32) -> Result<Vec<i64>, NoMemory>
    ensures { IfOk result (λ script. script.items ≡ mill_script size) }
{
    let mut script = Vec::new(alloc);
    for before in 0..size {
        script.push(probe_number(before))?;
    }
    Ok(script)
}

// The number after this many others.
fn probe_number(before: u32) -> i64
    ensures { result ≡ probe_number (before + 1) }
{
    if before % 10 == 9 { -1 } else { 0 }
}
