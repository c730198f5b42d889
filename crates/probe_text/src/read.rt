ghost use Rattle.std.specs.Prelude.{◌≡◌, ◌⊎◌, ◌+◌, ◌*◌, ◌≤◌, length, Ok, Err, IfOk, IfErr};
ghost use Rattle.probe_text.specs.Probes.{reading};

use crate::fault::ProbesFault;
use crate::number::number_of;
use std::alloc::Global;
use text_lines::Lines;

/// The numbers of the lines of a probe file in order, or the first line that isn't one. Lines that are empty except for
/// spaces and tabs are skipped.
pub fn read_probes(alloc: Global, bytes: &[u8]) -> Result<Vec<i64>, ProbesFault>
    ensures numbers { IfOk result (λ numbers. reading bytes.now ≡ Ok numbers.items) }
    ensures few { IfOk result (λ numbers. 2 * length numbers.items ≤ length bytes.now + 1) }
    ensures fault { IfErr result (λ fault. (fault ≡ ProbesFault.NoMemory) ⊎ (reading bytes.now ≡ Err fault)) }
{
    let mut numbers = Vec::new(alloc);
    for line in Lines::new(bytes) {
        let Some(number) = number_of(line.text) else {
            return Err(ProbesFault::Line(line.at as u64));
        };
        numbers.push(number)?;
    }
    Ok(numbers)
}
