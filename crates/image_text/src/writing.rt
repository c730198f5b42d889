//! Writes the lines of an image.
ghost use Rattle.std.specs.Prelude.{◌≡◌, ◌≤◌, ◌<◌, ◌++◌, ℕ, true, false, OnOk};
ghost use Rattle.std.specs.List.{flat_map};
ghost use Rattle.std.specs.Ordering.{nat_cmp};
ghost use Rattle.std.specs.FinMap as map;
ghost use Rattle.std.specs.FinMap.{entries, from_entries};
ghost use Rattle.std.specs.FinSet as set;
ghost use Rattle.image_text.specs.ImageText.{channels_text, end_text, next_text, number_line, output_text, probes_text, program_text, references_text, threads_text};
ghost use Rattle.image_text.specs.Rising.{IsRising};

use crate::one_line::{
    put_line, put_printed, put_reference, put_row, put_row_of_four, put_row_of_two, put_signed,
    put_thread,
};
use plain_language::PlainState;
use stab_base::{NoMemory, Value};

/// Writes the lines of the program, which go before all others. Where memory is missing, part of them may have been added,
/// here and in the other functions.
pub fn put_program(out: &mut Vec<u8>, text: &[u8]) -> Result<(), NoMemory>
    ensures { OnOk result (out.new.items ≡ out.old.items ++ program_text text.now) }
{
    put_line(out, b"stab image 1")?;
    put_row(out, b"program", text.len() as u64)?;
    put_line(out, text)
}

/// Writes the script and how many probes were made.
pub fn put_probes(out: &mut Vec<u8>, script: &[i64], used: u64) -> Result<(), NoMemory>
    ensures { OnOk result (out.new.items ≡ out.old.items ++ probes_text script.now used) }
{
    put_row_of_two(out, b"probes", script.len() as u64, used)?;
    put_script(out, script)
}

fn put_script(out: &mut Vec<u8>, script: &[i64]) -> Result<(), NoMemory>
    ensures { OnOk result (out.new.items ≡ out.old.items ++ flat_map number_line script.now) }
{
    for number in script {
        put_signed(out, *number)?;
    }
    Ok(())
}

/// Writes the number of the cut and the next numbers of threads, channels and references.
pub fn put_next(
    out: &mut Vec<u8>,
    cut: u64,
    thread: u32,
    chan: u32,
    reference: u32,
) -> Result<(), NoMemory>
    ensures { OnOk result (out.new.items ≡ out.old.items ++ next_text cut thread chan reference) }
{
    put_row_of_four(
        out,
        b"next",
        (cut, u64::from(thread)),
        (u64::from(chan), u64::from(reference)),
    )
}

/// Writes the channels, which are below this number, in the order of their numbers.
pub fn put_channels(out: &mut Vec<u8>, state: &PlainState, next: u32) -> Result<(), NoMemory>
    requires { (c : ℕ) → set.contains state.now.state.channels c ≡ true → (1 ≤ c) × (c < next) }
    ensures { OnOk result (out.new.items ≡ out.old.items ++ channels_text state.now.state.channels next) }
{
    let mut last = 0;
    while let Some(c) = state.channel_after(last) {
        put_row(out, b"chan", u64::from(c.0))?;
        last = c.0;
    }
    Ok(())
}

/// Writes the references and what they hold, in the order of their numbers.
pub fn put_references(out: &mut Vec<u8>, state: &PlainState) -> Result<(), NoMemory>
    requires { map.contains_key state.now.state.references 0 ≡ false }
    ensures { OnOk result (out.new.items ≡ out.old.items ++ references_text (entries state.now.state.references)) }
{
    let mut last = 0;
    while let Some((r, v)) = state.reference_after(last) {
        put_reference(out, r.0, v)?;
        last = r.0;
    }
    Ok(())
}

/// Writes the values that were printed, in their order.
pub fn put_output(out: &mut Vec<u8>, values: &[Value]) -> Result<(), NoMemory>
    ensures { OnOk result (out.new.items ≡ out.old.items ++ output_text values.now) }
{
    for value in values {
        put_printed(out, value)?;
    }
    Ok(())
}

/// Writes the threads with their generations, of which the list has each thread's, in the order of their numbers.
pub fn put_threads(
    out: &mut Vec<u8>,
    state: &PlainState,
    generations: &[(u32, u64)],
) -> Result<(), NoMemory>
    requires rising { IsRising 0 generations.now }
    requires none { map.contains_key state.now.state.threads 0 ≡ false }
    requires same { (t : ℕ) → map.contains_key (from_entries {R = nat_cmp} generations.now) t ≡ map.contains_key state.now.state.threads t }
    ensures { OnOk result (out.new.items ≡ out.old.items ++ threads_text (from_entries generations.now) (entries state.now.state.threads)) }
{
    let mut last = 0;
    let mut i = 0;
    while let Some((t, e)) = state.thread_after(last) {
        put_thread(out, t.0, generations[i].1, e)?;
        last = t.0;
        i += 1;
    }
    Ok(())
}

/// Writes the last line.
pub fn put_end(out: &mut Vec<u8>) -> Result<(), NoMemory>
    ensures { OnOk result (out.new.items ≡ out.old.items ++ end_text) }
{
    put_line(out, b"end")
}
