//! The steps: all in one vector, and for each thread the place of its last one.
//!
//! What a thread keeps counts only if an entry of that thread is there. So all are forgotten at once, without
//! a walk over the threads, as in the sparse sets of Briggs and Torczon.
ghost use Rattle.std.specs.Prelude.{◌≡◌, ◌<◌, ◌≤◌, ◌+◌, ◌-◌, ℕ, length, get_or};
ghost use Rattle.own_steps.specs.Layout.{own_place, row, spare_in, IsLinked};

use stab_base::{Seq, ThreadId};

/// A step in which a thread acted.
#[derive(Clone, Copy)]
pub struct Entry {
    pub step: Seq,
    pub thread: ThreadId,
    /// The place of the thread's step before it, counted from 1, or 0.
    pub before: u32,
}

/// There are no more entries than their places have numbers.
pub const MOST: usize = 4_294_967_295;

/// The place of the last step of a thread, counted from 1, or 0.
pub fn place(heads: &[u32], entries: &[Entry], t: ThreadId) -> u32
    ensures { result ≡ own_place t.0 (get_or heads.now t.0 0) entries.now }
{
    if t.0 as usize >= heads.len() {
        return 0;
    }
    let place = heads[t.0 as usize];
    if place == 0 || place as usize > entries.len() {
        return 0;
    }
    if entries[place as usize - 1].thread == t {
        place
    } else {
        0
    }
}

/// Removes the entries after the last one that a thread leads to.
pub fn drop_unused(heads: &[u32], entries: &mut Vec<Entry>)
    requires { IsLinked entries.old.items }
    ensures rows { (t : ℕ) → row t (get_or heads.now t 0) entries.new.items ≡ row t (get_or heads.now t 0) entries.old.items }
    ensures linked { IsLinked entries.new.items }
    ensures fewer { length entries.new.items ≤ length entries.old.items }
    ensures spare { spare_in entries.old ≤ spare_in entries.new }
{
    while let Some(last) = entries.last() {
        if place(heads, entries, last.thread) as usize == entries.len() {
            break;
        }
        let _unused = entries.pop();
    }
}
