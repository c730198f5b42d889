//! What a list of calls means for a reference.
ghost use Rattle.std.specs.Prelude.{◌≡◌, ℕ, [], List};
ghost use Rattle.ref_log.specs.Log.{Log, IsInOrder, writes_of, last_of};
ghost use Rattle.ref_log.specs.Calls.{Call, Leads, surviving};

/// A law of lists of calls on a log: after any that are each allowed in their turn, the last write
/// of a reference is the last one in the list that no later call strikes.
pub fn last_write_law()
    ensures { (calls : List Call) (fresh log : Log) → ((r : ℕ) → writes_of fresh r ≡ [])
        → Leads calls fresh log → (r : ℕ) → last_of (writes_of log r) ≡ last_of (surviving r calls) }
{}

/// A law of the same lists: the writes of each reference rise, and all but its first are above the
/// last cut.
pub fn sound_law()
    ensures { (calls : List Call) (fresh log : Log) → ((r : ℕ) → writes_of fresh r ≡ [])
        → Leads calls fresh log → IsInOrder log }
{}
