ghost use Rattle.std.specs.Prelude.{◌+◌, ◌↔◌, Contains, IsTrue};

/// Whether the call that comes after `done` others is among those that are planned to fail.
pub(crate) fn is_planned(fails: &[u64], done: u64) -> bool
    ensures { IsTrue result ↔ Contains fails.now (done + 1) }
{
    fails.iter().any(|call| call.checked_sub(1) == Some(done))
}
