//! The steps of a history that no undo took away so far.
ghost use Rattle.std.specs.Prelude.{◌≡◌, ◌++◌, ◌∷◌, [], ℕ, ◌<◌, ◌≤◌, true, false, ◌&&◌, length, take, nat_eq, IfOk, OnOk, count_by};
ghost use Rattle.std.specs.List.{list_any};
ghost use Rattle.stab_journal.specs.Due.{is_print};
ghost use Rattle.stab_journal.specs.Floor.{is_enter, is_pin};
ghost use Rattle.stab_journal.specs.Generation.{acts_in};
ghost use Rattle.stab_journal.specs.Journal.{RiseFrom};
ghost use Rattle.stab_journal.specs.Label.{actors};
ghost use Rattle.stab_journal.specs.Names.{has};
ghost use Rattle.stab_journal.specs.Reached.{reached, without_reached};
ghost use Rattle.stab_journal.specs.Since.{AreBelow, final_prints_since, is_revocable_since};
ghost use Rattle.trace_verify.specs.Parts.{IsFront, IsParted, run_in};

use journal_laws::{Divided, divide};
use stab_base::{NoMemory, Seq};
use stab_journal::{Label, Numbered};
use std::alloc::Global;

/// The surviving steps up to the last cut, which stay, and those after it, of which an undo may take some away.
#[derive(Drop)]
pub(crate) struct Parts {
    pub(crate) settled: Vec<Numbered>,
    pub(crate) recent: Vec<Numbered>,
    /// The number of the cut after which the first step stands, 0 where that is the start.
    since: u64,
    /// The number of the last cut, that of `since` before the first.
    floor: u64,
    /// How many of the settled steps print.
    final_prints: u64,
}

impl Parts {
    /// No steps yet, after the cut with this number.
    pub(crate) fn new(alloc: Global, since: u64) -> Parts
        ensures parted { IsParted result }
        ensures none { run_in result ≡ [] }
        ensures since { result.since ≡ since }
    {
        Parts {
            settled: Vec::new(alloc),
            recent: Vec::new(alloc),
            since,
            floor: since,
            final_prints: 0,
        }
    }

    /// Adds a step at the end.
    pub(crate) fn add(&mut self, step: Numbered) -> Result<(), NoMemory>
        requires parted { IsParted self.old }
        requires rise { RiseFrom 1 (run_in self.old) }
        requires below { AreBelow step.seq.0 (run_in self.old) }
        requires above { self.old.since < step.seq.0 }
        ensures since { self.new.since ≡ self.old.since }
        ensures parted { OnOk result (IsParted self.new) }
        ensures run { OnOk result (run_in self.new ≡ run_in self.old ++ step ∷ []) }
        ensures settled { OnOk result (IsFront self.old.settled.items self.new.settled.items) }
    {
        self.recent.push(step)?;
        if let Label::Cut(_) = step.label {
            self.final_prints += prints_among(&self.recent);
            self.settled.append(&mut self.recent)?;
            self.floor = step.seq.0;
        }
        Ok(())
    }

    /// All steps, in order.
    pub(crate) fn into_run(mut self) -> Result<Vec<Numbered>, NoMemory>
        ensures { IfOk result (λ run. run.items ≡ run_in self) }
    {
        self.settled.append(&mut self.recent)?;
        Ok(self.settled)
    }

    /// How many printed values are final.
    pub(crate) fn final_prints(&self) -> u64
        requires parted { IsParted self.now }
        ensures { result ≡ final_prints_since self.now.since (run_in self.now) }
    {
        self.final_prints
    }

    /// Whether the section that was entered at m can be taken back.
    pub(crate) fn is_revocable(&self, alloc: Global, m: Seq) -> Result<bool, NoMemory>
        requires parted { IsParted self.now }
        requires rise { RiseFrom 1 (run_in self.now) }
        ensures { IfOk result (λ b. b ≡ is_revocable_since self.now.since (run_in self.now) m.0) }
    {
        if m.0 <= self.floor {
            return Ok(false);
        }
        let k = self.before(m);
        let (_, behind) = self.recent.split_at(k);
        if !is_entered(behind, m) {
            return Ok(false);
        }
        let divided = divide(alloc, behind, m)?;
        Ok(!has_pin(&divided.goes))
    }

    /// How many of the steps behind the last cut come before the one numbered m.
    pub(crate) fn before(&self, m: Seq) -> usize
        requires rise { RiseFrom 1 (run_in self.now) }
        ensures within { result ≤ length self.now.recent.items }
        ensures below { AreBelow m.0 (take result self.now.recent.items) }
    {
        count_before(&self.recent, m)
    }

    /// Removes what is reached from m, which comes after the last cut, and returns it. The first k of the steps behind the last cut come
    /// before it, and stay.
    pub(crate) fn lose(
        &mut self,
        alloc: Global,
        m: Seq,
        k: usize,
    ) -> Result<Vec<Numbered>, NoMemory>
        requires parted { IsParted self.old }
        requires rise { RiseFrom 1 (run_in self.old) }
        requires revocable { is_revocable_since self.old.since (run_in self.old) m.0 ≡ true }
        requires within { k ≤ length self.old.recent.items }
        requires below { AreBelow m.0 (take k self.old.recent.items) }
        ensures since { self.new.since ≡ self.old.since }
        ensures parted { OnOk result (IsParted self.new) }
        ensures settled { OnOk result (self.new.settled.items ≡ self.old.settled.items) }
        ensures front { OnOk result (take k self.new.recent.items ≡ take k self.old.recent.items) }
        ensures long { OnOk result (k ≤ length self.new.recent.items) }
        ensures run { OnOk result (run_in self.new ≡ without_reached m.0 (run_in self.old)) }
        ensures lost { IfOk result (λ goes. (t : ℕ) → list_any (λ n. has (actors n.label) t) goes.items
            ≡ acts_in (has (reached (run_in self.old) m.0)) t (run_in self.old)) }
    {
        let (_, behind) = self.recent.split_at(k);
        let divided = divide(alloc, behind, m)?;
        let Divided { stays, goes } = divided;
        let mut stays = stays;
        self.recent.truncate(k);
        self.recent.append(&mut stays)?;
        Ok(goes)
    }
}

// How many steps come before the one numbered m: it is looked for from the end.
fn count_before(steps: &[Numbered], m: Seq) -> usize
    requires rise { RiseFrom 1 steps.now }
    ensures within { result ≤ length steps.now }
    ensures below { AreBelow m.0 (take result steps.now) }
{
    let mut k = steps.len();
    while is_behind(steps, m, k) {
        k -= 1;
    }
    k
}

// Whether the last of the first k steps doesn't come before the one numbered m.
fn is_behind(steps: &[Numbered], m: Seq, k: usize) -> bool
    requires within { k ≤ length steps.now }
    requires rise { RiseFrom 1 steps.now }
    ensures some { result ≡ true → 0 < k }
    ensures none { result ≡ false → AreBelow m.0 (take k steps.now) }
{
    if k == 0 {
        return false;
    }
    m.0 <= steps[k - 1].seq.0
}

fn prints_among(steps: &[Numbered]) -> u64
    ensures count { result ≡ count_by (λ n. is_print n.label) steps.now }
{
    let mut prints = 0;
    for step in steps {
        if matches!(step.label, Label::Print(_)) {
            prints += 1;
        }
    }
    prints
}

fn is_entered(steps: &[Numbered], m: Seq) -> bool
    ensures { result ≡ list_any (λ n. nat_eq m.0 n.seq.0 && is_enter n.label) steps.now }
{
    steps.iter().any(|step| m.0 == step.seq.0 && matches!(step.label, Label::Enter(_)))
}

fn has_pin(steps: &[Numbered]) -> bool
    ensures { result ≡ list_any (λ n. is_pin n.label) steps.now }
{
    steps.iter().any(|step| matches!(step.label, Label::Pin(_)))
}
