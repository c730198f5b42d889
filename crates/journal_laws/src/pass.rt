//! The pass that finds what is reached.

ghost use Rattle.std.specs.Prelude.{◌≡◌, ℕ, false, cond, not, ◌||◌, [], ◌∷◌, ◌++◌, IfOk, OnOk, map};
ghost use Rattle.std.specs.List.{list_any};
ghost use Rattle.std.specs.Ordering.{nat_cmp};
ghost use Rattle.std.specs.BTreeSet.{contains};
ghost use Rattle.stab_journal.specs.Label.{actors, touched, written};
ghost use Rattle.stab_journal.specs.declared.event.Numbered.{Numbered};
ghost use Rattle.stab_journal.specs.Names.{has, is_at, read};
ghost use Rattle.stab_journal.specs.Journal.{RiseFrom};
ghost use Rattle.stab_journal.specs.Reached.{reached, reads_of, rest, is_reached, without_reached};
ghost use Rattle.journal_laws.specs.Pass.{lost_in};

use stab_base::{NoMemory, Seq};
use stab_journal::{Label, Numbered};
use std::alloc::Global;
use std::collections::BTreeSet;

/// A run in two parts: the steps that aren't reached from one of them, and those that are, each in order.
#[derive(Drop)]
pub struct Divided {
    pub stays: Vec<Numbered>,
    pub goes: Vec<Numbered>,
}

fn acts_among(threads: &BTreeSet<u32>, label: Label) -> bool
    ensures { result ≡ list_any (contains nat_cmp threads.now) (actors label) }
{
    let (t, u) = label.actors();
    threads.contains(&t.0) || threads.contains(&u.0)
}

fn reads_among(references: &BTreeSet<u32>, label: Label) -> bool
    ensures { result ≡ reads_of (read label) (contains nat_cmp references.now) }
{
    match label {
        Label::Get(_, r) => references.contains(&r.0),
        _ => false,
    }
}

// The threads of a lost step are touched.
fn touch(threads: &mut BTreeSet<u32>, label: Label, lost: bool) -> Result<(), NoMemory>
    ensures { OnOk result ((q : ℕ) → contains nat_cmp threads.new q ≡ (cond lost (has (touched label) q) false || contains nat_cmp threads.old q)) }
{
    if lost {
        let (t, u) = label.touched();
        threads.insert(t.0)?;
        threads.insert(u.0)?;
    }
    Ok(())
}

// The last write of what a step writes is lost where the step is.
fn write(references: &mut BTreeSet<u32>, label: Label, lost: bool) -> Result<(), NoMemory>
    ensures { OnOk result ((q : ℕ) → contains nat_cmp references.new q ≡ cond (is_at (written label) q) lost (contains nat_cmp references.old q)) }
{
    match label {
        Label::NewRef(_, r) | Label::Set(_, r) => {
            if lost {
                references.insert(r.0)?;
            } else {
                references.remove(&r.0);
            }
        }
        _ => {}
    }
    Ok(())
}

fn note(found: &mut Vec<Seq>, q: Seq, lost: bool) -> Result<(), NoMemory>
    ensures { OnOk result (map (λ s. s.0) found.new.items ≡ map (λ s. s.0) found.old.items ++ cond lost (q.0 ∷ []) []) }
{
    if lost {
        found.push(q)?;
    }
    Ok(())
}

fn is_lost(threads: &BTreeSet<u32>, references: &BTreeSet<u32>, step: Numbered, m: Seq) -> bool
    ensures { result ≡ is_reached m.0 step (lost_in threads.now.keys references.now.keys) }
{
    m.0 == step.seq.0 || acts_among(threads, step.label) || reads_among(references, step.label)
}

/// The numbers that are reached from m, in order.
pub fn reached(alloc: Global, run: &[Numbered], m: Seq) -> Result<Vec<Seq>, NoMemory>
    ensures { IfOk result (λ v. map (λ s. s.0) v.items ≡ reached run.now m.0) }
{
    let mut threads = BTreeSet::new(alloc);
    let mut references = BTreeSet::new(alloc);
    let mut found = Vec::new(alloc);
    for step in run {
        let lost = is_lost(&threads, &references, *step, m);
        note(&mut found, step.seq, lost)?;
        touch(&mut threads, step.label, lost)?;
        write(&mut references, step.label, lost)?;
    }
    Ok(found)
}

/// Divides a run by what is reached from m.
pub fn divide(alloc: Global, run: &[Numbered], m: Seq) -> Result<Divided, NoMemory>
    requires { RiseFrom 1 run.now }
    ensures stays { IfOk result (λ d. d.stays.items ≡ without_reached m.0 run.now) }
    ensures goes { IfOk result (λ d. d.goes.items ≡ rest (λ q. not (has (reached run.now m.0) q)) run.now) }
{
    let mut threads = BTreeSet::new(alloc);
    let mut references = BTreeSet::new(alloc);
    let mut stays = Vec::new(alloc);
    let mut goes = Vec::new(alloc);
    for step in run {
        let lost = is_lost(&threads, &references, *step, m);
        put(&mut stays, *step, !lost)?;
        put(&mut goes, *step, lost)?;
        touch(&mut threads, step.label, lost)?;
        write(&mut references, step.label, lost)?;
    }
    Ok(Divided { stays, goes })
}

fn put(part: &mut Vec<Numbered>, step: Numbered, here: bool) -> Result<(), NoMemory>
    ensures { OnOk result (part.new.items ≡ part.old.items ++ cond here (step ∷ []) []) }
{
    if here {
        part.push(step)?;
    }
    Ok(())
}
