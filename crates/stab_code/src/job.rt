//! What a run is given.
ghost use Rattle.std.specs.Prelude.{◌≡◌, ◌+◌, ◌≤◌, ◌↔◌, length, IfOk, IsTrue, OnErr, OnOk};
ghost use Rattle.std.specs.Arc.{arc_value};
ghost use Rattle.stab_code.specs.JobParts.{IsWithinLimits, job_of, longer};

use crate::program::Program;
use stab_base::{NoMemory, Same, all_same};
use std::alloc::Global;
use std::marker::Model;
use std::sync::Arc;

/// The most fuel of a job.
pub const MAX_FUEL: u64 = 16_000_000;

/// The largest quantum of a job.
pub const MAX_QUANTUM: u32 = 10_000;

/// How many numbers a job's script may have.
pub const MAX_SCRIPT: usize = 524_288;

/// What a run is given: a program, a script of the numbers that its probes get, the weight of events at
/// which it stops, and the most pure steps that a thread makes at a time. Contracts see it as these four.
#[derive(Drop)]
pub struct Job {
    program: Arc<Program>,
    script: Vec<i64>,
    fuel: u64,
    quantum: u32,
}

impl Model for Job {
    ghost use Rattle.std.specs.Arc.{arc_value};
    ghost use Rattle.std.specs.Coded.{codes};
    ghost use Rattle.stab_code.specs.JobParts.{JobParts, job_of, IsWithinLimits};
    ghost use Rattle.stab_code.specs.contracts.program.Program as whole_program;

    ghost Value = { JobParts };

    ghost coded = { Prim.hlevel (codes, whole_program.the_row.coded) };

    ghost view = { λ job. job_of (arc_value job.program) job.script.items job.fuel job.quantum };

    ghost invariant = { λ job. IsWithinLimits (job_of (arc_value job.program) job.script.items job.fuel job.quantum) };
}

impl Job {
    /// The job of these parts. The program is shared and not copied.
    pub fn new(program: Arc<Program>, script: Vec<i64>, fuel: u64, quantum: u32) -> Job
        requires some_fuel { 1 ≤ fuel }
        requires fuel_within { fuel ≤ MAX_FUEL }
        requires some_quantum { 1 ≤ quantum }
        requires quantum_within { quantum ≤ MAX_QUANTUM }
        requires script_within { length script.items ≤ MAX_SCRIPT }
        ensures { result ≡ job_of (arc_value program) script.items fuel quantum }
    {
        Job {
            program,
            script,
            fuel,
            quantum,
        }
    }

    /// The program that is run.
    pub fn program(&self) -> &Arc<Program>
        ensures value { arc_value result.now ≡ self.now.program }
        ensures limits { IsWithinLimits self.now }
    {
        &self.program
    }

    /// What the probes get, in order; each later one gets 0.
    pub fn script(&self) -> &[i64]
        ensures value { result.now ≡ self.now.script }
        ensures limits { IsWithinLimits self.now }
    {
        self.script.as_slice()
    }

    /// The weight of events at which the run is spent, from 1.
    pub fn fuel(&self) -> u64
        ensures value { result ≡ self.now.fuel }
        ensures limits { IsWithinLimits self.now }
    {
        self.fuel
    }

    /// The most pure steps that a thread makes at a time, from 1.
    pub fn quantum(&self) -> u32
        ensures value { result ≡ self.now.quantum }
        ensures limits { IsWithinLimits self.now }
    {
        self.quantum
    }

    /// Puts numbers behind the script.
    pub fn extend_script(&mut self, numbers: &[i64]) -> Result<(), NoMemory>
        requires within { length self.old.script + length numbers.now ≤ MAX_SCRIPT }
        ensures longer { OnOk result (self.new ≡ longer self.old numbers.now) }
        ensures err { OnErr result (self.new ≡ self.old) }
    {
        Ok(self.script.extend_from_slice(numbers)?)
    }

    /// An equal job, over the same program.
    pub fn copy(&self, alloc: Global) -> Result<Job, NoMemory>
        ensures { IfOk result (λ copy. copy ≡ self.now) }
    {
        Ok(Job {
            program: Arc::try_clone(&self.program)?,
            script: Vec::from_slice(alloc, &self.script)?,
            fuel: self.fuel,
            quantum: self.quantum,
        })
    }

    /// Whether two jobs are equal.
    pub fn same(&self, other: &Job) -> bool
        ensures { IsTrue result ↔ (self.now ≡ other.now) }
    {
        self.fuel == other.fuel
            && self.quantum == other.quantum
            && all_same(&self.script, &other.script)
            && self.program.same(&other.program)
    }
}
