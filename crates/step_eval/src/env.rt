//! Environments: the values of variables by their slots.
ghost use Rattle.std.specs.Prelude.{◌≡◌, ◌≤◌, ◌++◌, [], length, IfOk, OnOk};
ghost use Rattle.step_eval.specs.Scoped.{bound};

use stab_base::{NoMemory, Shape, Value};
use std::alloc::Global;
use std::marker::Model;
use std::mem;

/// Values by slot. Contracts see a list.
#[derive(Drop)]
pub(crate) struct Env {
    slots: Vec<Value>,
}

impl Model for Env {
    ghost use Rattle.std.specs.Prelude.{List};
    ghost use Rattle.std.specs.Coded.{coded_list};
    ghost use Rattle.stab_base.specs.Datum.{Datum};
    ghost use Rattle.stab_base.specs.DatumCode.{coded_datum};

    ghost Value = { List Datum };

    ghost coded = { coded_list coded_datum };

    ghost view = { λ e. e.slots.items };
}

impl Env {
    /// Of arguments.
    pub(crate) fn new(slots: Vec<Value>) -> Env
        ensures { result ≡ slots.items }
    {
        Env { slots }
    }

    /// The values, by slot.
    pub(crate) fn values(&self) -> &[Value]
        ensures { result.now ≡ self.now }
    {
        self.slots.as_slice()
    }

    /// Other values in their place, which come back without what they were.
    pub(crate) fn replace(&mut self, slots: Vec<Value>) -> Vec<Value>
        ensures values { self.new ≡ slots.items }
        ensures none_left { result.items ≡ [] }
    {
        let mut old = mem::replace(&mut self.slots, slots);
        old.clear();
        old
    }

    /// The value of a slot after the others; those in between, which no variable of what is left names, get unit.
    pub(crate) fn bind(&mut self, slot: u32, v: Value) -> Result<(), NoMemory>
        requires { length self.old ≤ slot }
        ensures { OnOk result (self.new ≡ bound self.old slot v) }
    {
        for _passed in self.slots.len()..slot as usize {
            self.slots.push(Value::unit())?;
        }
        self.slots.push(v)?;
        Ok(())
    }

    /// An equal one.
    pub(crate) fn copy(&self, alloc: Global) -> Result<Env, NoMemory>
        ensures { IfOk result (λ e. e ≡ self.now) }
    {
        Ok(Env {
            slots: copied(alloc, self.slots.as_slice())?,
        })
    }

    /// The list of the values.
    pub(crate) fn into_values(self) -> Vec<Value>
        ensures { result.items ≡ self }
    {
        self.slots
    }
}

/// An equal value. A number, which most values are, is copied at once.
#[inline(always)]
pub(crate) fn twin(v: &Value) -> Result<Value, NoMemory>
    ensures { IfOk result (λ w. w ≡ v.now) }
{
    match v.shape() {
        Shape::Int(n) => Ok(Value::int(*n)),
        _ => v.copy(),
    }
}

/// Puts equal values after those that are there.
pub(crate) fn add_copies(values: &[Value], all: &mut Vec<Value>) -> Result<(), NoMemory>
    ensures { OnOk result (all.new.items ≡ all.old.items ++ values.now) }
{
    for v in values {
        all.push(twin(v)?)?;
    }
    Ok(())
}

/// Equal values.
pub(crate) fn copied(alloc: Global, values: &[Value]) -> Result<Vec<Value>, NoMemory>
    ensures { IfOk result (λ all. all.items ≡ values.now) }
{
    let mut all = Vec::with_capacity(alloc, values.len())?;
    add_copies(values, &mut all)?;
    Ok(all)
}
