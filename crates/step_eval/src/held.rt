//! The values that a frame holds.
ghost use Rattle.std.specs.Prelude.{◌≡◌, ◌<◌, ◌^◌, ◌++◌, [], length, IfOk, OnOk};
ghost use Rattle.step_eval.specs.Held.{held_of};

use crate::env::{add_copies, copied, twin};
use stab_base::{NoMemory, Value};
use std::alloc::Global;
use std::marker::Model;
use std::{mem, slice};

/// Room for this many values, and for two at least, in a list that has none yet.
#[inline(always)]
pub(crate) fn make_room(values: &mut Vec<Value>, many: usize) -> Result<(), NoMemory>
    ensures { values.new.items ≡ values.old.items }
{
    if values.capacity() == 0 {
        values.reserve_exact(many.max(2))?;
    }
    Ok(())
}

/// Where the values are. More than one are in a box, so that all frames are small.
#[derive(Drop)]
enum Kept {
    Empty,
    One(Value),
    Many(Box<Vec<Value>>),
}

/// The values of a frame's parts so far: none or one in place, more in a list. Contracts see a list.
#[derive(Drop)]
pub(crate) struct Held {
    kept: Kept,
}

impl Model for Held {
    ghost use Rattle.std.specs.Prelude.{List};
    ghost use Rattle.std.specs.Coded.{coded_list};
    ghost use Rattle.stab_base.specs.Datum.{Datum};
    ghost use Rattle.stab_base.specs.DatumCode.{coded_datum};
    ghost use Rattle.step_eval.specs.Held.{held_of};

    ghost Value = { List Datum };

    ghost coded = { coded_list coded_datum };

    ghost view = { λ h. held_of h.kept };
}

/// A list that has room, if there is a spare one, and else a new one.
fn spare_list(
    alloc: Global,
    spare: &mut Option<Box<Vec<Value>>>,
) -> Result<Box<Vec<Value>>, NoMemory> {
    match spare.take() {
        Some(list) => Ok(list),
        None => Ok(Box::new(alloc, Vec::new(alloc))?),
    }
}

/// More than one value, in their list; the spare one takes its place, without values.
fn take_many(
    alloc: Global,
    values: &mut Vec<Value>,
    spare: &mut Option<Box<Vec<Value>>>,
) -> Result<Kept, NoMemory>
    ensures held { IfOk result (λ kept. held_of kept ≡ values.old.items) }
    ensures none { OnOk result (values.new.items ≡ []) }
{
    let mut list = spare_list(alloc, spare)?;
    mem::swap(&mut *list, values);
    values.clear();
    Ok(Kept::Many(list))
}

impl Held {
    /// No values.
    pub(crate) fn none() -> Held
        ensures { result ≡ [] }
    {
        Held { kept: Kept::Empty }
    }

    /// The values of a list, which then has none. Its room stays, but more than one value go with their list.
    #[inline(always)]
    pub(crate) fn take(
        alloc: Global,
        values: &mut Vec<Value>,
        spare: &mut Option<Box<Vec<Value>>>,
    ) -> Result<Held, NoMemory>
        ensures held { IfOk result (λ held. held ≡ values.old.items) }
        ensures none { OnOk result (values.new.items ≡ []) }
    {
        if values.len() > 1 {
            let kept = take_many(alloc, values, spare)?;
            return Ok(Held { kept });
        }
        match values.pop() {
            None => Ok(Held::none()),
            Some(v) => Ok(Held { kept: Kept::One(v) }),
        }
    }

    /// The values take the place of those of a list. Where they have a list, the other one is spare then.
    #[inline(always)]
    pub(crate) fn put_into(
        self,
        values: &mut Vec<Value>,
        spare: &mut Option<Box<Vec<Value>>>,
    ) -> Result<(), NoMemory>
        ensures { OnOk result (values.new.items ≡ self) }
    {
        values.clear();
        match self.kept {
            Kept::Empty => Ok(()),
            Kept::One(v) => {
                make_room(values, 2)?;
                values.push(v)?;
                Ok(())
            }
            Kept::Many(list) => {
                let mut list = list;
                mem::swap(&mut *list, values);
                *spare = Some(list);
                Ok(())
            }
        }
    }

    /// The values.
    #[inline(always)]
    pub(crate) fn values(&self) -> &[Value]
        ensures { result.now ≡ self.now }
    {
        match &self.kept {
            Kept::Empty => &[],
            Kept::One(v) => slice::from_ref(v),
            Kept::Many(list) => list.as_slice(),
        }
    }

    /// How many values there are.
    pub(crate) fn len(&self) -> usize
        ensures value { result ≡ length self.now }
        ensures bound { result < 2 ^ 60 }
    {
        self.values().len()
    }

    /// Equal values.
    pub(crate) fn copy(&self) -> Result<Held, NoMemory>
        ensures { IfOk result (λ held. held ≡ self.now) }
    {
        match &self.kept {
            Kept::Empty => Ok(Held::none()),
            Kept::One(v) => Ok(Held {
                kept: Kept::One(twin(v)?),
            }),
            Kept::Many(list) => {
                let alloc = *list.allocator();
                let equal = copied(alloc, list.as_slice())?;
                Ok(Held {
                    kept: Kept::Many(Box::new(alloc, equal)?),
                })
            }
        }
    }

    /// Puts equal values after those of a list.
    pub(crate) fn add_to(&self, all: &mut Vec<Value>) -> Result<(), NoMemory>
        ensures { OnOk result (all.new.items ≡ all.old.items ++ self.now) }
    {
        add_copies(self.values(), all)
    }
}
