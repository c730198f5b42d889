//! A reader that goes through the printed values and copies none.
ghost use Rattle.std.specs.Prelude.{◌++◌, map as each};
ghost use Rattle.std.specs.Iterator.{YieldsFirstRef, item_count};

use crate::recent::Entry;
use stab_base::Value;
use std::iter::FusedIterator;
use std::marker::Model;

/// The printed values, seen as the list of those that weren't given yet.
#[derive(Drop)]
pub struct Values<'a> {
    pub(crate) finals: &'a [Value],
    pub(crate) recent: &'a [Entry],
}

impl<'a> Model for Values<'a> {
    ghost use Rattle.std.specs.Prelude.{◌++◌, List, map as each};
    ghost use Rattle.stab_base.specs.Datum.{Datum};
    ghost use Rattle.print_log.specs.Log.{Print};
    ghost use Rattle.print_log.specs.Layout.{live};
    ghost use Rattle.std.specs.Coded.{coded_list};
    ghost use Rattle.stab_base.specs.DatumCode.{coded_datum};

    ghost Value = { List Datum };

    ghost coded = { coded_list coded_datum };

    ghost view = { λ it. it.finals.now ++ each (λ (p : Print). p.value) (live it.recent.now) };
}

impl<'a> Iterator for Values<'a> {
    type Item = &'a Value;

    ghost next_gives = { YieldsFirstRef (λ left. left) };

    ghost remaining = { item_count (λ left. left) };

    fn next(&mut self) -> Option<&'a Value> {
        if let Some((first, others)) = self.finals.split_first() {
            self.finals = others;
            return Some(first);
        }
        while let Some((entry, others)) = self.recent.split_first() {
            self.recent = others;
            if let Some(value) = &entry.value {
                return Some(value);
            }
        }
        None
    }
}

impl<'a> FusedIterator for Values<'a> {}
