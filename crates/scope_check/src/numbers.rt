//! The numbers of texts and variables.
ghost use Rattle.std.specs.Prelude.{◌≡◌, ◌≤◌, [], Ok, Err, IfOk, IfErr, OnOk, length, ◌+◌, ◌<◌, ◌^◌};
ghost use Rattle.scope_check.specs.Progress.{IsFaultOf, KeepsHeadsAndSeen, met_of, seen_of, texts_of};
ghost use Rattle.scope_check.specs.Scope.{let_numbered, slot_found, text_numbered};
ghost use Rattle.scope_check.specs.Names.{slot_of};
ghost use Rattle.scope_check.specs.Seen.{params_seen};

use crate::fault::ScopeFault;
use crate::names::{unknown, written};
use crate::progress::Progress;
use crate::seen::Variable;
use indexmap::IndexSet;
use stab_base::TextId;
use stab_code::Slots;
use stab_parse::{Param, Span};
use std::alloc::Global;

/// The lets of a function.
const MAX_LETS: usize = 200;

/// The texts of a program.
const MAX_TEXTS: usize = 1000;

impl Progress {
    /// Nothing yet, with room for this many heads.
    pub(crate) fn with_room(alloc: Global, heads: usize) -> Result<Progress, ScopeFault>
        ensures heads { IfOk result (λ progress. progress.heads.items ≡ []) }
        ensures texts { IfOk result (λ progress. texts_of progress ≡ []) }
        ensures fault { IfErr result (λ fault. fault ≡ ScopeFault.NoMemory) }
    {
        let heads = Vec::with_capacity(alloc, heads)?;
        Ok(Progress {
            heads,
            texts: IndexSet::new(alloc),
            seen: Vec::new(alloc),
            lets: 0,
            nones: Slots::new(alloc, Vec::new(alloc))?,
        })
    }

    /// Begins a function with these parameters.
    pub(crate) fn begin(&mut self, params: &[Param]) -> Result<(), ScopeFault>
        requires { length params.now < 2 ^ 32 }
        ensures seen { OnOk result (seen_of self.new ≡ params_seen 0 params.now []) }
        ensures lets { OnOk result (self.new.lets ≡ 0) }
        ensures heads { OnOk result (self.new.heads.items ≡ self.old.heads.items) }
        ensures texts { OnOk result (texts_of self.new ≡ texts_of self.old) }
        ensures fault { IfErr result (λ fault. fault ≡ ScopeFault.NoMemory) }
    {
        self.lets = 0;
        self.seen.clear();
        for (i, param) in params.iter().enumerate() {
            self.seen.push(Variable {
                name: param.name,
                slot: i as u32,
            })?;
        }
        Ok(())
    }

    /// The slot of a variable.
    #[inline(never)]
    pub(crate) fn slot(&self, bytes: &[u8], name: Span) -> Result<u32, ScopeFault>
        ensures { result ≡ slot_found name (slot_of bytes.now (seen_of self.now) name) }
    {
        let sought = written(bytes, name);
        for i in (0..self.seen.len()).rev() {
            if written(bytes, self.seen[i].name) == sought {
                return Ok(self.seen[i].slot);
            }
        }
        Err(unknown(name))
    }

    /// The number of a text that is written there, which is a new one where it comes first.
    pub(crate) fn number_text(&mut self, span: Span, text: Vec<u8>) -> Result<TextId, ScopeFault>
        ensures lets { OnOk result (self.new.lets ≡ self.old.lets) }
        ensures number { IfOk result (λ number. text_numbered span text.items (texts_of self.old) ≡ Ok (number.0, texts_of self.new)) }
        ensures others { OnOk result (KeepsHeadsAndSeen self.old self.new) }
        ensures fault { IfErr result (IsFaultOf (text_numbered span text.items (texts_of self.old))) }
    {
        if let Some(number) = self.texts.get_index_of(text.as_slice()) {
            return Ok(TextId(number as u32));
        }
        let number = self.texts.len();
        if number >= MAX_TEXTS {
            return Err(ScopeFault::TooMany(span.start));
        }
        self.texts.insert(text)?;
        Ok(TextId(number as u32))
    }

    /// The variable of one let more, in a function that takes this many arguments.
    pub(crate) fn number_let(&mut self, arity: u32, name: Span) -> Result<Variable, ScopeFault>
        requires { arity ≤ 8 }
        ensures variable { IfOk result (λ variable. let_numbered arity name (met_of self.old) ≡ Ok (variable, met_of self.new)) }
        ensures others { OnOk result (KeepsHeadsAndSeen self.old self.new) }
        ensures fault { IfErr result (λ fault. let_numbered arity name (met_of self.old) ≡ Err fault) }
    {
        if self.lets >= MAX_LETS {
            return Err(ScopeFault::TooMany(name.start));
        }
        let slot = arity + self.lets as u32;
        self.lets += 1;
        Ok(Variable { name, slot })
    }
}
