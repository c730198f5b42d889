//! The functions of a program.
ghost use Rattle.std.specs.Prelude.{◌≡◌, ◌≤◌};
ghost use Rattle.stab_code.specs.Program.{arity_of, function_of};

use crate::node_id::NodeId;
use crate::ty::Ty;
use stab_base::{Same, all_same};
use std::marker::Model;

/// A function of a program. Contracts see it as its written types, its number of slots and its body.
#[derive(Drop)]
pub struct Function {
    takes: Vec<Ty>,
    gives: Ty,
    slots: u32,
    body: NodeId,
}

impl Model for Function {
    ghost use Rattle.std.specs.Coded.{codes};
    ghost use Rattle.stab_code.specs.Program.{FunctionParts, function_of};
    ghost use Rattle.stab_code.specs.WrittenCode.{coded_written};

    ghost Value = { FunctionParts };

    ghost coded = { Prim.hlevel (codes, coded_written) };

    ghost view = { λ f. function_of f.takes.items f.gives f.slots f.body };
}

impl Function {
    /// A function whose parameters and lets together have the given number of slots.
    pub fn new(takes: Vec<Ty>, gives: Ty, slots: u32, body: NodeId) -> Function
        ensures { result ≡ function_of takes.items gives slots body }
    {
        Function {
            takes,
            gives,
            slots,
            body,
        }
    }

    /// The written types of the parameters, in order of writing.
    pub fn takes(&self) -> &[Ty]
        ensures { result.now ≡ self.now.takes }
    {
        self.takes.as_slice()
    }

    /// The written type of what the function gives.
    pub fn gives(&self) -> &Ty
        ensures { result.now ≡ self.now.gives }
    {
        &self.gives
    }

    /// How many slots the parameters and the lets have together.
    pub fn slots(&self) -> u32
        ensures { result ≡ self.now.slots }
    {
        self.slots
    }

    /// The node of the body.
    pub fn body(&self) -> NodeId
        ensures { result ≡ self.now.body }
    {
        self.body
    }

    pub(crate) fn arity(&self) -> u32
        requires { arity_of self.now ≤ self.now.slots }
        ensures { result ≡ arity_of self.now }
    {
        prove!(self.takes.len() <= self.slots as usize);
        self.takes.len() as u32
    }
}

impl Same for Function {
    fn same(&self, other: &Function) -> bool {
        self.body == other.body
            && self.slots == other.slots
            && self.gives.same(&other.gives)
            && all_same(&self.takes, &other.takes)
    }
}
