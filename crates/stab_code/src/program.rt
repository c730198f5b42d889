//! Whole programs.
ghost use Rattle.std.specs.Prelude.{◌≡◌, ◌↔◌, length, option_map, slice_get, IsTrue};
ghost use Rattle.std.specs.Option.{option_copied};
ghost use Rattle.stab_code.specs.Program.{arity_of, program_of};
ghost use Rattle.stab_code.specs.Valid.{IsValid};

use crate::function::Function;
use crate::head::Head;
use crate::node::Node;
use crate::node_id::NodeId;
use crate::nodes::Nodes;
use stab_base::{FnId, Same, Texts, all_same};
use std::marker::Model;

/// A program that can be run. Contracts see it as its functions, its nodes, its texts and the number of
/// `main`, and its type keeps that it is valid.
#[derive(Drop)]
pub struct Program {
    functions: Vec<Function>,
    nodes: Nodes,
    texts: Texts,
    main: FnId,
}

impl Model for Program {
    ghost use Rattle.std.specs.Coded.{codes};
    ghost use Rattle.stab_code.specs.Program.{ProgramParts, program_of};
    ghost use Rattle.stab_code.specs.Valid.{IsValid};
    ghost use Rattle.stab_code.specs.WrittenCode.{coded_written};
    ghost use Rattle.stab_code.specs.contracts.head.Head as whole_head;

    ghost Value = { ProgramParts };

    ghost coded = { Prim.hlevel (codes, coded_written, whole_head.the_row.coded) };

    ghost view = { λ p. program_of p.functions.items p.nodes p.texts p.main };

    ghost invariant = { λ p. IsValid (program_of p.functions.items p.nodes p.texts p.main) };
}

impl Program {
    /// The program of these parts, each of which the caller knows to fit the others.
    pub fn new(functions: Vec<Function>, nodes: Nodes, texts: Texts, main: FnId) -> Program
        requires { IsValid (program_of functions.items nodes texts main) }
        ensures { result ≡ program_of functions.items nodes texts main }
    {
        Program {
            functions,
            nodes,
            texts,
            main,
        }
    }

    /// The node of a function's body.
    pub fn body(&self, f: FnId) -> Option<NodeId>
        ensures value { result ≡ option_map (λ found. found.body) (slice_get self.now.functions f.0) }
        ensures valid { IsValid self.now }
    {
        Some(self.function(f)?.body())
    }

    /// How many arguments a function takes.
    pub fn arity(&self, f: FnId) -> Option<u32>
        ensures value { result ≡ option_map arity_of (slice_get self.now.functions f.0) }
        ensures valid { IsValid self.now }
    {
        Some(self.function(f)?.arity())
    }

    /// A function by its number.
    pub fn function(&self, f: FnId) -> Option<&Function>
        ensures value { option_copied result ≡ slice_get self.now.functions f.0 }
        ensures valid { IsValid self.now }
    {
        self.functions.get(f.0 as usize)
    }

    /// A node by its number.
    pub fn node(&self, n: NodeId) -> Option<Node<'_>>
        ensures value { result ≡ slice_get self.now.nodes n.0 }
        ensures valid { IsValid self.now }
    {
        self.nodes.get(n)
    }

    /// The head of a node by its number, where its parts aren't asked for.
    #[inline(always)]
    pub fn head(&self, n: NodeId) -> Option<&Head>
        ensures value { option_copied result ≡ option_map (λ node. node.head) (slice_get self.now.nodes n.0) }
        ensures valid { IsValid self.now }
    {
        self.nodes.head(n)
    }

    /// The function in which a run begins.
    pub fn main(&self) -> FnId
        ensures value { result ≡ self.now.main }
        ensures valid { IsValid self.now }
    {
        self.main
    }

    /// How many functions there are.
    pub fn functions(&self) -> u32
        ensures value { result ≡ length self.now.functions }
        ensures valid { IsValid self.now }
    {
        self.functions.len() as u32
    }

    /// The texts of the program, which nodes name by number.
    pub fn texts(&self) -> &Texts
        ensures value { result.now ≡ self.now.texts }
        ensures valid { IsValid self.now }
    {
        &self.texts
    }

    /// Whether two programs are equal.
    pub fn same(&self, other: &Program) -> bool
        ensures { IsTrue result ↔ (self.now ≡ other.now) }
    {
        self.main == other.main
            && self.texts.same(&other.texts)
            && all_same(&self.functions, &other.functions)
            && self.nodes.same(&other.nodes)
    }
}
