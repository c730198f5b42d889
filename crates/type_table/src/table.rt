//! A table of types.
ghost use Rattle.std.specs.Prelude.{◌≡◌, ◌<◌, ◌^◌, true, Some, List, length, slice_get, IfOk, OnErr};
ghost use Rattle.stab_code.specs.Written.{Written};
ghost use Rattle.type_table.specs.declared.shape.TypeId.{TypeId as Number};
ghost use Rattle.type_table.specs.Table.{IsLonger, base_shapes, base_types, is_made, is_made_below, type_at, written_by};

use crate::shape::{TypeId, TypeShape};
use indexmap::IndexSet;
use stab_base::NoMemory;
use std::alloc::Global;
use std::marker::Model;

// Unit, truth values, numbers and texts have the first numbers, and aren't looked up.
const BASE: u32 = 4;

/// Types by their numbers, each made of types with smaller numbers, so that types which would be long to write out take
/// little room and are compared in one step. Contracts see it as the list of types.
#[derive(Drop)]
pub struct TypeTable {
    // the shapes behind those of the base types
    shapes: IndexSet<TypeShape>,
}

impl Model for TypeTable {
    ghost use Rattle.std.specs.Prelude.{List, ◌++◌, length, ◌<◌, ◌^◌};
    ghost use Rattle.stab_code.specs.Written.{Written};
    ghost use Rattle.stab_code.specs.WrittenCode.{coded_written};
    ghost use Rattle.std.specs.Coded.{codes};
    ghost use Rattle.type_table.specs.Table.{types_of, base_shapes, AreMadeBelow, AreApart};

    ghost Value = { List Written };

    ghost coded = { Prim.hlevel (codes, coded_written) };

    ghost view = { λ t. types_of (base_shapes ++ t.shapes.keys) };

    ghost invariant = { λ t. AreMadeBelow (base_shapes ++ t.shapes.keys) × AreApart (base_shapes ++ t.shapes.keys)
        × (length (base_shapes ++ t.shapes.keys) < 2 ^ 32) };
}

// The shape of one of the first numbers.
fn base_shape(n: TypeId) -> TypeShape
    requires { n.0 < 4 }
    ensures { slice_get base_shapes n.0 ≡ Some result }
{
    if n.0 == 0 {
        return TypeShape::Unit;
    }
    if n.0 == 1 {
        return TypeShape::Bool;
    }
    if n.0 == 2 {
        return TypeShape::Int;
    }
    TypeShape::Text
}

impl TypeTable {
    /// The base types.
    pub fn new(alloc: Global) -> TypeTable
        ensures { result ≡ base_types }
    {
        TypeTable {
            shapes: IndexSet::new(alloc),
        }
    }

    // The first types are the base types. The call does nothing.
    fn begins(&self)
        ensures { IsLonger base_types self.now }
    {
        // Read for what is kept of every table.
        let _count = self.shapes.len();
    }

    /// The number of the type of this shape, which is the next one where the type isn't there yet. `NoMemory` comes also where
    /// there are 4,294,967,295 types.
    pub fn number(&mut self, shape: TypeShape) -> Result<TypeId, NoMemory>
        requires { is_made_below (length self.old) shape ≡ true }
        ensures longer { IfOk result (λ n. IsLonger self.old self.new) }
        ensures within { IfOk result (λ n. n.0 < length self.new) }
        ensures is { IfOk result (λ n. (all : List Written) → IsLonger self.new all → type_at all n ≡ written_by all shape) }
        ensures err { OnErr result (self.new ≡ self.old) }
    {
        self.begins();
        match shape {
            TypeShape::Unit => Ok(TypeId(0)),
            TypeShape::Bool => Ok(TypeId(1)),
            TypeShape::Int => Ok(TypeId(2)),
            TypeShape::Text => Ok(TypeId(3)),
            TypeShape::Chan(_) => self.number_of_made(shape),
            TypeShape::Ref(_) => self.number_of_made(shape),
            TypeShape::Pair(_, _) => self.number_of_made(shape),
        }
    }

    // The number of the type of a shape that is made of others.
    fn number_of_made(&mut self, shape: TypeShape) -> Result<TypeId, NoMemory>
        requires made { is_made shape ≡ true }
        requires below { is_made_below (length self.old) shape ≡ true }
        ensures longer { IfOk result (λ n. IsLonger self.old self.new) }
        ensures within { IfOk result (λ n. n.0 < length self.new) }
        ensures is { IfOk result (λ n. (all : List Written) → IsLonger self.new all → type_at all n ≡ written_by all shape) }
        ensures err { OnErr result (self.new ≡ self.old) }
    {
        if let Some(found) = self.shapes.get_index_of(&shape) {
            return Ok(TypeId(found as u32 + BASE));
        }
        let number = self.shapes.len();
        if number >= (u32::MAX - BASE) as usize {
            return Err(NoMemory);
        }
        self.shapes.insert(shape)?;
        Ok(TypeId(number as u32 + BASE))
    }

    /// What the type of this number is made of.
    pub fn shape(&self, n: TypeId) -> TypeShape
        requires { n.0 < length self.now }
        ensures below { is_made_below n.0 result ≡ true }
        ensures is { (all : List Written) → IsLonger self.now all → type_at all n ≡ written_by all result }
    {
        self.begins();
        if n.0 < BASE {
            return base_shape(n);
        }
        self.shapes[(n.0 - BASE) as usize]
    }

    /// Equal types have equal numbers. The call does nothing.
    pub fn apart(&self)
        ensures { (all : List Written) → IsLonger self.now all → (m n : Number) → m.0 < length self.now → n.0 < length self.now
            → type_at all m ≡ type_at all n → m ≡ n }
    {
        // Read for what is kept of every table.
        let _count = self.shapes.len();
    }
}
