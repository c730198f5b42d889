//! What a type is made of.

/// A type of a table, numbered from 0.
#[derive(Clone, Copy, PartialEq, Eq, Hash)]
pub struct TypeId(pub u32);

/// What a type is made of, where the types in it are given by their numbers in a table.
#[derive(Clone, Copy, PartialEq, Eq, Hash)]
pub enum TypeShape {
    Unit,
    Bool,
    Int,
    Text,
    Chan(TypeId),
    Ref(TypeId),
    Pair(TypeId, TypeId),
}
