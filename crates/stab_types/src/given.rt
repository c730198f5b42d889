//! What expressions give, as the check keeps it.

use type_table::TypeId;

/// What an expression gives: a value of a type of the table, or never a value.
#[derive(Clone, Copy, Default)]
pub(crate) enum Given {
    Of(TypeId),
    #[default]
    Never,
}

/// The types of the table that a function takes and gives.
#[derive(Drop)]
pub(crate) struct Signature {
    pub takes: Vec<TypeId>,
    pub gives: TypeId,
}
