//! The types of a form's parts.
ghost use Rattle.std.specs.Prelude.{◌≡◌, length, take};
ghost use Rattle.std.specs.List.{list_any};
ghost use Rattle.stab_code.specs.Heads.{strict_parts};
ghost use Rattle.stab_types.specs.Rows.{are_given, is_never, one_given, two_given};

use crate::given::Given;
use stab_code::Head;
use type_table::TypeId;

/// Whether one of the first parts is never a value.
pub(crate) fn has_never(parts: &[Given], n: usize) -> bool
    ensures { result ≡ list_any is_never (take n parts.now) }
{
    parts
        .iter()
        .take(n)
        .any(|part| matches!(part, Given::Never))
}

/// Whether a part that must be a value first is never one.
pub(crate) fn stops(head: &Head, parts: &[Given]) -> bool
    ensures { result ≡ list_any is_never (take (strict_parts head.now (length parts.now)) parts.now) }
{
    has_never(parts, head.strict(parts.len()))
}

/// The type of the only part.
pub(crate) fn one(parts: &[Given]) -> Option<TypeId>
    ensures { result ≡ one_given parts.now }
{
    if parts.len() != 1 {
        return None;
    }
    match parts[0] {
        Given::Of(a) => Some(a),
        Given::Never => None,
    }
}

/// The types of the only two parts.
pub(crate) fn two(parts: &[Given]) -> Option<(TypeId, TypeId)>
    ensures { result ≡ two_given parts.now }
{
    if parts.len() != 2 {
        return None;
    }
    match (parts[0], parts[1]) {
        (Given::Of(a), Given::Of(b)) => Some((a, b)),
        _ => None,
    }
}

/// Whether the parts have exactly these types.
pub(crate) fn are(parts: &[Given], wanted: &[TypeId]) -> bool
    ensures { result ≡ are_given parts.now wanted.now }
{
    if parts.len() != wanted.len() {
        return false;
    }
    for i in 0..parts.len() {
        match parts[i] {
            Given::Of(a) => {
                if a != wanted[i] {
                    return false;
                }
            }
            Given::Never => return false,
        }
    }
    true
}
