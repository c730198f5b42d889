ghost use Rattle.std.specs.Prelude.{◌≡◌, map};
ghost use Rattle.stab_lex.specs.Kinds.{name_kind, kind_in, reserved_names};
ghost use Rattle.stab_lex.specs.Steps.{of_length};

use crate::kind::Kind;

// The reserved names by their lengths.
const OF_TWO: [(&str, Kind); 2] = [("fn", Kind::KeywordFn), ("if", Kind::KeywordIf)];

const OF_THREE: [(&str, Kind); 9] = [
    ("let", Kind::KeywordLet),
    ("int", Kind::KeywordInt),
    ("ref", Kind::KeywordRef),
    ("get", Kind::KeywordGet),
    ("set", Kind::KeywordSet),
    ("cut", Kind::KeywordCut),
    ("fst", Kind::KeywordFst),
    ("snd", Kind::KeywordSnd),
    ("pin", Kind::KeywordPin),
];

const OF_FOUR: [(&str, Kind); 9] = [
    ("else", Kind::KeywordElse),
    ("true", Kind::KeywordTrue),
    ("unit", Kind::KeywordUnit),
    ("bool", Kind::KeywordBool),
    ("text", Kind::KeywordText),
    ("chan", Kind::KeywordChan),
    ("send", Kind::KeywordSend),
    ("recv", Kind::KeywordRecv),
    ("pick", Kind::KeywordPick),
];

const OF_FIVE: [(&str, Kind); 4] = [
    ("false", Kind::KeywordFalse),
    ("spawn", Kind::KeywordSpawn),
    ("print", Kind::KeywordPrint),
    ("probe", Kind::KeywordProbe),
];

const OF_SIX: [(&str, Kind); 1] = [("stable", Kind::KeywordStable)];

const OF_SEVEN: [(&str, Kind); 1] = [("attempt", Kind::KeywordAttempt)];

const OF_NINE: [(&str, Kind); 1] = [("stabilize", Kind::KeywordStabilize)];

/// What a name is: a reserved one, or one that a program gives.
pub(crate) fn name_kind(name: &[u8]) -> Kind
    ensures { result ≡ name_kind name.now }
{
    kind_in(reserved_of(name.len()), name).unwrap_or(Kind::Name)
}

// The reserved names of a length.
fn reserved_of(length: usize) -> &'static [(&'static str, Kind)]
    ensures { map (λ row. (row.0.now, row.1)) result.now ≡ of_length length reserved_names }
{
    match length {
        2 => &OF_TWO,
        3 => &OF_THREE,
        4 => &OF_FOUR,
        5 => &OF_FIVE,
        6 => &OF_SIX,
        7 => &OF_SEVEN,
        9 => &OF_NINE,
        _ => &[],
    }
}

// The kind that the table has for the spelling.
fn kind_in(table: &[(&str, Kind)], spelling: &[u8]) -> Option<Kind>
    ensures { result ≡ kind_in (map (λ row. (row.0.now, row.1)) table.now) spelling.now }
{
    for (text, kind) in table {
        if text.as_bytes() == spelling {
            return Some(*kind);
        }
    }
    None
}
