ghost use Rattle.std.specs.Prelude.{◌≡◌, List, [], ◌∷◌};
ghost use Rattle.stab_lex.specs.Kinds.{mark_kind};

use crate::kind::Kind;

/// The mark that these two characters are.
pub(crate) fn double_mark(first: char, second: char) -> Option<Kind>
    ensures { result ≡ mark_kind (first ∷ second ∷ []) }
{
    match (first, second) {
        ('=', '=') => Some(Kind::EqualEqual),
        ('!', '=') => Some(Kind::NotEqual),
        ('<', '=') => Some(Kind::LessEqual),
        ('>', '=') => Some(Kind::GreaterEqual),
        ('&', '&') => Some(Kind::AndAnd),
        ('|', '|') => Some(Kind::OrOr),
        _ => None,
    }
}

/// The mark that this character is.
pub(crate) fn single_mark(only: char) -> Option<Kind>
    ensures { result ≡ mark_kind (only ∷ []) }
{
    match only {
        '(' => Some(Kind::OpenParen),
        ')' => Some(Kind::CloseParen),
        '{' => Some(Kind::OpenBrace),
        '}' => Some(Kind::CloseBrace),
        '[' => Some(Kind::OpenBracket),
        ']' => Some(Kind::CloseBracket),
        ',' => Some(Kind::Comma),
        ';' => Some(Kind::Semicolon),
        ':' => Some(Kind::Colon),
        '=' => Some(Kind::Equal),
        '+' => Some(Kind::Plus),
        '-' => Some(Kind::Minus),
        '*' => Some(Kind::Star),
        '/' => Some(Kind::Slash),
        '%' => Some(Kind::Percent),
        '<' => Some(Kind::LessThan),
        '>' => Some(Kind::GreaterThan),
        '!' => Some(Kind::Not),
        _ => None,
    }
}
