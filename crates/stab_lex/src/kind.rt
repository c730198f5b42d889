/// What a token is.
#[derive(Clone, Copy, Debug, PartialEq, Eq)]
pub enum Kind {
    /// A name that isn't reserved.
    Name,
    /// A run of decimal digits, with its value.
    Number(u64),
    /// A text between quotes.
    Text,
    KeywordFn,
    KeywordLet,
    KeywordIf,
    KeywordElse,
    KeywordTrue,
    KeywordFalse,
    KeywordUnit,
    KeywordBool,
    KeywordInt,
    KeywordText,
    KeywordChan,
    KeywordRef,
    KeywordGet,
    KeywordSet,
    KeywordSend,
    KeywordRecv,
    KeywordPick,
    KeywordSpawn,
    KeywordStable,
    KeywordStabilize,
    KeywordCut,
    KeywordPrint,
    KeywordProbe,
    KeywordFst,
    KeywordSnd,
    KeywordPin,
    KeywordAttempt,
    /// `==`
    EqualEqual,
    /// `!=`
    NotEqual,
    /// `<=`
    LessEqual,
    /// `>=`
    GreaterEqual,
    /// `&&`
    AndAnd,
    /// `||`
    OrOr,
    /// `(`
    OpenParen,
    /// `)`
    CloseParen,
    /// `{`
    OpenBrace,
    /// `}`
    CloseBrace,
    /// `[`
    OpenBracket,
    /// `]`
    CloseBracket,
    /// `,`
    Comma,
    /// `;`
    Semicolon,
    /// `:`
    Colon,
    /// `=`
    Equal,
    /// `+`
    Plus,
    /// `-`
    Minus,
    /// `*`
    Star,
    /// `/`
    Slash,
    /// `%`
    Percent,
    /// `<`
    LessThan,
    /// `>`
    GreaterThan,
    /// `!`
    Not,
}
