//! The marks and words of a trace, and how many numbers follow each word.
ghost use Rattle.std.specs.Prelude.{◌≡◌, ◌≤◌, length};
ghost use Rattle.trace_text.specs.Form.{arity, fits, header_named, sign_named, sign_text, verb_named, verb_text};

use text_lines::named_in;

/// The first line of a trace.
#[derive(Clone, Copy, PartialEq, Eq)]
pub enum Header {
    /// `stab trace 1`, of a trace without releases.
    First,
    /// `stab trace 2`.
    Second,
}

/// What a line of an event begins with.
#[derive(Clone, Copy, PartialEq, Eq)]
pub enum Sign {
    /// A step that isn't struck.
    Live,
    /// A step that is struck.
    Struck,
    /// An undo.
    Undone,
    /// A release.
    Released,
}

/// The word that says what an event is.
#[derive(Clone, Copy, PartialEq, Eq)]
pub enum Verb {
    Local,
    Spawn,
    NewChan,
    Comm,
    NewRef,
    Get,
    Set,
    Enter,
    Cut,
    Print,
    Probe,
    Refuse,
    Pin,
    Attempt,
    Undo,
    Release,
}

const VERBS: [(&str, Verb); 16] = [
    ("local", Verb::Local),
    ("spawn", Verb::Spawn),
    ("newchan", Verb::NewChan),
    ("comm", Verb::Comm),
    ("newref", Verb::NewRef),
    ("get", Verb::Get),
    ("set", Verb::Set),
    ("enter", Verb::Enter),
    ("cut", Verb::Cut),
    ("print", Verb::Print),
    ("probe", Verb::Probe),
    ("refuse", Verb::Refuse),
    ("pin", Verb::Pin),
    ("attempt", Verb::Attempt),
    ("undo", Verb::Undo),
    ("release", Verb::Release),
];

const HEADERS: [(&str, Header); 2] = [
    ("stab trace 2", Header::Second),
    ("stab trace 1", Header::First),
];

const SIGNS: [(&str, Sign); 4] = [
    ("+", Sign::Live),
    ("-", Sign::Struck),
    ("!", Sign::Undone),
    ("=", Sign::Released),
];

/// The header that this line is.
pub fn header_named(line: &[u8]) -> Option<Header>
    ensures { result ≡ header_named line.now }
{
    named_in(&HEADERS, line)
}

/// The sign that a word is.
pub fn sign_named(word: &[u8]) -> Option<Sign>
    ensures { result ≡ sign_named word.now }
{
    named_in(&SIGNS, word)
}

/// What the word says.
pub fn verb_named(word: &[u8]) -> Option<Verb>
    ensures { result ≡ verb_named word.now }
{
    named_in(&VERBS, word)
}

impl Verb {
    /// The word.
    pub fn text(self) -> &'static str
        ensures text { result.now ≡ verb_text self }
        ensures short { length result.now ≤ 7 }
    {
        match self {
            Verb::Local => "local",
            Verb::Spawn => "spawn",
            Verb::NewChan => "newchan",
            Verb::Comm => "comm",
            Verb::NewRef => "newref",
            Verb::Get => "get",
            Verb::Set => "set",
            Verb::Enter => "enter",
            Verb::Cut => "cut",
            Verb::Print => "print",
            Verb::Probe => "probe",
            Verb::Refuse => "refuse",
            Verb::Pin => "pin",
            Verb::Attempt => "attempt",
            Verb::Undo => "undo",
            Verb::Release => "release",
        }
    }

    /// How many numbers follow the word.
    pub fn arity(self) -> usize
        ensures { result ≡ arity self }
    {
        match self {
            Verb::Comm => 3,
            Verb::Local
            | Verb::Spawn
            | Verb::NewChan
            | Verb::NewRef
            | Verb::Get
            | Verb::Set
            | Verb::Probe
            | Verb::Attempt
            | Verb::Undo => 2,
            Verb::Enter | Verb::Cut | Verb::Print | Verb::Refuse | Verb::Pin | Verb::Release => 1,
        }
    }
}

impl Sign {
    /// The mark.
    pub fn text(self) -> &'static str
        ensures text { result.now ≡ sign_text self }
        ensures short { length result.now ≤ 1 }
    {
        match self {
            Sign::Live => "+",
            Sign::Struck => "-",
            Sign::Undone => "!",
            Sign::Released => "=",
        }
    }

    /// Whether the sign may come before this word under the header.
    pub fn fits(self, header: Header, verb: Verb) -> bool
        ensures { result ≡ fits verb self header }
    {
        match verb {
            Verb::Undo => self == Sign::Undone,
            Verb::Release => self == Sign::Released && header == Header::Second,
            _ => matches!(self, Sign::Live | Sign::Struck),
        }
    }
}
