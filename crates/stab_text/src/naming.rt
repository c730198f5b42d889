//! The names of faults of texts, and their numbers.
ghost use Rattle.std.specs.Prelude.{◌≡◌};
ghost use Rattle.stab_text.specs.FaultText.{fault_length, fault_name, fault_place, lex_name, lex_place, parse_name, parse_place, scope_name, scope_place};

use crate::fault::TextFault;
use scope_check::ScopeFault;
use stab_lex::LexFault;
use stab_parse::ParseFault;

impl TextFault {
    /// The name by which a reason names the fault.
    pub fn name(self) -> &'static str
        ensures { result.now ≡ fault_name self }
    {
        match self {
            TextFault::Lex(fault) => lex_name(fault),
            TextFault::Parse(fault) => parse_name(fault),
            TextFault::Scope(fault) => scope_name(fault),
        }
    }

    /// The byte that the fault is about, counted from 0, if it is about one.
    pub fn place(self) -> Option<u32>
        ensures { result ≡ fault_place self }
    {
        match self {
            TextFault::Lex(fault) => lex_place(fault),
            TextFault::Parse(fault) => parse_place(fault),
            TextFault::Scope(fault) => scope_place(fault),
        }
    }

    /// The length in bytes of the name that the fault is about, if it is about one.
    pub fn length(self) -> Option<u32>
        ensures { result ≡ fault_length self }
    {
        match self {
            TextFault::Scope(ScopeFault::Twice(_, len) | ScopeFault::Unknown(_, len)) => Some(len),
            _ => None,
        }
    }
}

fn lex_name(fault: LexFault) -> &'static str
    ensures { result.now ≡ lex_name fault }
{
    match fault {
        LexFault::NotUtf8(_) => "NotUtf8",
        LexFault::BadChar(_) => "BadChar",
        LexFault::BigNumber(_) => "BigNumber",
        LexFault::OpenText(_) => "OpenText",
        LexFault::NoMemory => "NoMemory",
    }
}

fn parse_name(fault: ParseFault) -> &'static str
    ensures { result.now ≡ parse_name fault }
{
    match fault {
        ParseFault::Unexpected(_) => "Unexpected",
        ParseFault::EarlyEnd => "EarlyEnd",
        ParseFault::TooNested(_) => "TooNested",
        ParseFault::NoMemory => "NoMemory",
    }
}

fn scope_name(fault: ScopeFault) -> &'static str
    ensures { result.now ≡ scope_name fault }
{
    match fault {
        ScopeFault::NoMain => "NoMain",
        ScopeFault::MainTakes => "MainTakes",
        ScopeFault::Twice(_, _) => "Twice",
        ScopeFault::Unknown(_, _) => "Unknown",
        ScopeFault::Arity(_) => "Arity",
        ScopeFault::TooMany(_) => "TooMany",
        ScopeFault::NoMemory => "NoMemory",
    }
}

fn lex_place(fault: LexFault) -> Option<u32>
    ensures { result ≡ lex_place fault }
{
    match fault {
        LexFault::NotUtf8(at)
        | LexFault::BadChar(at)
        | LexFault::BigNumber(at)
        | LexFault::OpenText(at) => Some(at),
        LexFault::NoMemory => None,
    }
}

fn parse_place(fault: ParseFault) -> Option<u32>
    ensures { result ≡ parse_place fault }
{
    match fault {
        ParseFault::Unexpected(at) | ParseFault::TooNested(at) => Some(at),
        ParseFault::EarlyEnd | ParseFault::NoMemory => None,
    }
}

fn scope_place(fault: ScopeFault) -> Option<u32>
    ensures { result ≡ scope_place fault }
{
    match fault {
        ScopeFault::Twice(at, _)
        | ScopeFault::Unknown(at, _)
        | ScopeFault::Arity(at)
        | ScopeFault::TooMany(at) => Some(at),
        ScopeFault::NoMain | ScopeFault::MainTakes | ScopeFault::NoMemory => None,
    }
}
