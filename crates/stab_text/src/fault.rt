ghost use Rattle.std.specs.Prelude.{◌≡◌, ◌↔◌, IsTrue};
ghost use Rattle.stab_text.specs.declared.fault.TextFault.TheVariants.{Lex, Parse, Scope};
ghost use Rattle.stab_text.specs.Text.{IsNoMemory};

use scope_check::ScopeFault;
use stab_lex::LexFault;
use stab_parse::ParseFault;

/// Why bytes aren't the text of a program.
#[derive(Clone, Copy, Debug, PartialEq, Eq)]
pub enum TextFault {
    /// They aren't tokens.
    Lex(LexFault),
    /// Their tokens aren't the syntax of a program.
    Parse(ParseFault),
    /// Their syntax has a fault of names, such as one that isn't in scope, or too many functions, texts or variables.
    Scope(ScopeFault),
}

impl TextFault {
    /// Whether memory ran out, which says nothing of the bytes.
    pub fn is_no_memory(self) -> bool
        ensures { IsTrue result ↔ IsNoMemory self }
    {
        matches!(
            self,
            TextFault::Lex(LexFault::NoMemory)
                | TextFault::Parse(ParseFault::NoMemory)
                | TextFault::Scope(ScopeFault::NoMemory)
        )
    }
}

impl From<LexFault> for TextFault {
    ghost from_gives = { λ fault text. text ≡ Lex fault };

    fn from(fault: LexFault) -> TextFault {
        TextFault::Lex(fault)
    }
}

impl From<ParseFault> for TextFault {
    ghost from_gives = { λ fault text. text ≡ Parse fault };

    fn from(fault: ParseFault) -> TextFault {
        TextFault::Parse(fault)
    }
}

impl From<ScopeFault> for TextFault {
    ghost from_gives = { λ fault text. text ≡ Scope fault };

    fn from(fault: ScopeFault) -> TextFault {
        TextFault::Scope(fault)
    }
}
