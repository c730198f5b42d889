//! Reading the tokens of a program.
ghost use Rattle.std.specs.Prelude.{◌≡◌, ◌⊎◌, IfOk, IfErr};
ghost use Rattle.stab_parse.specs.Faults.{HasFault, IsParsed};
ghost use Rattle.stab_parse.specs.Whole.{EndsWrong, IsWhole};
ghost use Rattle.stab_parse.specs.FormList.{IsTreeOf};
ghost use Rattle.stab_parse.specs.Grammar.{Program};
ghost use Rattle.stab_parse.specs.Moves.{Goes, Opens, did, outcome};

use crate::fault::ParseFault;
use crate::frame::{Phase, Stack};
use crate::reader::Reader;
use crate::tree::{Forms, Functions, Tree};
use stab_lex::Token;
use std::alloc::Global;

/// Whether a token is allowed where it is.
#[derive(Clone, Copy)]
pub enum Admission {
    Refused,
    Goes,
    /// The token opens something.
    Opens,
}

/// What was read so far, and what was read last.
#[derive(Drop)]
pub struct Parser {
    pub reader: Reader,
    pub phase: Phase,
}

impl Parser {
    /// The token is allowed here, and what was read last is then this.
    #[inline(always)]
    pub(crate) fn goes(&mut self, next: Phase) -> Admission
        ensures { did result self.new ≡ outcome (Goes next) self.old.reader }
    {
        self.phase = next;
        Admission::Goes
    }

    /// The token opens something, and what was read last is then this.
    #[inline(always)]
    pub(crate) fn opens(&mut self, next: Phase) -> Admission
        ensures { did result self.new ≡ outcome (Opens next) self.old.reader }
    {
        self.phase = next;
        Admission::Opens
    }
}

/// The syntax of a program from its tokens. The bytes are those that the tokens were read from: names and texts stay
/// places in them.
pub fn parse(alloc: Global, tokens: &[Token], _bytes: &[u8]) -> Result<Tree, ParseFault>
    ensures parsed { IfOk result (λ tree. (program : Program) × IsParsed tokens.now program × IsTreeOf tree program) }
    ensures fault { IfErr result (λ fault. (fault ≡ ParseFault.NoMemory) ⊎ HasFault tokens.now fault) }
{
    let forms = Forms::with_capacity(alloc, tokens.len())?;
    let mut parser = Parser {
        reader: Reader {
            frames: Stack::new(alloc),
            forms,
            functions: Functions::new(alloc),
            too_deep: None,
        },
        phase: Phase::Between,
    };
    for token in tokens {
        parser.advance(alloc, token)?;
    }
    tree_of(parser)
}

/// What was read, where the tokens end.
fn tree_of(parser: Parser) -> Result<Tree, ParseFault>
    ensures tree { IfOk result (IsWhole parser) }
    ensures fault { IfErr result (EndsWrong parser) }
{
    let Parser { reader, phase } = parser;
    let Phase::Between = phase else {
        return Err(ParseFault::EarlyEnd);
    };
    if let Some(at) = reader.too_deep {
        return Err(ParseFault::TooNested(at));
    }
    let Reader {
        frames: _,
        forms,
        functions,
        too_deep: _,
    } = reader;
    Ok(Tree { functions, forms })
}
