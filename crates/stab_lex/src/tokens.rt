ghost use Rattle.std.specs.Prelude.{◌≡◌, ◌≤◌, ◌^◌, ◌++◌, ◌⊎◌, length, IfOk, IfErr, OnOk};
ghost use Rattle.std.specs.List.{AllByRecursion};
ghost use Rattle.std.specs.Str.{IsUtf8};
ghost use Rattle.stab_lex.specs.Limits.{max_text};
ghost use Rattle.stab_lex.specs.Readings.{Reads, HasFault, InOrder, IsSlice, IsBlocked, token_of};

use crate::cursor::Cursor;
use crate::kind::Kind;
use crate::piece::piece;
use crate::token::{LexFault, Token};
use std::alloc::Global;
use std::str;

/// The tokens of a program's text, in order.
pub fn lex(alloc: Global, bytes: &[u8]) -> Result<Vec<Token>, LexFault>
    requires { length bytes.now ≤ max_text }
    ensures read { IfOk result (λ tokens. Reads bytes.now tokens.items) }
    ensures fault { IfErr result (λ fault. (fault ≡ LexFault.NoMemory) ⊎ HasFault bytes.now fault) }

    // What follows from the reading.
    ensures order { IfOk result (λ tokens. InOrder 0 tokens.items (length bytes.now)) }
    ensures slices { IfOk result (λ tokens. AllByRecursion (IsSlice bytes.now) tokens.items) }
{
    match str::from_utf8(bytes) {
        Ok(text) => text_tokens(alloc, text),
        Err(error) => Err(LexFault::NotUtf8(error.valid_up_to() as u32)),
    }
}

fn text_tokens(alloc: Global, text: &str) -> Result<Vec<Token>, LexFault>
    requires { length text.now ≤ max_text }
    ensures read { IfOk result (λ tokens. Reads text.now tokens.items) }
    ensures fault { IfErr result (λ fault. (fault ≡ LexFault.NoMemory) ⊎ IsBlocked text.now fault) }
{
    let mut tokens = Vec::new(alloc);
    let mut cursor = Cursor::new(text);
    while let Some(first) = cursor.peek() {
        let start = cursor.at();
        let kind = piece(&mut cursor, first)?;
        push_token(&mut tokens, kind, start, cursor.at())?;
    }
    Ok(tokens)
}

fn push_token(
    tokens: &mut Vec<Token>,
    kind: Option<Kind>,
    start: u32,
    end: u32,
) -> Result<(), LexFault>
    ensures ok { OnOk result (tokens.new.items ≡ tokens.old.items ++ token_of kind start end) }
    ensures fault { IfErr result (λ fault. fault ≡ LexFault.NoMemory) }
{
    if let Some(kind) = kind {
        tokens.push(Token { kind, start, end })?;
    }
    Ok(())
}
