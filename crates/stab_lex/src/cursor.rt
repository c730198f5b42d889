ghost use Rattle.std.specs.Prelude.{◌≡◌, ℕ, ◌+◌, ◌<◌, ◌≤◌, ◌^◌, List, [], ◌∷◌, MatchOption, length, IsTrue, ◌↔◌, encode_utf8_all};
ghost use Rattle.std.specs.Str.{chars, is_utf8};
ghost use Rattle.std.specs.List.{slice_get};
ghost use Rattle.stab_lex.specs.Place.{Place, Leads};

use std::marker::Model;

/// A place in a text of at most 1,048,576 bytes.
#[derive(Drop)]
pub(crate) struct Cursor<'a> {
    rest: &'a str,
    at: u32,
}

impl<'a> Model for Cursor<'a> {
    ghost Value = { Place };

    ghost view = { λ c. record { at = c.at; rest = chars c.rest.now } };

    ghost invariant = { λ c. (c.at + length c.rest.now ≤ 2 ^ 20) × IsTrue (is_utf8 c.rest.now) };
}

impl<'a> Cursor<'a> {
    /// The start of the text.
    pub(crate) fn new(text: &'a str) -> Cursor<'a>
        requires { length text.now ≤ 2 ^ 20 }
        ensures { result ≡ record { at = 0; rest = chars text.now } }
    {
        Cursor { rest: text, at: 0 }
    }

    /// How many bytes come before the place.
    pub(crate) fn at(&self) -> u32
        ensures { result ≡ self.now.at }
    {
        self.at
    }

    /// The bytes from the place on.
    pub(crate) fn bytes(&self) -> &'a [u8]
        ensures { result.now ≡ encode_utf8_all self.now.rest }
    {
        self.rest.as_bytes()
    }

    /// The next character.
    pub(crate) fn peek(&self) -> Option<char>
        ensures { result ≡ slice_get self.now.rest 0 }
    {
        self.rest.chars().next()
    }

    /// Goes past the next character.
    pub(crate) fn bump(&mut self) -> Option<char>
        ensures { MatchOption result ((self.old.rest ≡ []) × (self.new ≡ self.old))
            (λ c. Leads (c ∷ []) self.old self.new) }
    {
        let mut chars = self.rest.chars();
        let next = chars.next()?;
        self.rest = chars.as_str();
        self.at += next.len_utf8() as u32;
        Some(next)
    }
}
