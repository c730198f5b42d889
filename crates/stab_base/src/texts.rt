//! The texts of a program.
ghost use Rattle.std.specs.Prelude.{◌≡◌, ◌↔◌, [], length, map, slice_get, IsTrue};
ghost use Rattle.std.specs.Option.{option_copied};

use crate::numbers::TextId;
use std::marker::Model;

/// The bytes of each text of a program, by the text's number. Contracts see it as a list of byte lists.
#[derive(Drop)]
pub struct Texts {
    texts: Vec<Vec<u8>>,
}

impl Model for Texts {
    ghost use Rattle.std.specs.Prelude.{ℕ, List, map};

    ghost Value = { List (List ℕ) };

    ghost view = { λ t. map (λ text. text.items) t.texts.items };
}

impl Texts {
    /// The texts in the order of their numbers.
    pub fn new(texts: Vec<Vec<u8>>) -> Texts
        ensures { result ≡ map (λ text. text.items) texts.items }
    {
        Texts { texts }
    }

    /// How many texts there are.
    pub fn len(&self) -> usize
        ensures { result ≡ length self.now }
    {
        self.texts.len()
    }

    /// Whether there is no text.
    pub fn is_empty(&self) -> bool
        ensures { IsTrue result ↔ (self.now ≡ []) }
    {
        self.texts.is_empty()
    }

    /// The bytes of a text.
    pub fn get(&self, t: TextId) -> Option<&[u8]>
        ensures { option_copied result ≡ slice_get self.now t.0 }
    {
        let text = self.texts.get(t.0 as usize)?;
        Some(text.as_slice())
    }

    /// Whether two lists of texts are equal.
    pub fn same(&self, other: &Texts) -> bool
        ensures { IsTrue result ↔ (self.now ≡ other.now) }
    {
        self.texts == other.texts
    }
}
