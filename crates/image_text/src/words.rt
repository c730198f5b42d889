//! The words of a line.
ghost use Rattle.std.specs.Prelude.{◌≡◌, ◌++◌, ◌∷◌, [], ◌&&◌, IfOk, OnOk, option_map, option_copied};
ghost use Rattle.image_text.specs.Pieces.{pieces_left};
ghost use Rattle.image_text.specs.Reading.{reading};
ghost use Rattle.image_text.specs.Seen.{seen};

use crate::filling::{Filled, first_word};
use expression_text::Word;
use stab_base::NoMemory;
use std::alloc::Global;

/// The words of a line. Where a number can't be read, another one stands in its word.
#[derive(Drop)]
pub struct Words {
    pub words: Vec<Word>,
    /// Whether each number could be read that says how many parts or items follow.
    pub counted: bool,
    /// Whether each number could be read.
    pub whole: bool,
}

/// The words that the rest of a line is, each behind a blank, if each has its name and as many numbers as it wants.
pub fn words_in(alloc: Global, line: Option<&[u8]>) -> Result<Option<Words>, NoMemory>
    ensures { IfOk result (λ o. option_map seen o ≡ reading (pieces_left (option_copied line.entry))) }
{
    let mut found = Words {
        words: Vec::new(alloc),
        counted: true,
        whole: true,
    };
    let mut left = line;
    while left.is_some() {
        let Some((filled, rest)) = first_word(left) else {
            return Ok(None);
        };
        found.add(filled)?;
        left = rest;
    }
    Ok(Some(found))
}

impl Words {
    // Adds a word.
    fn add(&mut self, filled: Filled) -> Result<(), NoMemory>
        ensures words { OnOk result (self.new.words.items ≡ self.old.words.items ++ filled.word ∷ []) }
        ensures counted { OnOk result (self.new.counted ≡ (self.old.counted && filled.counted)) }
        ensures whole { OnOk result (self.new.whole ≡ (self.old.whole && filled.whole)) }
    {
        self.words.push(filled.word)?;
        self.counted = self.counted && filled.counted;
        self.whole = self.whole && filled.whole;
        Ok(())
    }
}
