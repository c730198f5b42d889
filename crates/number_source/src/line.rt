//! A line of an input, of which a part was read.
ghost use Rattle.std.specs.Prelude.{◌≡◌, ℕ, List, [], ◌∷◌, IfOk};
ghost use Rattle.number_source.specs.Input.{answers_on, followed, line_answer};

use crate::came::Came;
use probe_text::number_of;
use stab_base::NoMemory;
use std::alloc::Global;
use std::marker::Model;
use text_lines::Lines;

/// How many bytes a line may have before its line feed: as many as a whole probe file.
const LONGEST: usize = 1_048_576;

/// What was read of a line, and the place of its first byte in the input, up to the greatest u64.
#[derive(Drop)]
pub(crate) struct Line {
    at: u64,
    held: Vec<u8>,
}

impl Model for Line {
    ghost use Rattle.std.specs.Prelude.{◌≤◌, vec_len, vec_capacity};
    ghost use Rattle.number_source.specs.Input.{LinePart, longest};

    ghost Value = { LinePart };

    ghost view = { λ s. record { at = s.at; held = s.held.items } };

    ghost invariant = { λ s. (vec_len s.held ≤ longest) × (longest ≤ vec_capacity s.held) };
}

impl Line {
    /// The first line of an input, nothing of which was read. Its memory is taken here.
    pub(crate) fn new(alloc: Global) -> Result<Line, NoMemory>
        ensures { IfOk result (λ line. line ≡ record { at = 0; held = [] }) }
    {
        Ok(Line {
            at: 0,
            held: Vec::with_capacity(alloc, LONGEST)?,
        })
    }

    /// Reads one byte more. The answer is what it makes known: that of the line which it ends, that the line is too long, or
    /// nothing.
    pub(crate) fn take(&mut self, byte: u8) -> Came
        ensures { (rest : List ℕ) → answers_on self.old (byte ∷ rest) ≡ followed result (answers_on self.new rest) }
    {
        if byte == b'\n' {
            let answer = self.answer();
            self.at = self.at.saturating_add(self.held.len() as u64 + 1);
            self.held.clear();
            return answer;
        }
        if self.held.len() == LONGEST {
            return Came::Bad(self.at);
        }
        self.held.push(byte).unwrap();
        Came::Nothing
    }

    /// The input ends within the line. The answer is the line's.
    pub(crate) fn end(&self) -> Came
        ensures { answers_on self.now [] ≡ followed result (Came.End ∷ []) }
    {
        self.answer()
    }

    // What the line says, if it ends here.
    fn answer(&self) -> Came
        ensures { result ≡ line_answer self.now.at self.now.held }
    {
        match Lines::new(&self.held).next() {
            None => Came::Nothing,
            Some(line) => match number_of(line.text) {
                Some(number) => Came::Number(number),
                None => Came::Bad(self.at),
            },
        }
    }
}
