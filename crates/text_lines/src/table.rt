//! Tables of words.
ghost use Rattle.std.specs.Prelude.{◌≡◌, map};
ghost use Rattle.text_lines.specs.Table.{named_in};

/// What the first row of the table that is named by the word says.
pub fn named_in<T: Copy>(table: &[(&str, T)], word: &[u8]) -> Option<T>
    ensures { result ≡ named_in (map (λ row. (row.0.now, row.1)) table.now) word.now }
{
    for (name, value) in table {
        if name.as_bytes() == word {
            return Some(*value);
        }
    }
    None
}
