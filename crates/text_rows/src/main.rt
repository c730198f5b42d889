//! Reads texts, and prints what they are.
//!
//! The arguments are the names of tables. A table has texts, and what each is to be. Each row of `types.rows` is the text of a
//! program, and `images.rows` has words of its own (`image_rows`). A line of another is empty, or it begins with one of these words,
//! the first of which, up to `put`, are no rows:
//!
//! | line | what it says |
//! |---|---|
//! | `# ..` | something to the reader |
//! | `== NAME` | a name for the rows that follow, which is printed |
//! | `text TEXT` | the text of the rows that follow, without a line feed |
//! | `times N TEXT`, `byte N` | it goes on with this text so many times, or with this byte |
//! | `each N END TEXT` | it goes on with this text for each number from N up to the one before END, which stands for its `#` |
//! | `put PLACE N` | its byte at this place, from 0, is this one |
//! | `missing TEXT` | a text but for the `@` in it, at which a token stands that the grammar doesn't want; one without an `@` ends early |
//! | `fault NAME NUMBERS` | its fault, as a reason writes it, or `none` |
//! | `syntax NAME NUMBERS` | its fault where names may mean anything, or `none` |
//! | `parts NUMBERS` | of its parts from its start that are shorter, those with these lengths have no `main`, and no other one has the syntax of a program |
//! | `count N` | how many forms its syntax has |
//! | `forms ..` | these forms in order, each as a word, and behind a `/` how many parts it has where the word doesn't tell; a block has the names of its lets, and `_` for each other item |
//! | `functions ..` | its functions: the name, the names of the parameters, and how many forms stand up to its end |
//! | `program ..` | how many functions, nodes and texts its program has, and which function is `main` |
//! | `function N ..` | what the function takes and gives, its slots and its body |
//! | `node N ..` | a node's word, what is in it, and its parts; a block's slots, and `_` for each item without one |
//! | `strict N COUNT` | how many of a node's parts are values before it takes a step |
//! | `literal N TEXT` | the characters of a text |
//!
//! Of each row it is printed that the text is so, or else what it is.
#![tactic(auto)]

mod form_words;
mod image_reading;
mod image_rows;
mod meaning;
mod node_words;
mod reading;
mod rows;
mod syntax;
mod typing;

use crate::rows::play;
use std::{env, fs, io};

fn main(rt: HostRuntime) -> io::Result<()> {
    for name in env::args(&rt)?.skip(1) {
        let table = fs::read_to_string(&rt, name.as_str())?;
        match name.as_str() {
            "types.rows" => typing::play(&rt, table.as_str())?,
            "images.rows" => image_rows::play(&rt, table.as_str())?,
            _ => play(&rt, &mut Vec::new(rt.alloc()), table.as_str())?,
        }
    }
    Ok(())
}
