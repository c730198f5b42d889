//! The syntax of texts in words.

use crate::form_words::add_form;
use crate::reading::syntax_of;
use stab_parse::{Function, Span, Tree};
use std::alloc::{AllocError, Global};
use std::str;

/// What the word asks for of the text's syntax.
pub fn of_syntax(alloc: Global, text: &[u8], word: &str) -> Result<String, AllocError> {
    match syntax_of(alloc, text) {
        Ok(tree) => told(alloc, text, word, &tree),
        Err(_) => String::from_str(alloc, "no syntax"),
    }
}

fn told(alloc: Global, text: &[u8], word: &str, tree: &Tree) -> Result<String, AllocError> {
    let mut line = String::from_str(alloc, word)?;
    match word {
        "count" => {
            let count = tree.forms.all().len();
            write!(line, " {count}")?;
        }
        "forms" => {
            for form in tree.forms.all() {
                line.push(' ')?;
                add_form(&mut line, text, form)?;
            }
        }
        _ => {
            for function in tree.functions.all() {
                line.push(' ')?;
                add_function(&mut line, text, function)?;
            }
        }
    }
    Ok(line)
}

// A function as its name, the names of its parameters, and how many forms stand up to its end.
fn add_function(line: &mut String, text: &[u8], function: &Function) -> Result<(), AllocError> {
    line.push_str(spelled(text, function.name))?;
    for param in function.params.all() {
        line.push(':')?;
        line.push_str(spelled(text, param.name))?;
    }
    let end = function.forms_end;
    write!(line, "/{end}")
}

/// What stands there.
pub fn spelled(text: &[u8], span: Span) -> &str {
    let piece = text.get(span.start as usize..span.end as usize);
    str::from_utf8(piece.unwrap_or(b"")).unwrap_or("")
}
