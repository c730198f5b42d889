//! The programs of texts in words.

use crate::node_words::{add_head, add_type};
use crate::reading::program_of;
use crate::rows::cut;
use stab_base::{FnId, TextId};
use stab_code::{NodeId, Program};
use std::alloc::{AllocError, Global};
use std::str;

/// What the word asks for of the text's program.
pub fn of_program(
    alloc: Global,
    text: &[u8],
    word: &str,
    rest: &str,
) -> Result<String, AllocError> {
    match program_of(alloc, text) {
        Ok(program) => told(alloc, word, rest, &program),
        Err(_) => String::from_str(alloc, "no program"),
    }
}

fn told(alloc: Global, word: &str, rest: &str, program: &Program) -> Result<String, AllocError> {
    let mut line = String::from_str(alloc, word)?;
    add(&mut line, word, rest, program)?;
    Ok(line)
}

fn add(line: &mut String, word: &str, rest: &str, program: &Program) -> Result<(), AllocError> {
    if word == "program" {
        return add_program(line, program);
    }
    let Ok(number) = cut(rest).0.parse::<u32>() else {
        return line.push_str(": no such row");
    };
    write!(line, " {number}")?;
    match word {
        "function" => add_function(line, program, number),
        "node" => add_node(line, program, number),
        "strict" => add_strict(line, program, number),
        "literal" => add_literal(line, program, number),
        _ => line.push_str(": no such row"),
    }
}

fn add_program(line: &mut String, program: &Program) -> Result<(), AllocError> {
    let functions = program.functions();
    let main = program.main().0;
    let nodes = nodes(program);
    let texts = program.texts().len();
    write!(
        line,
        " functions {functions} main {main} nodes {nodes} texts {texts}"
    )
}

// How many nodes there are.
fn nodes(program: &Program) -> u32 {
    for number in 0..u32::MAX {
        if program.node(NodeId(number)).is_none() {
            return number;
        }
    }
    u32::MAX
}

fn add_function(line: &mut String, program: &Program, number: u32) -> Result<(), AllocError> {
    let Some(function) = program.function(FnId(number)) else {
        return line.push_str(" none");
    };
    for ty in function.takes() {
        line.push_str(" takes ")?;
        add_type(line, ty.form())?;
    }
    line.push_str(" gives ")?;
    add_type(line, function.gives().form())?;
    let slots = function.slots();
    let body = function.body().0;
    write!(line, " slots {slots} body {body}")
}

fn add_node(line: &mut String, program: &Program, number: u32) -> Result<(), AllocError> {
    let Some(node) = program.node(NodeId(number)) else {
        return line.push_str(" none");
    };
    line.push(' ')?;
    add_head(line, node.head())?;
    for part in node.parts() {
        let part = part.0;
        write!(line, " {part}")?;
    }
    Ok(())
}

fn add_strict(line: &mut String, program: &Program, number: u32) -> Result<(), AllocError> {
    let Some(node) = program.node(NodeId(number)) else {
        return line.push_str(" none");
    };
    let strict = node.strict();
    write!(line, " {strict}")
}

fn add_literal(line: &mut String, program: &Program, number: u32) -> Result<(), AllocError> {
    let Some(characters) = program.texts().get(TextId(number)) else {
        return line.push_str(" none");
    };
    if characters.is_empty() {
        return Ok(());
    }
    line.push(' ')?;
    line.push_str(str::from_utf8(characters).unwrap_or("no characters"))
}
