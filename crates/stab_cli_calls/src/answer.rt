//! What a call answers, in the lines of a table.

use crate::table::{Told, cut};
use std::alloc::{AllocError, Global};

/// The answer, of which the lines that are expected say what is told in which order. A line that the answer hasn't is left out, and
/// its output stands before its exit status.
pub fn answer_of(alloc: Global, expected: &str, told: &Told) -> Result<String, AllocError> {
    let mut answer = String::new(alloc);
    for line in expected.lines() {
        let (word, rest) = cut(line);
        if word == "..." {
            add_begun(&mut answer, expected, told)?;
        } else {
            add(&mut answer, word, rest, told)?;
        }
    }
    Ok(answer)
}

// Adds what the answer has for a line.
fn add(answer: &mut String, word: &str, rest: &str, told: &Told) -> Result<(), AllocError> {
    match word {
        "once" => add_count(answer, rest, told),
        "struck" => add_struck(answer, told),
        "undos" => add_undos(answer, told),
        "events" => add_events(answer, told),
        "weights" => add_weights(answer, told),
        "gate" => {
            let waits = told.waits;
            writeln!(answer, "gate {waits}")
        }
        "resumed" => {
            let resumed = told.resumed.as_str();
            writeln!(answer, "resumed {resumed}")
        }
        "exit" => add_end(answer, told),
        _ => Ok(()),
    }
}

// How often the output has a line.
fn add_count(answer: &mut String, text: &str, told: &Told) -> Result<(), AllocError> {
    let count = told.written.lines().filter(|line| *line == text).count();
    if count == 1 {
        return writeln!(answer, "once {text}");
    }
    writeln!(answer, "{count} times {text}")
}

// The numbers of the struck steps.
fn add_struck(answer: &mut String, told: &Told) -> Result<(), AllocError> {
    answer.push_str("struck")?;
    for line in told.written.lines() {
        if let Some(rest) = line.strip_prefix("- ") {
            answer.push(' ')?;
            answer.push_str(cut(rest).0)?;
        }
    }
    answer.push('\n')
}

fn add_undos(answer: &mut String, told: &Told) -> Result<(), AllocError> {
    let count = told
        .written
        .lines()
        .filter(|line| line.starts_with("! "))
        .count();
    writeln!(answer, "undos {count}")
}

fn add_events(answer: &mut String, told: &Told) -> Result<(), AllocError> {
    let Some(weights) = &told.weights else {
        return answer.push_str("events none\n");
    };
    let count = weights.len();
    writeln!(answer, "events {count}")
}

fn add_weights(answer: &mut String, told: &Told) -> Result<(), AllocError> {
    answer.push_str("weights")?;
    if let Some(weights) = &told.weights {
        for weight in weights {
            write!(answer, " {weight}")?;
        }
    }
    answer.push('\n')
}

// How the call ended, behind its output where no part of that was left out.
fn add_end(answer: &mut String, told: &Told) -> Result<(), AllocError> {
    if !answer.ends_with("...\n") {
        add_output(answer, told)?;
    }
    let status = told.status;
    write!(answer, "exit {status}")?;
    if told.reason.is_empty() {
        return answer.push('\n');
    }
    answer.push(' ')?;
    answer.push_str(told.reason.as_str())
}

fn add_output(answer: &mut String, told: &Told) -> Result<(), AllocError> {
    add_lines(answer, told, usize::MAX)?;
    if !told.written.is_empty() && !told.written.ends_with("\n") {
        answer.push_str("no line feed at the end\n")?;
    }
    Ok(())
}

// As many lines of the output as are expected.
fn add_begun(answer: &mut String, expected: &str, told: &Told) -> Result<(), AllocError> {
    let count = expected.lines().filter(|line| cut(line).0 == "|").count();
    add_lines(answer, told, count)?;
    answer.push_str("...\n")
}

// The first lines of the output.
fn add_lines(answer: &mut String, told: &Told, count: usize) -> Result<(), AllocError> {
    for line in told.written.lines().take(count) {
        answer.push('|')?;
        if !line.is_empty() {
            answer.push(' ')?;
            answer.push_str(line)?;
        }
        answer.push('\n')?;
    }
    Ok(())
}
