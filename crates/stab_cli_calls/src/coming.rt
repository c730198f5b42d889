//! What comes to a served program, in short.

use number_source::Came;
use std::alloc::AllocError;

/// Adds what these words say to the plan, and says whether all of them are such words.
pub fn add_coming(plan: &mut Vec<Came>, words: &str) -> Result<bool, AllocError> {
    for word in words.split(' ') {
        let Some(answer) = answer_in(word) else {
            return Ok(false);
        };
        plan.push(answer)?;
    }
    Ok(true)
}

fn answer_in(word: &str) -> Option<Came> {
    match word {
        "gap" => Some(Came::Nothing),
        "end" => Some(Came::End),
        "fails" => Some(Came::Failed),
        _ => number_in(word),
    }
}

// A number, or `bad@` and the place of a line that is none.
fn number_in(word: &str) -> Option<Came> {
    match word.strip_prefix("bad@") {
        Some(place) => match place.parse::<u64>() {
            Ok(at) => Some(Came::Bad(at)),
            Err(_) => None,
        },
        None => match word.parse::<i64>() {
            Ok(number) => Some(Came::Number(number)),
            Err(_) => None,
        },
    }
}
