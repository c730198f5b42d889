//! Prints of the text of each row whether it is a typed program, or the number of the first function that isn't.

use stab_base::FnId;
use stab_text::read_program;
use stab_types::{TypeFault, check_types};
use std::alloc::Global;
use std::io::{self, Error, ErrorKind};
use std::sync::Arc;

/// Prints of each row, which is a text, what it is.
pub fn play<R: AllocGlobal + Print>(rt: &R, table: &str) -> io::Result<()> {
    for line in table.lines() {
        let told = told(rt.alloc(), line)?;
        println!(rt; "{told} <- {line}")?;
    }
    Ok(())
}

fn told(alloc: Global, text: &str) -> io::Result<String> {
    if text.len() > 1_048_576 {
        return Ok(String::from_str(alloc, "long")?);
    }
    let Ok(program) = read_program(alloc, text.as_bytes()) else {
        return Ok(String::from_str(alloc, "no program")?);
    };
    let Ok(program) = Arc::new(alloc, program) else {
        return Err(Error::from(ErrorKind::OutOfMemory));
    };
    match check_types(alloc, &program) {
        Ok(_typed) => Ok(String::from_str(alloc, "typed")?),
        Err(TypeFault::Untyped(FnId(f))) => Ok(format!(in alloc; "untyped {f}")?),
        Err(TypeFault::NoMemory) => Err(Error::from(ErrorKind::OutOfMemory)),
    }
}
