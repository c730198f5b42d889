//! The program `stab`: its arguments are the words, standard output is the sink, and the numbers that `serve` is given come on standard
//! input.
#![tactic(auto)]

use number_source::InputSource;
use stab_files::{DiskFiles, OutSink};
use stab_top::command;
use std::env::Env;
use std::process::ExitCode;
use std::{env, io};

fn main(rt: HostRuntime) -> ExitCode {
    let mut files = DiskFiles::new(&rt);
    let mut numbers = None;
    if asks_to_serve(&rt) {
        numbers = InputSource::new(&rt, rt.alloc(), rt.stdin()).ok();
    }
    let mut output = OutSink::new(io::writer(&rt));
    let mut errors = OutSink::new(rt.stderr());
    let args = env::args(&rt);
    ExitCode::from(command(
        &rt,
        rt.alloc(),
        args,
        &mut files,
        &mut numbers,
        &mut output,
        &mut errors,
    ))
}

// Whether the first word is `serve`. For no other command a thread is made that reads standard input.
fn asks_to_serve<R: Env + AllocGlobal>(rt: &R) -> bool {
    match env::args(rt) {
        Ok(mut args) => args.nth(1).is_some_and(|word| word.as_str() == "serve"),
        Err(_) => false,
    }
}
