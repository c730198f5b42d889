//! Tables of words with what they ask for, or their fault.
//! The words of a line stand between single spaces, so two in a row have an empty word between them.

use super::is;
use stab_words::{Name, Request, RunArgs, WordFault, read_words};
use std::alloc::{AllocError, Global};
use std::test::Fail;

// What a line of words asks for, or its fault with the word's number.
fn answer(alloc: Global, line: &str) -> Result<String, Fail> {
    let text = match read_words(alloc, &words(alloc, line)?) {
        Ok(request) => request_text(alloc, &request)?,
        Err(fault) => fault_text(alloc, fault)?,
    };
    Ok(text)
}

fn words(alloc: Global, line: &str) -> Result<Vec<String>, AllocError> {
    let mut words = Vec::new(alloc);
    for word in line.split(' ') {
        words.push(String::from_str(alloc, word)?)?;
    }
    Ok(words)
}

fn fault_text(alloc: Global, fault: WordFault) -> Result<String, AllocError> {
    let name = fault.name();
    match fault.word() {
        Some(word) => format!(in alloc; "{name} {word}"),
        None => format!(in alloc; "{name}"),
    }
}

fn run_text(alloc: Global, command: &str, run: &RunArgs) -> Result<String, AllocError> {
    let (file, probes) = (run.file.as_str(), probes_text(&run.probes));
    let (workers, fuel, quantum) = (run.workers, run.fuel, run.quantum);
    format!(in alloc; "{command} {file} {probes} {workers} {fuel} {quantum}")
}

fn probes_text(probes: &Option<Name>) -> &str {
    match probes {
        Some(name) => name.as_str(),
        None => ".",
    }
}

// The command, the places, and the options in the order probes, workers, fuel and quantum, with `.` where no probes are given.
fn request_text(alloc: Global, request: &Request) -> Result<String, AllocError> {
    match request {
        Request::Run(run) => run_text(alloc, "run", run),
        Request::Trace(run) => run_text(alloc, "trace", run),
        Request::Watch(run) => run_text(alloc, "watch", run),
        Request::Verify(args) => {
            let (file, trace) = (args.file.as_str(), args.trace.as_str());
            let probes = probes_text(&args.probes);
            format!(in alloc; "verify {file} {trace} {probes}")
        }
        Request::Drill(args) => {
            let (file, script) = (args.file.as_str(), args.script.as_str());
            let (probes, fuel, quantum) = (probes_text(&args.probes), args.fuel, args.quantum);
            format!(in alloc; "drill {file} {script} {probes} {fuel} {quantum}")
        }
        Request::Check(name) => {
            let name = name.as_str();
            format!(in alloc; "check {name}")
        }
        Request::Types(name) => {
            let name = name.as_str();
            format!(in alloc; "types {name}")
        }
        Request::Mill(args) => {
            let (size, workers) = (args.size, args.workers);
            let (fuel, quantum) = (args.fuel, args.quantum);
            format!(in alloc; "mill {size} {workers} {fuel} {quantum}")
        }
        Request::Save(args) => {
            let (file, trace, at) = (args.file.as_str(), args.trace.as_str(), args.at);
            let probes = probes_text(&args.probes);
            format!(in alloc; "save {file} {trace} {at} {probes}")
        }
        Request::Resume(args) => {
            let (image, fuel, quantum) = (args.image.as_str(), args.fuel, args.quantum);
            format!(in alloc; "resume {image} {fuel} {quantum}")
        }
        Request::Serve(args) => {
            let (file, workers) = (args.file.as_str(), args.workers);
            let (fuel, quantum) = (args.fuel, args.quantum);
            format!(in alloc; "serve {file} {workers} {fuel} {quantum}")
        }
    }
}

// Each line of the table is words, ` -> ` and their answer.
fn answers(alloc: Global, table: &str) -> Result<(), Fail> {
    for row in table.lines() {
        is_answered(alloc, row)?;
    }
    Ok(())
}

fn is_answered(alloc: Global, row: &str) -> Result<(), Fail> {
    let (line, expected) = row.split_once(" -> ").ok_or("no arrow")?;
    let answer = answer(alloc, line)?;
    if answer.as_str() != expected {
        return Err(Fail::from(format!(in alloc; "{row}, and not {answer}")?));
    }
    Ok(())
}

#[test]
fn without_words(rt: HostRuntime) -> Result<(), Fail> {
    let none = read_words(rt.alloc(), &Vec::new(rt.alloc()));
    is(&rt, &none.err(), &Some(WordFault::NoCommand));
    Ok(())
}

const RUN: &str = "\
run -> MissingWord\n\
run a b -> ExtraWord 2\n\
run a --speed 3 -> UnknownOption 2\n\
run a --probes -> NoValue 2\n\
run a --fuel 5 --fuel=6 -> Repeated 4\n\
run a --fuel=5 --fuel -> Repeated 3\n\
run --fuel 5 -> MissingWord\n\
run --fuel 5 -- -> MissingWord\n\
run -- -> MissingWord\n\
run --fuel -- a -> NoValue 1\n\
run --fuel -5 a -> NoValue 1\n\
run --probes --fuel=5 a -> NoValue 1\n\
run a --probes - -> NoValue 2\n\
run a --fuel -> NoValue 2\n\
run - -> UnknownOption 1\n\
run a -p -> UnknownOption 2\n\
run - --speed -> UnknownOption 1\n\
run -- a -- b -> ExtraWord 3\n\
run -- a -- -> ExtraWord 3\n\
run a -- -- -> ExtraWord 3\n\
run -- --fuel -- -> ExtraWord 3\n\
run a --=5 -> UnknownOption 2\n\
run a --fuel2=5 -> UnknownOption 2\n\
run a --Fuel=5 -> UnknownOption 2\n\
run a --füel=5 -> UnknownOption 2\n\
run a --speed --speed b c -> UnknownOption 2\n\
run --fuel -> NoValue 1\n\
run a b --speed -> ExtraWord 2\n\
run a b - -> ExtraWord 2\n\
run a  -> ExtraWord 2\n\
run a --speed b c -> UnknownOption 2\n\
run a --probes p --workers 1 --fuel 5 --quantum 7 -- b -> ExtraWord 11\n\
run a -> run a . 4 1000000 1000\n\
run a --probes p --workers 1 --fuel 5 --quantum 7 -> run a p 1 5 7\n\
run --probes=p --workers=64 --fuel=16000000 --quantum=10000 a -> run a p 64 16000000 10000\n\
run --fuel=1 a --quantum=2 -> run a . 4 1 2\n\
run --fuel 0000000005 a -> run a . 4 5 1000\n\
run --fuel=0000000005 -- a -> run a . 4 5 1000\n\
run -- a -> run a . 4 1000000 1000\n\
run a -- -> run a . 4 1000000 1000\n\
run a --fuel=5 -- -> run a . 4 5 1000\n\
run -- - -> run - . 4 1000000 1000\n\
run -- -- -> run -- . 4 1000000 1000\n\
run -- --fuel=5 -> run --fuel=5 . 4 1000000 1000\n\
run --probes=-p a=b -> run a=b -p 4 1000000 1000\n\
run --probes=p=q é -> run é p=q 4 1000000 1000\n\
run --probes==p a -> run a =p 4 1000000 1000\n\
run --probes run run -> run run run 4 1000000 1000\n\
";

#[test]
fn words_of_run(rt: HostRuntime) -> Result<(), Fail> {
    answers(rt.alloc(), RUN)
}

const VALUES: &str = "\
run a --fuel 0 -> BadValue 2\n\
run a --fuel= -> BadValue 2\n\
run a --fuel  -> BadValue 2\n\
run a --fuel=5=5 -> BadValue 2\n\
run a --fuel=+5 -> BadValue 2\n\
run a --fuel=-5 -> BadValue 2\n\
run a --fuel=0x5 -> BadValue 2\n\
run a --fuel=٥ -> BadValue 2\n\
run a --fuel=16000001 -> BadValue 2\n\
run a --fuel=00016000000 -> BadValue 2\n\
run a --fuel=99999999999999999999999 -> BadValue 2\n\
run --fuel= 5 -> BadValue 1\n\
run --fuel a -> BadValue 1\n\
run a --quantum=10001 -> BadValue 2\n\
run a --workers 65 -> BadValue 2\n\
run a --workers=00 -> BadValue 2\n\
run a --probes= -> BadValue 2\n\
run  -> BadValue 1\n\
run --  -> BadValue 2\n\
";

#[test]
fn values_that_are_refused(rt: HostRuntime) -> Result<(), Fail> {
    answers(rt.alloc(), VALUES)
}

const TRACE: &str = "\
trace -> MissingWord\n\
trace a --workers 1 b -> ExtraWord 4\n\
trace a --size 3 -> UnknownOption 2\n\
trace --workers=4 --workers=4 a -> Repeated 2\n\
trace a --quantum -- -> NoValue 2\n\
trace --workers=65 a -> BadValue 1\n\
trace a --fuel=00000000005 -> BadValue 2\n\
trace  -> BadValue 1\n\
trace - -> UnknownOption 1\n\
trace a -- - -> ExtraWord 3\n\
trace a --quantum 1 -> trace a . 4 1000000 1\n\
trace --quantum 1 -- a -> trace a . 4 1000000 1\n\
trace --fuel 0000000005 a -> trace a . 4 5 1000\n\
trace a --fuel=5 -- -> trace a . 4 5 1000\n\
trace -- - -> trace - . 4 1000000 1000\n\
trace é --probes ü -> trace é ü 4 1000000 1000\n\
watch -> MissingWord\n\
watch a --workers 1 b -> ExtraWord 4\n\
watch a --size 3 -> UnknownOption 2\n\
watch --workers=4 --workers=4 a -> Repeated 2\n\
watch a --quantum -- -> NoValue 2\n\
watch --workers=65 a -> BadValue 1\n\
watch a --fuel=00000000005 -> BadValue 2\n\
watch  -> BadValue 1\n\
watch - -> UnknownOption 1\n\
watch a -- - -> ExtraWord 3\n\
watch --workers 01 a -> watch a . 1 1000000 1000\n\
watch a --probes=p -> watch a p 4 1000000 1000\n\
watch a --fuel 5 -- -> watch a . 4 5 1000\n\
watch --fuel=5 -- a -> watch a . 4 5 1000\n\
watch -- é -> watch é . 4 1000000 1000\n\
serve -> MissingWord\n\
serve a b -> ExtraWord 2\n\
serve a --probes p -> UnknownOption 2\n\
serve a --journal j -> UnknownOption 2\n\
serve --fuel=5 a --fuel 5 -> Repeated 3\n\
serve a --workers -> NoValue 2\n\
serve a --workers=65 -> BadValue 2\n\
serve a --fuel=0 -> BadValue 2\n\
serve a --quantum 10001 -> BadValue 2\n\
serve  -> BadValue 1\n\
serve - -> UnknownOption 1\n\
serve a -> serve a 4 1000000 1000\n\
serve --workers 1 a --fuel=5 --quantum 7 -> serve a 1 5 7\n\
serve -- - -> serve - 4 1000000 1000\n\
serve é --workers=64 -> serve é 64 1000000 1000\n\
";

#[test]
fn words_of_trace_watch_and_serve(rt: HostRuntime) -> Result<(), Fail> {
    answers(rt.alloc(), TRACE)
}

const VERIFY: &str = "\
verify -> MissingWord\n\
verify a -> MissingWord\n\
verify -- a -> MissingWord\n\
verify a b c -> ExtraWord 3\n\
verify a b --fuel 5 -> UnknownOption 3\n\
verify a --workers=1 b -> UnknownOption 2\n\
verify --probes p --probes p a b -> Repeated 3\n\
verify a b --probes -> NoValue 3\n\
verify a  -> BadValue 2\n\
verify  t -> BadValue 1\n\
verify a t --probes= -> BadValue 3\n\
verify - t -> UnknownOption 1\n\
verify a - -> UnknownOption 2\n\
verify -- a t -- -> ExtraWord 4\n\
verify a t -> verify a t .\n\
verify a --probes p t -> verify a t p\n\
verify --probes p a -- t -> verify a t p\n\
verify -- a t -> verify a t .\n\
verify a -- t -> verify a t .\n\
verify a t -- -> verify a t .\n\
verify a t --probes=p -> verify a t p\n\
verify é -- -ü -> verify é -ü .\n\
drill -> MissingWord\n\
drill a -> MissingWord\n\
drill a s t -> ExtraWord 3\n\
drill a s --workers 2 -> UnknownOption 3\n\
drill --fuel=1 a --fuel=1 s -> Repeated 3\n\
drill a s --quantum -> NoValue 3\n\
drill --quantum 0 a s -> BadValue 1\n\
drill a s --fuel=00000000005 -> BadValue 3\n\
drill a  -> BadValue 2\n\
drill a - -> UnknownOption 2\n\
drill a s --fuel 1 --quantum 2 --probes p -> drill a s p 1 2\n\
drill --fuel=1 a s -> drill a s . 1 1000\n\
drill -- a -s -> drill a -s . 1000000 1000\n\
drill a -- -s -> drill a -s . 1000000 1000\n\
drill a s -- -> drill a s . 1000000 1000\n\
drill a --fuel=0000000005 s -> drill a s . 5 1000\n\
drill é ü --quantum=2 -> drill é ü . 1000000 2\n\
";

#[test]
fn words_of_verify_and_drill(rt: HostRuntime) -> Result<(), Fail> {
    answers(rt.alloc(), VERIFY)
}

const CHECK: &str = "\
check -> MissingWord\n\
check -- -> MissingWord\n\
check a b -> ExtraWord 2\n\
check a --probes p -> UnknownOption 2\n\
check --fuel=1 a -> UnknownOption 1\n\
check  -> BadValue 1\n\
check --  -> BadValue 2\n\
check - -> UnknownOption 1\n\
check a - -> UnknownOption 2\n\
check run -> check run\n\
check -- -a -> check -a\n\
check a -- -> check a\n\
check é -> check é\n\
types -> MissingWord\n\
types -- -> MissingWord\n\
types a b -> ExtraWord 2\n\
types a --probes p -> UnknownOption 2\n\
types --fuel=1 a -> UnknownOption 1\n\
types  -> BadValue 1\n\
types --  -> BadValue 2\n\
types - -> UnknownOption 1\n\
types a - -> UnknownOption 2\n\
types a -> types a\n\
types a -- -> types a\n\
types -- -a -> types -a\n\
types é -> types é\n\
";

#[test]
fn words_of_check_and_types(rt: HostRuntime) -> Result<(), Fail> {
    answers(rt.alloc(), CHECK)
}

const MILL: &str = "\
mill -> MissingWord\n\
mill 5 6 -> ExtraWord 2\n\
mill 5 --probes p -> UnknownOption 2\n\
mill --fuel 2 5 --fuel 2 -> Repeated 4\n\
mill 5 --workers -> NoValue 2\n\
mill 0 -> BadValue 1\n\
mill 10001 -> BadValue 1\n\
mill 00000000001 -> BadValue 1\n\
mill x -> BadValue 1\n\
mill  -> BadValue 1\n\
mill -5 -> UnknownOption 1\n\
mill -- -5 -> BadValue 2\n\
mill - -> UnknownOption 1\n\
mill ٥ -> BadValue 1\n\
mill 5 --fuel=00000000005 -> BadValue 2\n\
mill 5 --quantum=10001 -> BadValue 2\n\
mill 10000 -> mill 10000 4 1000000 1000\n\
mill --workers 8 0000000001 --fuel=2 --quantum 3 -> mill 1 8 2 3\n\
mill -- 5 -> mill 5 4 1000000 1000\n\
mill 5 -- -> mill 5 4 1000000 1000\n\
mill --fuel=5 -- 5 -> mill 5 4 5 1000\n\
mill 5 --fuel 0000000005 -> mill 5 4 5 1000\n\
";

#[test]
fn words_of_mill(rt: HostRuntime) -> Result<(), Fail> {
    answers(rt.alloc(), MILL)
}

const SAVE: &str = "\
save -> MissingWord\n\
save a t -> MissingWord\n\
save a t 1 2 -> ExtraWord 4\n\
save a t 1 --fuel 1 -> UnknownOption 4\n\
save --probes=p a t 1 --probes=p -> Repeated 5\n\
save a t --probes -> NoValue 3\n\
save a t x -> BadValue 3\n\
save a t 10001 -> BadValue 3\n\
save a  1 -> BadValue 2\n\
save a t 0 -> BadValue 3\n\
save a t 00000000001 -> BadValue 3\n\
save a t 1 --probes= -> BadValue 4\n\
save a t -1 -> UnknownOption 3\n\
save a - 1 -> UnknownOption 2\n\
save a t -- -1 -> BadValue 4\n\
save a t 00003 --probes p -> save a t 3 p\n\
save --probes=p a t 1 -> save a t 1 p\n\
save a -- t 10000 -> save a t 10000 .\n\
save -- a t 1 -> save a t 1 .\n\
save a t -- 1 -> save a t 1 .\n\
save a t 1 -- -> save a t 1 .\n\
save é ü --probes ö 1 -> save é ü 1 ö\n\
resume -> MissingWord\n\
resume i j -> ExtraWord 2\n\
resume i --workers 2 -> UnknownOption 2\n\
resume i --probes p -> UnknownOption 2\n\
resume --fuel 1 i --fuel 1 -> Repeated 4\n\
resume i --fuel -> NoValue 2\n\
resume i --quantum= -> BadValue 2\n\
resume --fuel=16000001 i -> BadValue 1\n\
resume i --fuel=00000000005 -> BadValue 2\n\
resume  -> BadValue 1\n\
resume - -> UnknownOption 1\n\
resume i -> resume i 1000000 1000\n\
resume --fuel 4 i --quantum 5 -> resume i 4 5\n\
resume -- i -> resume i 1000000 1000\n\
resume i -- -> resume i 1000000 1000\n\
resume --fuel=5 -- - -> resume - 5 1000\n\
resume é --fuel 0000000005 -> resume é 5 1000\n\
";

#[test]
fn words_of_save_and_resume(rt: HostRuntime) -> Result<(), Fail> {
    answers(rt.alloc(), SAVE)
}

// The name of a file is as long as a system takes it.
#[test]
fn long_names(rt: HostRuntime) -> Result<(), Fail> {
    let name = "é".repeat(rt.alloc(), 2_048)?;
    long_name_of_run(rt.alloc(), name.as_str())?;
    long_name_of_save(rt.alloc(), name.as_str())
}

fn long_name_of_run(alloc: Global, name: &str) -> Result<(), Fail> {
    let row = format!(in alloc; "run {name} --probes={name} -> run {name} {name} 4 1000000 1000")?;
    answers(alloc, row.as_str())
}

fn long_name_of_save(alloc: Global, name: &str) -> Result<(), Fail> {
    let row = format!(in alloc; "save {name} {name} 1 -> save {name} {name} 1 .")?;
    answers(alloc, row.as_str())
}

const UNKNOWN: &str = "\
\x20-> UnknownCommand\n\
walk a -> UnknownCommand\n\
Run a -> UnknownCommand\n\
läuft a -> UnknownCommand\n\
-- run a -> UnknownCommand\n\
--fuel=5 run a -> UnknownCommand\n\
- -> UnknownCommand\n\
";

#[test]
fn unknown_commands(rt: HostRuntime) -> Result<(), Fail> {
    answers(rt.alloc(), UNKNOWN)
}
