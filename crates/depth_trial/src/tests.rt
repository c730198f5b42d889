//! Whatever goes through an expression calls itself as often as that is deep.
use expression_text::{Word, has_shape, read};
use language::Head;
use plain_language::{Expr, Look, MAX_EXPR_DEPTH, PlainState, are_flat};
use stab_base::{Fault, NoMemory, Seq, ThreadId, Value};
use stab_code::{Program, Slots};
use stab_journal::Label;
use stab_text::read_program;
use std::alloc::Global;
use std::process::Abort;
use std::sync::Arc;
use std::test::Fail;
use std::thread::Builder;

// The stack of the thread that goes through the expressions, in bytes: 16 MiB. The build that looks for wrong accesses, whose
// calls take more of it, needs more than 2 MiB.
const STACK: usize = 0x100_0000;

// Forms round the redex of a thread that may step.
const MOST_ROUND: u32 = 1000;

// `!` so many times, round true.
fn negations(alloc: Global, count: u32) -> Result<Expr, NoMemory> {
    let mut e = Expr::value(Value::truth(true));
    for _ in 0..count {
        let parts = vec![in alloc; e]?;
        e = Expr::form(Head::Not, parts);
    }
    Ok(e)
}

// A block whose first item is a value, and whose last part is as deep as it may be.
fn deepest(alloc: Global) -> Result<Expr, NoMemory> {
    let slots = Slots::new(alloc, vec![in alloc; None]?)?;
    let parts = vec![in alloc;
        Expr::value(Value::unit()),
        negations(alloc, MAX_EXPR_DEPTH - 2)?,
    ]?;
    Ok(Expr::form(Head::Block(slots), parts))
}

fn state_of(
    alloc: Global,
    program: &Arc<Program>,
    threads: Vec<(ThreadId, Expr)>,
) -> Result<Option<PlainState>, NoMemory> {
    if !are_flat(&threads) {
        return Ok(None);
    }
    Ok(Some(PlainState::from_parts(
        alloc,
        program,
        threads,
        Vec::new(alloc),
        Vec::new(alloc),
        Vec::new(alloc),
    )?))
}

// What is next for thread 1 and thread 2 at the start, and after their steps on a copy.
fn goes_through(alloc: Global) -> Result<[Option<Look>; 4], NoMemory> {
    match start_of_two(alloc)? {
        Some(state) => looks(alloc, &state),
        None => Ok([None; 4]),
    }
}

// A thread at the deepest expression, and one at negations.
fn two_threads(alloc: Global) -> Result<Vec<(ThreadId, Expr)>, NoMemory> {
    let first = deepest(alloc)?;
    let second = negations(alloc, MOST_ROUND)?;
    Ok(vec![in alloc; (ThreadId(1), first), (ThreadId(2), second)]?)
}

fn start_of_two(alloc: Global) -> Result<Option<PlainState>, NoMemory> {
    let Ok(program) = read_program(alloc, b"fn main(): unit {}") else {
        return Ok(None);
    };
    let program = Arc::new(alloc, program)?;
    let threads = two_threads(alloc)?;
    state_of(alloc, &program, threads)
}

fn looks(alloc: Global, state: &PlainState) -> Result<[Option<Look>; 4], NoMemory> {
    let mut copy = state.copy(alloc)?;
    let _first = copy.play(alloc, Seq(1), &Label::Local(ThreadId(1), 1));
    let _second = copy.play(alloc, Seq(2), &Label::Local(ThreadId(2), MOST_ROUND));
    Ok([
        state.look(ThreadId(1)),
        state.look(ThreadId(2)),
        copy.look(ThreadId(1)),
        copy.look(ThreadId(2)),
    ])
}

#[test]
fn as_deep_as_may_be(rt: HostRuntime) -> Result<(), Fail> {
    let alloc = rt.alloc();
    let thread = Builder::new()
        .stack_size(STACK)
        .spawn(&rt, move || goes_through(alloc))?;
    // The block's last part has more than 1,000 forms round its redex.
    let wanted = [
        Some(Look::Pure),
        Some(Look::Pure),
        Some(Look::Failed(Fault::TooDeep)),
        Some(Look::Done),
    ];
    assert_eq!(rt; thread.join(&rt), Ok(wanted));
    Ok(())
}

#[test]
fn one_form_deeper(rt: HostRuntime) -> Result<(), Fail> {
    let flat = is_flat(rt.alloc(), MAX_EXPR_DEPTH - 1)?;
    let deep = !is_flat(rt.alloc(), MAX_EXPR_DEPTH)?;
    assert!(rt; flat && deep);
    Ok(())
}

fn is_flat(alloc: Global, count: u32) -> Result<bool, NoMemory> {
    let e = negations(alloc, count)?;
    let threads = vec![in alloc; (ThreadId(1), e)]?;
    Ok(are_flat(&threads))
}

// The words of `!` so many times, round true.
fn words_of(alloc: Global, count: u32) -> Result<Vec<Word>, NoMemory> {
    let mut words = Vec::new(alloc);
    for _ in 0..count {
        words.push(Word::Not)?;
    }
    words.push(Word::Truth(true))?;
    Ok(words)
}

fn reads(alloc: Global) -> Result<bool, NoMemory> {
    let words = words_of(alloc, MAX_EXPR_DEPTH - 1)?;
    Ok(read(alloc, &words, MAX_EXPR_DEPTH)?.is_some())
}

#[test]
fn words_are_read_as_deep(rt: HostRuntime) -> Result<(), Fail> {
    let alloc = rt.alloc();
    let thread = Builder::new()
        .stack_size(STACK)
        .spawn(&rt, move || reads(alloc))?;
    assert!(rt; thread.join(&rt) == Ok(true));
    Ok(())
}

#[test]
fn deeper_words_are_not_read(rt: HostRuntime) -> Result<(), Fail> {
    let words = words_of(rt.alloc(), MAX_EXPR_DEPTH)?;
    assert!(rt; read(rt.alloc(), &words, MAX_EXPR_DEPTH)?.is_none());
    Ok(())
}

// However deep the words of an expression are, one pass sees that they are those of one.
#[test]
fn a_shape_of_any_depth(rt: HostRuntime) -> Result<(), Fail> {
    let mut words = words_of(rt.alloc(), 1_000_000)?;
    let shapes = shapes(rt.alloc(), &mut words)?;
    assert_eq!(rt; shapes, (true, false));
    Ok(())
}

// Whether the words are those of an expression, and whether they are without the last one.
fn shapes(alloc: Global, words: &mut Vec<Word>) -> Result<(bool, bool), NoMemory> {
    let whole = has_shape(alloc, words)?;
    let _last = words.pop();
    Ok((whole, has_shape(alloc, words)?))
}
