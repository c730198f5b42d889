//! The table of pure steps, row by row, what acts give, and what is next.

use super::{at, first_place, place, standing_at};
use crate::tests::is;
use crate::tests::thread::program_of;
use crate::tests::whole_runs::{first_refused, start_of};
use language::Head;
use plain_language::{Expr, Look, PlainState};
use stab_base::{ChanId, Fault, Seq, ThreadId, Value};
use stab_journal::Label;
use std::alloc::{AllocError, Global};
use std::process::Abort;
use std::test::Fail;

// A form, and what it is after one pure step.
const PURE: &str = "\
7; idle() -> idle()
7; 8; idle() -> 8; idle()
7; let x = 8; x -> let x = 8; x
let x = 7; !x -> !7
let x = 7; 8; x -> 8; 7
if true { idle() } else { 1 } -> idle()
if false { 1 } else { idle() } -> idle()
if 1 { 1 } else { 2 } -> fault WrongKind
if () { 1 } else { 2 } -> fault WrongKind
false && idle() -> false
true && idle() -> idle()
true && 7 -> 7
1 && true -> fault WrongKind
true || idle() -> true
false || idle() -> idle()
false || 7 -> 7
() || true -> fault WrongKind
!true -> false
!false -> true
!0 -> fault WrongKind
-(7) -> -7
-(-9223372036854775807) -> 9223372036854775807
-(-9223372036854775808) -> fault Overflow
-(true) -> fault WrongKind
3 + 4 -> 7
9223372036854775806 + 1 -> 9223372036854775807
9223372036854775807 + 1 -> fault Overflow
-9223372036854775808 + -1 -> fault Overflow
1 + true -> fault WrongKind
3 - 4 -> -1
-9223372036854775807 - 1 -> -9223372036854775808
-9223372036854775808 - 1 -> fault Overflow
() - 1 -> fault WrongKind
-3 * 4 -> -12
-9223372036854775808 * -1 -> fault Overflow
2 * c -> fault WrongKind
-7 / 2 -> -3
7 / -2 -> -3
1 / 0 -> fault ZeroDivisor
-9223372036854775808 / -1 -> fault Overflow
true / 0 -> fault WrongKind
-7 % 2 -> -1
7 % -2 -> 1
1 % 0 -> fault ZeroDivisor
-9223372036854775808 % -1 -> fault Overflow
1 % false -> fault WrongKind
1 < 1 -> false
-1 < 0 -> true
false < true -> fault WrongKind
1 < 2 -> true
1 <= 1 -> true
2 <= 1 -> false
2 > 1 -> true
1 > 1 -> false
1 >= 2 -> false
1 >= 1 -> true
1 <= () -> fault WrongKind
r > 1 -> fault WrongKind
() >= () -> fault WrongKind
2 == 2 -> true
2 == 3 -> false
2 != 2 -> false
() == false -> false
() == () -> true
true != 1 -> true
false != true -> true
\"a\" == \"a\" -> true
\"a\" != \"b\" -> true
\"a\" == 0 -> false
c == c -> true
c == d -> false
c == r -> false
1 == c -> false
fst(1) -> fault WrongKind
snd(()) -> fault WrongKind
sum(1, 2) -> 1 + 2
(1 + 2) - (1 / 0) -> 3 - (1 / 0)
sum(1 + 2, 1 / 0) -> sum(3, 1 / 0)
get(c) -> fault WrongKind
set(1, 2) -> fault WrongKind
send(r, 2) -> fault WrongKind
recv(1) -> fault WrongKind
pick((), c) -> fault WrongKind
pick(c, true) -> fault WrongKind";

// A form, the labels of steps, and what it is after them.
const STEPS: &str = "\
let x = 7; let y = x + 1; (y, x) | 20 local 1 3 | (8, 7)
let x = 7; let x = x < 8; !x | 20 local 1 3 | !true
let x = 7; { let y = x; y == x } | 20 local 1 2 | 7 == 7
fst((1, 2)) | 20 local 1 2 | 1
snd((1, 2)) | 20 local 1 2 | 2
(1, 2) == (1, 2) | 20 local 1 3 | true
(1, 2) == (1, 3) | 20 local 1 3 | false
spawn idle() | 20 spawn 1 8 | ()
chan[int]() == c | 20 newchan 1 5; 21 local 1 1 | false
ref(7) == r | 20 newref 1 5; 21 local 1 1 | false
get(ref(7)) | 20 newref 1 5; 21 get 1 5 | 7
get(r) | 20 get 1 1 | 1
set(r, 2) | 20 set 1 1 | ()
set(r, 2); get(r) | 20 set 1 1; 21 local 1 1; 22 get 1 1 | 2
send(c, 7) | 20 comm 1 2 1 | ()
recv(d) | 20 comm 3 1 2 | 7
fst(pick(d, c)) | 20 comm 3 1 2; 21 local 1 1 | 0
fst(pick(c, d)) | 20 comm 3 1 2; 21 local 1 1 | 1
fst(pick(d, d)) | 20 comm 3 1 2; 21 local 1 1 | 0
snd(pick(c, d)) | 20 comm 3 1 2; 21 local 1 1 | 7
stable sum(1, 2) | 20 enter 1; 21 local 1 2 | 3
cut() | 20 cut 1 | ()
pin() | 20 pin 1 | ()
print(7) | 20 print 1 | ()
probe() | 20 probe 1 -5 | -5
attempt() | 20 attempt 1 3 | 3
stabilize() | 20 refuse 1 | fault NoSection";

// A form, the labels of steps, another thread that they touch, and where it is after them.
const OTHERS: &str = "\
spawn sum(1, 2) | 20 spawn 1 8 | 8 | 1 + 2
stable later() | 20 enter 1; 21 spawn 1 5 | 5 | 1 + 2
send(c, 5) | 20 comm 1 2 1 | 2 | 5
recv(d) | 20 comm 3 1 2 | 3 | ()
pick(c, d) | 20 comm 3 1 2 | 3 | ()";

// A form, and what is next for its thread.
const LOOKS: &str = "\
() | Done
1 + 2 | Pure
((), 1 + 2) | Pure
(idle(), recv(c)) | Pure
send(1, 2) | Pure
((), send(c, 5)) | Act(Send(ChanId(1)))
spawn idle() | Act(Spawn)
chan[int]() | Act(NewChan)
ref(7) | Act(NewRef)
get(r) | Act(Get(RefId(1)))
set(r, 7) | Act(Set(RefId(1)))
send(c, 7) | Act(Send(ChanId(1)))
recv(c) | Act(Recv(ChanId(1)))
pick(c, d) | Act(Pick(ChanId(1), ChanId(2)))
stable idle() | Act(Enter)
stabilize() | Act(Stabilize)
cut() | Act(Cut)
pin() | Act(Pin)
print(7) | Act(Print)
probe() | Act(Probe)
attempt() | Act(Attempt)";

// Pure steps of a form, and what is next after them. Each call leaves 37 forms, so with `deep` itself 1,000 stand round the last
// `n - 1`, at step 107, and 1,001 where there is one form more.
const DEPTHS: [(&str, u32, &str); 4] = [
    ("deep(27)", 107, "Some(Pure)"),
    ("deep(27)", 1110, "Some(Done)"),
    ("!deep(27)", 106, "Some(Pure)"),
    ("!deep(27)", 107, "Some(Failed(TooDeep))"),
];

const T: ThreadId = ThreadId(1);

// The state after these steps of a form.
fn after(rt: &impl Abort, alloc: Global, form: &str, labels: &str) -> Result<PlainState, Fail> {
    let mut state = at(alloc, form)?;
    let refused = first_refused(alloc, &mut state, labels)?;
    is(rt, &(form, refused), &(form, None));
    Ok(state)
}

// What is next for a thread, in letters.
fn look_of(alloc: Global, state: &PlainState, t: ThreadId) -> Result<String, Fail> {
    Ok(format!(in alloc; "{:?}", state.look(t))?)
}

fn look_after(rt: &impl Abort, alloc: Global, form: &str, labels: &str) -> Result<String, Fail> {
    let state = after(rt, alloc, form, labels)?;
    look_of(alloc, &state, T)
}

fn place_after(
    rt: &impl Abort,
    alloc: Global,
    (form, labels): (&str, &str),
    t: u32,
) -> Result<String, Fail> {
    let state = after(rt, alloc, form, labels)?;
    place(alloc, &state, t)
}

fn expect_look(
    rt: &impl Abort,
    alloc: Global,
    (form, labels): (&str, &str),
    wanted: &str,
) -> Result<(), Fail> {
    let found = look_after(rt, alloc, form, labels)?;
    is(rt, &(form, found.as_str()), &(form, wanted));
    Ok(())
}

fn expect_fault(
    rt: &impl Abort,
    alloc: Global,
    stepped: (&str, &str),
    fault: &str,
) -> Result<(), Fail> {
    let wanted = format!(in alloc; "Some(Failed({fault}))")?;
    expect_look(rt, alloc, stepped, wanted.as_str())
}

// A thread stands at this form after the steps of another one.
fn expect_place(
    rt: &impl Abort,
    alloc: Global,
    stepped: (&str, &str),
    t: u32,
    wanted: &str,
) -> Result<(), Fail> {
    let wanted = first_place(alloc, wanted)?;
    let found = place_after(rt, alloc, stepped, t)?;
    is(rt, &(stepped, found.as_str()), &(stepped, wanted.as_str()));
    Ok(())
}

// The form is another one after the steps, or has failed.
fn expect(
    rt: &impl Abort,
    alloc: Global,
    form: &str,
    labels: &str,
    wanted: &str,
) -> Result<(), Fail> {
    match wanted.strip_prefix("fault ") {
        Some(fault) => expect_fault(rt, alloc, (form, labels), fault),
        None => expect_place(rt, alloc, (form, labels), 1, wanted),
    }
}

// The same as the right part of a pair, the whole of which fails where the form does.
fn expect_both(
    rt: &impl Abort,
    alloc: Global,
    form: &str,
    labels: &str,
    wanted: &str,
) -> Result<(), Fail> {
    expect(rt, alloc, form, labels, wanted)?;
    let within = format!(in alloc; "(9, {{ {form} }})")?;
    if wanted.starts_with("fault ") {
        return expect(rt, alloc, within.as_str(), labels, wanted);
    }
    let wanted = format!(in alloc; "(9, {{ {wanted} }})")?;
    expect(rt, alloc, within.as_str(), labels, wanted.as_str())
}

#[test]
fn pure_steps(rt: HostRuntime) -> Result<(), Fail> {
    for row in PURE.lines() {
        let (form, wanted) = row.split_once(" -> ").ok_or("an arrow")?;
        expect_both(&rt, rt.alloc(), form, "20 local 1 1", wanted)?;
    }
    Ok(())
}

#[test]
fn steps_and_acts(rt: HostRuntime) -> Result<(), Fail> {
    for row in STEPS.lines() {
        let (form, rest) = row.split_once(" | ").ok_or("labels")?;
        let (labels, wanted) = rest.split_once(" | ").ok_or("an end")?;
        expect_both(&rt, rt.alloc(), form, labels, wanted)?;
    }
    Ok(())
}

fn expect_other(rt: &impl Abort, alloc: Global, row: &str) -> Result<(), Fail> {
    let (form, rest) = row.split_once(" | ").ok_or("labels")?;
    let (labels, rest) = rest.split_once(" | ").ok_or("a thread")?;
    let (thread, wanted) = rest.split_once(" | ").ok_or("an end")?;
    let t = thread.parse().unwrap_or(0);
    expect_place(rt, alloc, (form, labels), t, wanted)
}

#[test]
fn where_others_stand(rt: HostRuntime) -> Result<(), Fail> {
    for row in OTHERS.lines() {
        expect_other(&rt, rt.alloc(), row)?;
    }
    Ok(())
}

fn expect_next(rt: &impl Abort, alloc: Global, row: &str) -> Result<(), Fail> {
    let (form, wanted) = row.split_once(" | ").ok_or("what is next")?;
    let look = next_at(alloc, form)?;
    let found = format!(in alloc; "{look:?}")?;
    is(rt, &(form, found.as_str()), &(form, wanted));
    Ok(())
}

fn next_at(alloc: Global, form: &str) -> Result<Look, Fail> {
    let state = at(alloc, form)?;
    Ok(state.look(T).ok_or("a thread")?)
}

#[test]
fn what_is_next(rt: HostRuntime) -> Result<(), Fail> {
    for row in LOOKS.lines() {
        expect_next(&rt, rt.alloc(), row)?;
    }
    Ok(())
}

// What is next for thread 1 after so many pure steps of a form.
fn look_after_steps(
    rt: &impl Abort,
    alloc: Global,
    form: &str,
    steps: u32,
) -> Result<String, Fail> {
    let mut state = at(alloc, form)?;
    let made = state.play(alloc, Seq(20), &Label::Local(T, steps));
    is(rt, &(form, made), &(form, Ok(())));
    look_of(alloc, &state, T)
}

fn expect_after_steps(
    rt: &impl Abort,
    alloc: Global,
    form: &str,
    steps: u32,
    wanted: &str,
) -> Result<(), Fail> {
    let found = look_after_steps(rt, alloc, form, steps)?;
    is(rt, &(form, found.as_str()), &(form, wanted));
    Ok(())
}

#[test]
fn forms_round_a_redex(rt: HostRuntime) -> Result<(), Fail> {
    for (form, steps, wanted) in DEPTHS {
        expect_after_steps(&rt, rt.alloc(), form, steps, wanted)?;
    }
    Ok(())
}

// What 999 forms stand round, a step of it, and what is next: a form within it has 1,000 round it, and one within that is too
// deep.
const ACTS_IN_DEPTH: [(&str, &str, &str); 4] = [
    ("probe() == !true", "112 probe 1 0", "Some(Pure)"),
    (
        "probe() == !!true",
        "112 probe 1 0",
        "Some(Failed(TooDeep))",
    ),
    ("stable inner()", "112 enter 1", "Some(Act(Probe))"),
    (
        "stable inner() == 0",
        "112 enter 1",
        "Some(Failed(TooDeep))",
    ),
];

// The start of a program that comes to the form in depth.
fn deep_start(alloc: Global, form: &str) -> Result<PlainState, Fail> {
    let nots = "!!!!!!!!!!!!!!!!!!!!!!!!!!!!!!!!!!!!!";
    let text = format!(in alloc;
        "fn inner(): int {{ probe() }} fn down(n: int): bool {{ if n == 0 {{ {form} }} else {{ {nots}down(n - 1) }} }} fn main(): bool {{ down(27) }}"
    )?;
    start_of(alloc, text.as_str())
}

// What is next after the steps down to the form and one more.
fn look_in_depth(rt: &impl Abort, alloc: Global, form: &str, step: &str) -> Result<String, Fail> {
    let mut state = deep_start(alloc, form)?;
    let refused = refused_of_two(alloc, &mut state, step)?;
    is(rt, &(form, refused), &(form, (None, None)));
    look_of(alloc, &state, T)
}

fn refused_of_two(
    alloc: Global,
    state: &mut PlainState,
    step: &str,
) -> Result<(Option<Seq>, Option<Seq>), Fail> {
    let down = first_refused(alloc, state, "1 local 1 111")?;
    Ok((down, first_refused(alloc, state, step)?))
}

fn expect_in_depth(
    rt: &impl Abort,
    alloc: Global,
    (form, step, wanted): (&str, &str, &str),
) -> Result<(), Fail> {
    let found = look_in_depth(rt, alloc, form, step)?;
    is(rt, &(form, found.as_str()), &(form, wanted));
    Ok(())
}

#[test]
fn acts_in_depth(rt: HostRuntime) -> Result<(), Fail> {
    for row in ACTS_IN_DEPTH {
        expect_in_depth(&rt, rt.alloc(), row)?;
    }
    Ok(())
}

// `(1, ` so many times round a value.
fn pairs(alloc: Global, times: u32) -> Result<String, AllocError> {
    let mut text = String::new(alloc);
    for _ in 0..times {
        text.push_str("(1, ")?;
    }
    text.push_str("()")?;
    for _ in 0..times {
        text.push(')')?;
    }
    Ok(text)
}

// So many pairs are made by as many pure steps.
fn expect_pairs(rt: &impl Abort, alloc: Global, times: u32, wanted: &str) -> Result<(), Fail> {
    let form = pairs(alloc, times)?;
    expect_after_steps(rt, alloc, form.as_str(), times, wanted)
}

#[test]
fn deep_pairs(rt: HostRuntime) -> Result<(), Fail> {
    expect_pairs(&rt, rt.alloc(), 1, "Some(Done)")?;
    expect_pairs(&rt, rt.alloc(), 64, "Some(Done)")?;
    expect_pairs(&rt, rt.alloc(), 65, "Some(Failed(DeepValue))")
}

fn channel(c: u32) -> Expr {
    Expr::value(Value::chan(ChanId(c)))
}

// A pick makes a pair of what was sent, which may be too deep. Its sender goes on all the same.
// The value of so many pairs in each other.
fn deep_value(alloc: Global, times: u32) -> Result<Expr, Fail> {
    let form = pairs(alloc, times)?;
    let mut state = at(alloc, form.as_str())?;
    if state.play(alloc, Seq(20), &Label::Local(T, times)) != Ok(()) {
        return Err(Fail::from("the steps that make pairs"));
    }
    Ok(state.expr(T).ok_or("a thread")?.copy(alloc)?)
}

// Thread 1 sends an expression on channel 1.
fn sender(alloc: Global, e: Expr) -> Result<Expr, Fail> {
    Ok(Expr::form(Head::Send, vec![in alloc; channel(1), e]?))
}

fn picker(alloc: Global) -> Result<Expr, Fail> {
    let channels = vec![in alloc; channel(2), channel(1)]?;
    Ok(Expr::form(Head::Pick, channels))
}

fn both(alloc: Global, times: u32) -> Result<Vec<(ThreadId, Expr)>, Fail> {
    let picker = picker(alloc)?;
    let sender = sender(alloc, deep_value(alloc, times)?)?;
    Ok(vec![in alloc; (T, sender), (ThreadId(2), picker)]?)
}

// A state in which thread 2 can pick a deep value that thread 1 sends.
fn before_pick(alloc: Global, times: u32) -> Result<PlainState, Fail> {
    let program = program_of(alloc, "fn main(): unit {}")?;
    let threads = both(alloc, times)?;
    standing_at(alloc, &program, threads, Vec::new(alloc), Vec::new(alloc))
}

// What is next for each of the two after the pick.
fn looks_after_pick(alloc: Global, times: u32) -> Result<[Option<Look>; 2], Fail> {
    let mut state = before_pick(alloc, times)?;
    let comm = Label::Comm(T, ThreadId(2), ChanId(1));
    if state.play(alloc, Seq(1), &comm) != Ok(()) {
        return Err(Fail::from("the pick"));
    }
    Ok([state.look(T), state.look(ThreadId(2))])
}

#[test]
fn a_pick_of_a_deep_value(rt: HostRuntime) -> Result<(), Fail> {
    let done = Some(Look::Done);
    let failed = Some(Look::Failed(Fault::DeepValue));
    let fits = looks_after_pick(rt.alloc(), 63)?;
    is(&rt, &fits, &[done, done]);
    let too_deep = looks_after_pick(rt.alloc(), 64)?;
    is(&rt, &too_deep, &[done, failed]);
    Ok(())
}

// The sections entered at 20 and, within it, at 30.
#[test]
fn the_inner_section_is_the_mark(rt: HostRuntime) -> Result<(), Fail> {
    let mut state = at(rt.alloc(), "stable outer()")?;
    expect_marks(&rt, rt.alloc(), &mut state)
}

fn expect_marks(rt: &impl Abort, alloc: Global, state: &mut PlainState) -> Result<(), Fail> {
    is(rt, &state.mark(T), &None);
    expect_mark(rt, alloc, state, "20 enter 1", 20)?;
    expect_mark(rt, alloc, state, "30 enter 1", 30)?;
    // The inner section alone is the redex, and then it is gone.
    expect_mark(rt, alloc, state, "40 probe 1 5", 20)?;
    expect_mark(rt, alloc, state, "41 local 1 1", 20)
}

fn expect_mark(
    rt: &impl Abort,
    alloc: Global,
    state: &mut PlainState,
    label: &str,
    mark: u64,
) -> Result<(), Fail> {
    let refused = first_refused(alloc, state, label)?;
    is(
        rt,
        &(label, (refused, state.mark(T))),
        &(label, (None, Some(Seq(mark)))),
    );
    Ok(())
}
