//! Spells single lines of a trace, within room that was taken before.
ghost use Rattle.std.specs.Prelude.{◌≡◌, ◌+◌, ◌≤◌, ◌++◌, [], ◌∷◌, length, vec_len, vec_capacity, decimal};
ghost use Rattle.std.specs.Fmt.{signed_decimal};
ghost use Rattle.stab_journal.specs.Event.{IsWhat};
ghost use Rattle.trace_text.specs.Form.{sign_text, verb_text};
ghost use Rattle.trace_text.specs.Spelling.{behind};
ghost use Rattle.trace_text.specs.Text.{end_line, event_line, label_numbers, label_verb, numbers_of, sign_of, verb_of};

use crate::form::{Sign, Verb};
use crate::line::Entry;
use itoa::Buffer;
use stab_journal::{Label, What};

/// No line is longer: it has two marks, a word of at most 7 letters, five numbers of at most 20 digits, and a space
/// before each of them.
pub const MAX_LINE: usize = 128;

/// Makes the line of the event q.
pub fn set_event_line(line: &mut Vec<u8>, q: u64, entry: Entry)
    requires { 128 ≤ vec_capacity line.old }
    ensures line { line.new.items ≡ event_line q entry ++ 10 ∷ [] }
    ensures room { 128 ≤ vec_capacity line.new }
{
    let what = &entry.event.what;
    line.clear();
    push(line, sign_of(entry.struck, what).text().as_bytes());
    push_number(line, q);
    push(line, b" w");
    push(line, Buffer::new().format(entry.event.worker).as_bytes());
    push(line, b" ");
    push(line, verb_of(what).text().as_bytes());
    push_numbers(line, what);
    push(line, b"\n");
}

/// Makes the end line.
pub fn set_end_line(line: &mut Vec<u8>, count: u64)
    requires { 128 ≤ vec_capacity line.old }
    ensures line { line.new.items ≡ end_line count ++ 10 ∷ [] }
    ensures room { 128 ≤ vec_capacity line.new }
{
    line.clear();
    push(line, b"end");
    push_number(line, count);
    push(line, b"\n");
}

// Adds bytes for which there is room.
fn push(line: &mut Vec<u8>, piece: &[u8])
    requires capacity { 128 ≤ vec_capacity line.old }
    requires room { vec_len line.old + length piece.now ≤ 128 }
    ensures items { line.new.items ≡ line.old.items ++ piece.now }
    ensures len { vec_len line.new ≡ vec_len line.old + length piece.now }
    ensures capacity { 128 ≤ vec_capacity line.new }
{
    line.extend_from_slice(piece).unwrap();
}

// Adds a space and a number.
fn push_number(line: &mut Vec<u8>, n: u64)
    requires capacity { 128 ≤ vec_capacity line.old }
    requires room { vec_len line.old + 21 ≤ 128 }
    ensures items { line.new.items ≡ line.old.items ++ 32 ∷ decimal n }
    ensures len { vec_len line.new ≤ vec_len line.old + 21 }
    ensures capacity { 128 ≤ vec_capacity line.new }
{
    push(line, b" ");
    push(line, Buffer::new().format(n).as_bytes());
}

fn push_signed(line: &mut Vec<u8>, n: i64)
    requires capacity { 128 ≤ vec_capacity line.old }
    requires room { vec_len line.old + 21 ≤ 128 }
    ensures items { line.new.items ≡ line.old.items ++ 32 ∷ signed_decimal n }
    ensures len { vec_len line.new ≤ vec_len line.old + 21 }
    ensures capacity { 128 ≤ vec_capacity line.new }
{
    push(line, b" ");
    push(line, Buffer::new().format(n).as_bytes());
}

fn push_two(line: &mut Vec<u8>, first: u64, second: u64)
    requires capacity { 128 ≤ vec_capacity line.old }
    requires room { vec_len line.old + 42 ≤ 128 }
    ensures items { line.new.items ≡ line.old.items ++ behind (decimal first ∷ decimal second ∷ []) }
    ensures len { vec_len line.new ≤ vec_len line.old + 42 }
    ensures capacity { 128 ≤ vec_capacity line.new }
{
    push_number(line, first);
    push_number(line, second);
}

// Adds the numbers of an event, a space before each.
fn push_numbers(line: &mut Vec<u8>, what: &What)
    requires capacity { 128 ≤ vec_capacity line.old }
    requires room { vec_len line.old + 63 ≤ 128 }
    ensures items { line.new.items ≡ line.old.items ++ behind (numbers_of what.now) }
    ensures len { vec_len line.new ≤ vec_len line.old + 63 }
    ensures capacity { 128 ≤ vec_capacity line.new }
{
    match what {
        What::Step(label) => push_label_numbers(line, label),
        What::Undo(t, m) => push_two(line, u64::from(t.0), m.0),
        What::Release(k) => push_number(line, *k),
    }
}

fn push_label_numbers(line: &mut Vec<u8>, label: &Label)
    requires capacity { 128 ≤ vec_capacity line.old }
    requires room { vec_len line.old + 63 ≤ 128 }
    ensures items { line.new.items ≡ line.old.items ++ behind (label_numbers label.now) }
    ensures len { vec_len line.new ≤ vec_len line.old + 63 }
    ensures capacity { 128 ≤ vec_capacity line.new }
{
    match label {
        Label::Local(t, n) => push_two(line, u64::from(t.0), u64::from(*n)),
        Label::Spawn(t, u) => push_two(line, u64::from(t.0), u64::from(u.0)),
        Label::NewChan(t, c) => push_two(line, u64::from(t.0), u64::from(c.0)),
        Label::Comm(s, r, c) => {
            push_number(line, u64::from(s.0));
            push_two(line, u64::from(r.0), u64::from(c.0));
        }
        Label::NewRef(t, r) => push_two(line, u64::from(t.0), u64::from(r.0)),
        Label::Get(t, r) => push_two(line, u64::from(t.0), u64::from(r.0)),
        Label::Set(t, r) => push_two(line, u64::from(t.0), u64::from(r.0)),
        Label::Enter(t) => push_number(line, u64::from(t.0)),
        Label::Cut(t) => push_number(line, u64::from(t.0)),
        Label::Print(t) => push_number(line, u64::from(t.0)),
        Label::Probe(t, i) => {
            push_number(line, u64::from(t.0));
            push_signed(line, *i);
        }
        Label::Refuse(t) => push_number(line, u64::from(t.0)),
        Label::Pin(t) => push_number(line, u64::from(t.0)),
        Label::Attempt(t, g) => push_two(line, u64::from(t.0), *g),
    }
}

// The sign of an event, which says whether a step is struck.
fn sign_of(struck: bool, what: &What) -> Sign
    ensures { result ≡ sign_of struck what.now }
{
    match what {
        What::Step(_) if struck => Sign::Struck,
        What::Step(_) => Sign::Live,
        What::Undo(_, _) => Sign::Undone,
        What::Release(_) => Sign::Released,
    }
}

fn verb_of(what: &What) -> Verb
    ensures { result ≡ verb_of what.now }
{
    match what {
        What::Step(label) => label_verb(label),
        What::Undo(_, _) => Verb::Undo,
        What::Release(_) => Verb::Release,
    }
}

fn label_verb(label: &Label) -> Verb
    ensures { result ≡ label_verb label.now }
{
    match label {
        Label::Local(_, _) => Verb::Local,
        Label::Spawn(_, _) => Verb::Spawn,
        Label::NewChan(_, _) => Verb::NewChan,
        Label::Comm(_, _, _) => Verb::Comm,
        Label::NewRef(_, _) => Verb::NewRef,
        Label::Get(_, _) => Verb::Get,
        Label::Set(_, _) => Verb::Set,
        Label::Enter(_) => Verb::Enter,
        Label::Cut(_) => Verb::Cut,
        Label::Print(_) => Verb::Print,
        Label::Probe(_, _) => Verb::Probe,
        Label::Refuse(_) => Verb::Refuse,
        Label::Pin(_) => Verb::Pin,
        Label::Attempt(_, _) => Verb::Attempt,
    }
}
