//! The events of a run that went on from an image, in short.

use call_report::{Made, Report};
use stab_base::{ChanId, RefId, Seq, ThreadId};
use stab_journal::{Label, What};
use std::alloc::{AllocError, Global};

/// The events that it made, each its worker and its words, with commas between them.
pub fn resumed_of(alloc: Global, report: &Report) -> Result<String, AllocError> {
    let mut text = String::new(alloc);
    if let Some(Made::Resumed(resumed)) = &report.made {
        for event in resumed.events.iter() {
            if !text.is_empty() {
                text.push(',')?;
            }
            let worker = event.worker;
            write!(text, "w{worker} ")?;
            add_what(&mut text, event.what)?;
        }
    }
    Ok(text)
}

fn add_what(text: &mut String, what: What) -> Result<(), AllocError> {
    match what {
        What::Step(label) => add_label(text, label),
        What::Undo(ThreadId(t), Seq(m)) => write!(text, "undo {t} {m}"),
        What::Release(k) => write!(text, "release {k}"),
    }
}

fn add_label(text: &mut String, label: Label) -> Result<(), AllocError> {
    match label {
        Label::Local(ThreadId(t), n) => write!(text, "local {t} {n}"),
        Label::Spawn(ThreadId(t), ThreadId(u)) => write!(text, "spawn {t} {u}"),
        Label::NewChan(ThreadId(t), ChanId(c)) => write!(text, "newchan {t} {c}"),
        Label::Comm(ThreadId(t), ThreadId(u), ChanId(c)) => write!(text, "comm {t} {u} {c}"),
        Label::NewRef(ThreadId(t), RefId(r)) => write!(text, "newref {t} {r}"),
        Label::Get(ThreadId(t), RefId(r)) => write!(text, "get {t} {r}"),
        Label::Set(ThreadId(t), RefId(r)) => write!(text, "set {t} {r}"),
        Label::Enter(ThreadId(t)) => write!(text, "enter {t}"),
        Label::Cut(ThreadId(t)) => write!(text, "cut {t}"),
        Label::Print(ThreadId(t)) => write!(text, "print {t}"),
        Label::Probe(ThreadId(t), i) => write!(text, "probe {t} {i}"),
        Label::Refuse(ThreadId(t)) => write!(text, "refuse {t}"),
        Label::Pin(ThreadId(t)) => write!(text, "pin {t}"),
        Label::Attempt(ThreadId(t), g) => write!(text, "attempt {t} {g}"),
    }
}
