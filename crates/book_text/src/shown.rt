//! The text that a run shows at its end.
ghost use Rattle.std.specs.Prelude.{◌≡◌, ◌+◌, ◌++◌, ◌≤◌, IfOk, OnOk};
ghost use Rattle.std.specs.List.{flat_map};
ghost use Rattle.stab_base.specs.Printed.{printed};
ghost use Rattle.language.specs.Shown.{counts, fault_line, line};
ghost use Rattle.language.specs.Table.{fault as failed};
ghost use Rattle.book_text.specs.Written.{IsRestText, IsShownText, count_text, fault_line_of, fault_lines};

use commit_book::{Book, Counts};
use print_log::Values;
use stab_base::{Fault, NoMemory, Texts, ThreadId};
use std::alloc::Global;

/// What a run shows that ends with the book: each printed value, each thread that failed, and how many threads ended,
/// failed and wait, each on a line.
pub fn shown_text(alloc: Global, book: &Book) -> Result<Vec<u8>, NoMemory>
    ensures { IfOk result (λ text. IsShownText book.now text.items) }
{
    let mut text = Vec::new(alloc);
    put_values(book.job().program().texts(), book.printed(), &mut text)?;
    put_faults(alloc, book, &mut text)?;
    put_counts(alloc, book, &mut text)?;
    Ok(text)
}

/// The same without the lines of the values that were released.
pub fn rest_text(alloc: Global, book: &Book) -> Result<Vec<u8>, NoMemory>
    ensures { IfOk result (λ text. IsRestText book.now text.items) }
{
    let mut text = Vec::new(alloc);
    put_values(book.job().program().texts(), book.unreleased(), &mut text)?;
    put_faults(alloc, book, &mut text)?;
    put_counts(alloc, book, &mut text)?;
    Ok(text)
}

// Each value on a line.
fn put_values(texts: &Texts, values: Values<'_>, text: &mut Vec<u8>) -> Result<(), NoMemory>
    ensures { OnOk result (text.new.items ≡ text.old.items ++ flat_map (λ v. line (printed texts.now v)) values.entry) }
{
    for value in values {
        value.put_text(texts, text)?;
        text.push(b'\n')?;
    }
    Ok(())
}

// Each thread that failed on a line, in the order of their numbers.
fn put_faults(alloc: Global, book: &Book, text: &mut Vec<u8>) -> Result<(), NoMemory>
    ensures { OnOk result (text.new.items ≡ text.old.items ++ fault_lines book.now book.now.next.thread) }
{
    for t in 0..=book.last_thread().0 {
        put_fault_of(alloc, book, t, text)?;
    }
    Ok(())
}

// The line of a thread, if it failed.
fn put_fault_of(alloc: Global, book: &Book, t: u32, text: &mut Vec<u8>) -> Result<(), NoMemory>
    ensures { OnOk result (text.new.items ≡ text.old.items ++ fault_line_of book.now t) }
{
    match book.fault_of(ThreadId(t)) {
        Some(fault) => put_fault(alloc, t, fault, text),
        None => Ok(()),
    }
}

fn put_fault(alloc: Global, t: u32, fault: Fault, text: &mut Vec<u8>) -> Result<(), NoMemory>
    ensures { OnOk result (text.new.items ≡ text.old.items ++ fault_line t (failed fault)) }
{
    let name = fault.name();
    let line = format!(in alloc; "thread {t} fault {name}\n")?;
    put(text, line.as_bytes())
}

fn put_counts(alloc: Global, book: &Book, text: &mut Vec<u8>) -> Result<(), NoMemory>
    ensures { OnOk result (text.new.items ≡ text.old.items ++ count_text book.now) }
{
    let Counts {
        ended,
        faulted,
        parked,
        ready,
        leased,
        ..
    } = book.counts();
    // There are fewer threads than numbers of 32 bits.
    let _last_thread = book.last_thread();
    let waiting = parked + ready + leased;
    let line = format!(in alloc; "ended {ended} faulted {faulted} waiting {waiting}\n")?;
    put(text, line.as_bytes())
}

fn put(text: &mut Vec<u8>, piece: &[u8]) -> Result<(), NoMemory>
    ensures { OnOk result (text.new.items ≡ text.old.items ++ piece.now) }
{
    Ok(text.extend_from_slice(piece)?)
}
