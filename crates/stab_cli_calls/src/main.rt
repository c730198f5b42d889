//! Makes calls of the program `stab` one after the other, and prints what each answers.
//!
//! A line of standard input is a call over the files that lie beside it. Its output, its reason and its exit status are printed.
//!
//! The arguments are the names of tables. A table has calls over files in memory, and what each is to answer. Of each call it is
//! printed that its answer is that one, or what it answers. A line of a table is empty, or it begins with one of these words:
//!
//! | line | what it says |
//! |---|---|
//! | `# ..` | something to the reader |
//! | `== NAME` | a name for the rows that follow, which is printed |
//! | `file NAME TEXT` | the file has this text, up to the next one of this name. Without TEXT it is empty |
//! | `lines NAME TEXT` | the same, with a line feed for each `/` |
//! | `trace NAME EVENTS` | the file is the trace of these events of worker 1, each its sign and its words, with commas between them |
//! | `more NAME N WORD` | the file is that trace with one number one greater: that behind so many other words of the N-th event |
//! | `without NAME N` | the file is that trace without the N-th event |
//! | <code>&#124; TEXT</code> | before a call: the last file goes on with this line and a line feed |
//! | `times N TEXT` | the last file goes on with this text so many times |
//! | `byte N` | the last file goes on with this byte |
//! | `stab WORDS` | a call |
//! | `failing load N`, `failing put N` | the N-th load of a file, or put of the output, fails in it |
//! | `comes WORDS` | what comes to it in place of standard input: numbers, `gap` where none is there yet, `bad@N` for a line that is none and begins at byte N, `fails` for a read that fails, `end` |
//! | `once TEXT` | a line that its output has once |
//! | `struck NUMBERS` | the events with the sign `-` of the trace that it wrote |
//! | `undos N` | how many events with the sign `!` that trace has |
//! | `events N` | how many events the book has that it reports, or `none` without a book |
//! | `weights NUMBERS` | how many pure steps each of these is, 1 for any other event |
//! | `gate N` | how often a worker was at the gate |
//! | `resumed EVENTS` | the events of a run that went on from an image, each its worker and its words, with commas between them |
//! | <code>&#124; TEXT</code> | behind a call: the next line of its output. `times N TEXT` stands for so many |
//! | `...` | what else its output has isn't compared |
//! | `exit N REASON` | its exit status and its reason, which ends the row |
//! | `keep NAME` | the file is what the last call wrote |
//! | `passes FILE PROBES OPTIONS` | the trace of such a run, which is then the file `t`, is one of this program |
//!
//! A line of none of these forms is one that no answer has, so its row fails.
#![tactic(auto)]

mod answer;
mod call;
mod coming;
mod disk;
mod events;
mod resumed;
mod rows;
mod table;

use crate::rows::play;
use crate::table::Table;
use std::{env, fs, io};

fn main(rt: HostRuntime) -> io::Result<()> {
    for line in rt.lines(rt.alloc()) {
        let line = line?;
        disk::call(&rt, line.as_str())?;
    }
    for name in env::args(&rt)?.skip(1) {
        let text = fs::read_to_string(&rt, name.as_str())?;
        play(&rt, &mut Table::new(rt.alloc()), text.as_str())?;
    }
    Ok(())
}
