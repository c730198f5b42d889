//! The board.
ghost use Rattle.std.specs.Prelude.{◌≡◌, [], List, length, IfOk};
ghost use Rattle.stab_journal.specs.declared.event.Event.{Event as Events};
ghost use Rattle.stab_watch.specs.Counts.{StartsWith, WasShown, last_words};
ghost use Rattle.stab_watch.specs.Passes.{HasShown, Reads, new_writer, reader_of, showing, words_of};

use crate::passes::{ReadPass, WritePass};
use crate::reading::{Reading, counted};
use crate::rule::{Load, Move, Part, Rule, Store, Take};
use crate::view::Known;
use crossbeam_utils::atomic::seq_cell::RuledSeqCell;
use stab_base::NoMemory;
use stab_journal::History;
use std::alloc::Global;
use std::marker::Model;
use std::sync::Wait;

type Cell = RuledSeqCell<[u64; 3], Known, Rule, 3>;

/// Three words that one pass writes and others read: the weight of a history, and the numbers of its undos and its cuts.
#[derive(Drop)]
pub struct Board {
    pub(crate) cell: Cell,
}

impl Model for Board {
    ghost use Rattle.atomic_table.specs.Seated.{TableId, table_id_coded};

    ghost Value = { TableId };

    ghost coded = { table_id_coded };

    ghost view = { λ b. b.cell.table.shared.table_id };
}

impl Board {
    /// A board that shows zeros, and its writer.
    pub fn new(alloc: Global) -> Result<(Board, WritePass), NoMemory>
        ensures writer { IfOk result (λ r. r.1 ≡ new_writer r.0) }
        ensures shown { IfOk result (λ r. HasShown [] r.1) }
    {
        let (cell, pass) = Cell::ruled(alloc, [0, 0, 0])?;
        let now = Reading {
            weight: 0,
            undos: 0,
            cuts: 0,
        };
        Ok((Board { cell }, WritePass { pass, len: 0, now }))
    }

    /// A new reader, which has seen all that the writer has shown so far.
    pub fn reader(&self, writer: &mut WritePass) -> ReadPass
        requires own { writer.old.board ≡ self.now }
        ensures writer { writer.new ≡ writer.old }
        ensures reader { result ≡ reader_of writer.old.board writer.old.shown }
    {
        ReadPass {
            pass: self.cell.split_pass::<Part>(&mut writer.pass),
            last: writer.now,
        }
    }

    /// Shows a history that begins with the events that were shown last. It may wait for a reader.
    pub fn publish<R: Wait>(&self, rt: &R, writer: &mut WritePass, history: &History)
        requires own { writer.old.board ≡ self.now }
        requires shown { (front : List Events) × HasShown front writer.old × StartsWith history.now.events front }
        ensures writer { writer.new ≡ showing writer.old history.now.events }
        ensures shown { HasShown history.now.events writer.new }
    {
        let now = counted(history, writer.len, writer.now);
        let words = [now.weight, now.undos, now.cuts];
        self.cell.swap_as::<Store, R>(rt, &mut writer.pass, words);
        writer.len = history.len();
        writer.now = now;
    }

    /// Shows a history that begins with the events that were shown last, where it has grown since. Then it may wait for a reader.
    #[tactic(auto, using(crate::proofs::Showing::still_shown))]
    pub(crate) fn show<R: Wait>(&self, rt: &R, writer: &mut WritePass, history: &History)
        requires own { writer.old.board ≡ self.now }
        requires shown { (front : List Events) × HasShown front writer.old × StartsWith history.now.events front }
        ensures own { writer.new.board ≡ writer.old.board }
        ensures same { length history.now.events ≡ writer.old.len → writer.new ≡ writer.old }
        ensures shown { HasShown history.now.events writer.new }
    {
        if history.len() > writer.len {
            self.publish(rt, writer, history);
        }
    }

    /// What the writer has shown last. It is one load and takes no turn; it may wait for a store in progress.
    pub fn read<R: Wait>(&self, rt: &R, reader: &mut ReadPass) -> Reading
        requires own { reader.old.board ≡ self.now }
        ensures own { reader.new.board ≡ reader.old.board }
        ensures read { Reads reader.old.seen (words_of result) reader.new.seen }
    {
        let words = self.cell.load_as::<Load, R>(rt, &mut reader.pass);
        reader.last = reading_of(words);
        reader.last
    }

    /// What the reader has read last. It was shown of the writer's history at one moment, as all that the reader has seen. The reader ends.
    pub fn gather<R: Wait>(&self, rt: &R, writer: &mut WritePass, reader: ReadPass) -> Reading
        requires own { (writer.old.board ≡ self.now) × (reader.board ≡ self.now) }
        ensures writer { writer.new ≡ writer.old }
        ensures last { words_of result ≡ last_words reader.seen }
        ensures front { StartsWith writer.old.shown reader.seen }
        ensures shown { (events : List Events) → HasShown events writer.old → WasShown events (words_of result) }
    {
        let ReadPass { mut pass, last } = reader;
        let moved = self.cell.split_pass::<Move>(&mut pass);
        self.cell.join_pass::<Take>(&mut writer.pass, moved);
        self.cell.load_as::<Load, R>(rt, &mut writer.pass);
        last
    }
}

fn reading_of(words: [u64; 3]) -> Reading
    ensures { words_of result ≡ words }
{
    Reading {
        weight: words[0],
        undos: words[1],
        cuts: words[2],
    }
}
