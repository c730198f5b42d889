//! What a board shows of a history.
ghost use Rattle.std.specs.Prelude.{◌≡◌, cond, List, length};
ghost use Rattle.stab_journal.specs.declared.event.Event.{Event as Events};
ghost use Rattle.stab_watch.specs.Counts.{StartsWith, counts, is_cut as is_a_cut, is_undo as is_an_undo};
ghost use Rattle.stab_watch.specs.Passes.{words_of};

use stab_base::Seq;
use stab_journal::{Event, History, Label, What};

/// How far a run is: the weight of its history, and how many undos and cuts it has.
#[derive(Clone, Copy, PartialEq, Eq, Debug)]
pub struct Reading {
    pub weight: u64,
    pub undos: u64,
    pub cuts: u64,
}

impl Reading {
    /// The reading of a history.
    pub fn of(history: &History) -> Reading
        ensures { words_of result ≡ counts history.now.events }
    {
        let none = Reading {
            weight: 0,
            undos: 0,
            cuts: 0,
        };
        counted(history, 0, none)
    }
}

// The reading of a history, given the reading `before` of its first `len` events.
pub(crate) fn counted(history: &History, len: u64, before: Reading) -> Reading
    requires { (front : List Events) × StartsWith history.now.events front × (len ≡ length front) × (words_of before ≡ counts front) }
    ensures { words_of result ≡ counts history.now.events }
{
    let mut undos = before.undos;
    let mut cuts = before.cuts;
    for i in len..history.len() {
        let event = history.get(Seq(i + 1)).unwrap();
        undos += once(is_undo(&event));
        cuts += once(is_cut(&event));
    }
    Reading {
        weight: history.weight(),
        undos,
        cuts,
    }
}

fn once(happens: bool) -> u64
    ensures { result ≡ cond happens 1 0 }
{
    if happens { 1 } else { 0 }
}

fn is_undo(event: &Event) -> bool
    ensures { result ≡ is_an_undo event.now.what }
{
    matches!(event.what, What::Undo(_, _))
}

fn is_cut(event: &Event) -> bool
    ensures { result ≡ is_a_cut event.now.what }
{
    matches!(event.what, What::Step(Label::Cut(_)))
}
