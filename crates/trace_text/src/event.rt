//! From the words of a line to the event.
ghost use Rattle.std.specs.Prelude.{◌≡◌, [], ◌∷◌, option_map};
ghost use Rattle.text_lines.specs.Numeral.{number_in};
ghost use Rattle.trace_text.specs.Seen.{seen_args};
ghost use Rattle.trace_text.specs.Shape.{count_in, generation_in, name_in, seq_in, what_of};

use crate::form::Verb;
use crate::number::signed_in;
use crate::shape::Args;
use stab_base::{ChanId, RefId, Seq, ThreadId};
use stab_journal::{Label, What};
use text_lines::number_in;

/// The greatest number of a thread, a channel or a reference.
const MOST_NAMED: u64 = 4_000_000_000;

/// The greatest number of a count and of a generation.
const MOST_COUNTED: u64 = 4_294_967_295;

/// What happened, if each number is spelled right and within its range.
pub fn what_of(verb: Verb, args: Args<'_>) -> Option<What>
    ensures { result ≡ what_of verb (seen_args args.entry) }
{
    match args {
        Args::One(word) => what_of_one(verb, word),
        Args::Two(first, second) => what_of_two(verb, first, second),
        Args::Three(first, second, third) => what_of_three(verb, first, second, third),
    }
}

fn what_of_one(verb: Verb, word: &[u8]) -> Option<What>
    ensures { result ≡ what_of verb (word.now ∷ []) }
{
    if verb == Verb::Release {
        return Some(What::Release(count_in(word)?));
    }
    let t = thread_in(word)?;
    Some(What::Step(match verb {
        Verb::Enter => Label::Enter(t),
        Verb::Cut => Label::Cut(t),
        Verb::Print => Label::Print(t),
        Verb::Refuse => Label::Refuse(t),
        Verb::Pin => Label::Pin(t),
        _ => return None,
    }))
}

fn what_of_two(verb: Verb, first: &[u8], second: &[u8]) -> Option<What>
    ensures { result ≡ what_of verb (first.now ∷ second.now ∷ []) }
{
    let t = thread_in(first)?;
    Some(What::Step(match verb {
        Verb::Local => Label::Local(t, count_in(second)? as u32),
        Verb::Spawn => Label::Spawn(t, thread_in(second)?),
        Verb::NewChan => Label::NewChan(t, chan_in(second)?),
        Verb::NewRef => Label::NewRef(t, ref_in(second)?),
        Verb::Get => Label::Get(t, ref_in(second)?),
        Verb::Set => Label::Set(t, ref_in(second)?),
        Verb::Probe => Label::Probe(t, signed_in(second)?),
        Verb::Attempt => Label::Attempt(t, generation_in(second)?),
        Verb::Undo => return Some(What::Undo(t, Seq(seq_in(second)?))),
        _ => return None,
    }))
}

fn what_of_three(verb: Verb, first: &[u8], second: &[u8], third: &[u8]) -> Option<What>
    ensures { result ≡ what_of verb (first.now ∷ second.now ∷ third.now ∷ []) }
{
    if verb != Verb::Comm {
        return None;
    }
    let (s, r, c) = (thread_in(first)?, thread_in(second)?, chan_in(third)?);
    Some(What::Step(Label::Comm(s, r, c)))
}

/// The number of an event.
pub fn seq_in(word: &[u8]) -> Option<u64>
    ensures { result ≡ seq_in word.now }
{
    number_in(1, u64::MAX, word)
}

fn count_in(word: &[u8]) -> Option<u64>
    ensures { result ≡ count_in word.now }
{
    number_in(1, MOST_COUNTED, word)
}

fn generation_in(word: &[u8]) -> Option<u64>
    ensures { result ≡ generation_in word.now }
{
    number_in(0, MOST_COUNTED, word)
}

fn name_in(word: &[u8]) -> Option<u32>
    ensures { result ≡ name_in word.now }
{
    Some(number_in(1, MOST_NAMED, word)? as u32)
}

fn thread_in(word: &[u8]) -> Option<ThreadId>
    ensures { option_map (λ t. t.0) result ≡ name_in word.now }
{
    Some(ThreadId(name_in(word)?))
}

fn chan_in(word: &[u8]) -> Option<ChanId>
    ensures { option_map (λ c. c.0) result ≡ name_in word.now }
{
    Some(ChanId(name_in(word)?))
}

fn ref_in(word: &[u8]) -> Option<RefId>
    ensures { option_map (λ r. r.0) result ≡ name_in word.now }
{
    Some(RefId(name_in(word)?))
}
