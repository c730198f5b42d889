//! What a trace says of a journal.
ghost use Rattle.std.specs.Prelude.{◌≡◌, ℕ, List, Ok, Err};
ghost use Rattle.std.specs.FinSet.{contains};
ghost use Rattle.stab_journal.specs.Journal.{IsValid, Journal};
ghost use Rattle.trace_text.specs.declared.fault.TraceFault.{TraceFault};
ghost use Rattle.trace_text.specs.declared.form.Header.TheVariants.{First};
ghost use Rattle.trace_text.specs.declared.line.Entry.{Entry};
ghost use Rattle.trace_text.specs.Reading.{reading};
ghost use Rattle.trace_text.specs.Text.{IsTextOf, NoRelease, entries, text, trace};

/// The trace of a history is read as the history, also under the first header where it has no release.
pub fn traces_are_read()
    ensures second { (j : Journal) → IsValid j → reading (trace j) ≡ Ok (entries j) }
    ensures first { (j : Journal) → IsValid j → NoRelease (entries j)
        → reading (text First (entries j)) ≡ Ok (entries j) }
{}

/// What is read as events is their text.
pub fn what_is_read_is_text()
    ensures { (bytes : List ℕ) (es : List Entry) → reading bytes ≡ Ok es → IsTextOf bytes es }
{}

/// A text with a fault is the trace of no history, nor under the first header of one without a release.
pub fn faults_are_of_no_trace()
    ensures { (bytes : List ℕ) (fault : TraceFault) (j : Journal) → reading bytes ≡ Err fault
        → IsValid j → IsTextOf bytes (entries j) → ⊥ }
{}

/// A trace is that of one history: two with one trace have the same events and the same struck steps.
pub fn one_history()
    ensures events { (a b : Journal) → IsValid a → IsValid b → trace a ≡ trace b → a.events ≡ b.events }
    ensures struck { (a b : Journal) → IsValid a → IsValid b → trace a ≡ trace b
        → (q : ℕ) → contains a.struck q ≡ contains b.struck q }
{}
