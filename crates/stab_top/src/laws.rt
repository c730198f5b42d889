//! Laws of whole calls, which follow from what each status says: what a run shows is right, a good file is accepted, a bad one is
//! refused. Where a law says that a fault was counted, the files or the sink failed in that call. The functions do nothing.
ghost use Rattle.std.specs.Prelude.{◌≡◌, ◌⊎◌, ◌++◌, ◌∷◌, [], ℕ, ℤ, List, count_by, length, Some, None, Ok, true};
ghost use Rattle.commit_book.specs.Book.{BookView, fault_at};
ghost use Rattle.commit_book.specs.Headline.{StandsIn};
ghost use Rattle.drill_text.specs.declared.script.Line.{Line};
ghost use Rattle.drill_text.specs.Script.{script_of};
ghost use Rattle.lone_worker.specs.Solo.{BeginsWith, IsWholeSolo};
ghost use Rattle.mill_text.specs.Mill.{mill_text};
ghost use Rattle.language.specs.Plain.{PlainState};
ghost use Rattle.language.specs.Standing.{event};
ghost use Rattle.schedule_drill.specs.Drilled.{IsDrilled, IsOfScript, IsRefused as IsUnplayed};
ghost use Rattle.drill_text.specs.declared.fault.DrillFault.{DrillFault};
ghost use Rattle.image_laws.specs.Image.{Image};
ghost use Rattle.image_text.specs.declared.image_fault.ImageFault.{ImageFault};
ghost use Rattle.stab_base.specs.declared.fault.Fault.TheVariants.{WrongKind};
ghost use Rattle.stab_base.specs.declared.numbers.Seq.{Seq};
ghost use Rattle.stab_base.specs.declared.numbers.ThreadId.{ThreadId};
ghost use Rattle.probe_text.specs.declared.fault.ProbesFault.{ProbesFault};
ghost use Rattle.stab_code.specs.JobParts.{JobParts, job_of};
ghost use Rattle.stab_code.specs.Program.{ProgramParts};
ghost use Rattle.stab_journal.specs.declared.event.Event.{Event};
ghost use Rattle.stab_journal.specs.declared.event.Numbered.{Numbered};
ghost use Rattle.stab_journal.specs.declared.event.What.TheVariants.{Undo};
ghost use Rattle.stab_journal.specs.Dependence.{Reaches};
ghost use Rattle.stab_journal.specs.Due.{is_print};
ghost use Rattle.stab_journal.specs.Journal.{IsValid, Journal, survivors};
ghost use Rattle.stab_journal.specs.Names.{has};
ghost use Rattle.stab_journal.specs.Reached.{reached};
ghost use Rattle.stab_journal.specs.Surviving.{run_of};
ghost use Rattle.stab_text.specs.declared.fault.TextFault.{TextFault};
ghost use Rattle.stab_text.specs.Text.{HasFault, IsTextOf};
ghost use Rattle.stab_words.specs.Asked.{asked};
ghost use Rattle.stab_words.specs.declared.request.Request.{Request};
ghost use Rattle.stab_words.specs.declared.request.DrillArgs.{DrillArgs};
ghost use Rattle.stab_words.specs.declared.request.MillArgs.{MillArgs};
ghost use Rattle.stab_words.specs.declared.request.Request.TheVariants.{Check, Drill, Mill, Resume, Run, Save, Serve, Trace, Types, Verify, Watch};
ghost use Rattle.stab_words.specs.declared.request.ResumeArgs.{ResumeArgs};
ghost use Rattle.stab_words.specs.declared.request.SaveArgs.{SaveArgs};
ghost use Rattle.stab_words.specs.declared.request.RunArgs.{RunArgs as Args};
ghost use Rattle.stab_words.specs.declared.request.ServeArgs.{ServeArgs};
ghost use Rattle.stab_words.specs.declared.request.VerifyArgs.{VerifyArgs};
ghost use Rattle.trace_text.specs.declared.fault.TraceFault.{TraceFault};
ghost use Rattle.trace_text.specs.Text.{trace};
ghost use Rattle.call_report.specs.Call.{Call, CountedFault, status_of};
ghost use Rattle.stab_top.specs.Call.{Says};
ghost use Rattle.stab_top.specs.Complete.{Checked, ComesTo, HasResumed, IsHeld, IsHeldFor, IsRefused, IsSavedAs, IsScriptFor, Ran, StopsWith, TypesFound, WasDrilled, WasJudged, WasServed, WasStuck};
ghost use Rattle.book_runs.specs.Ending.{IsRunOf, shown_by};
ghost use Rattle.book_runs.specs.Watching.{watched_by};
ghost use Rattle.stab_words.specs.Command.{most_workers};
ghost use Rattle.stab_top.specs.Headline.{AsksForRun, HasWhatCame, IsEnd, IsOfTheLanguage, ShowsRunOf, ShowsServed};
ghost use Rattle.stab_top.specs.Serving.{heard_by};
ghost use Rattle.book_runs.specs.Serving.{LeftOver};
ghost use Rattle.stab_top.specs.Alone.{ReportsDrillOfOne};
ghost use Rattle.call_report.specs.Reading.{probes_form, program_form, trace_form};
ghost use Rattle.file_commands.specs.Resuming.{image_form};
ghost use Rattle.call_report.specs.declared.report.Made.TheVariants as made;
ghost use Rattle.call_status.specs.declared.role.Role.TheVariants.{Image as ImageFile, Probes as ProbesFile, Program as ProgramFile, Script as ScriptFile, Trace as TraceFile};
ghost use Rattle.call_status.specs.declared.status.Status.TheVariants.{Done as DoneStatus, NoMemory as NoMemoryStatus};

use scope_check::programs_are_valid;
use stab_types::typed_programs_never_go_wrong;

/// If the words ask for a run, and it is Done, Held or Spent, then: the program in the file was run, with the script, the fuel
/// and the quantum that the words name; the journal of the report's book without its undone steps is, in order, a run of the
/// plain language from the start state that ends in exactly the book's threads, channels, references and output; each granted
/// stabilize undid its section's entry and precisely the steps that depend on it; once a cut or a pin was made, no step that was
/// left before the cut, or on which the pin depends, was undone; the status says how the run ended; and exactly what the run shows
/// was written. This is true for any number of workers.
pub fn runs_are_of_the_language()
    ensures { (words : List (List ℕ)) (c : Call) (args : Args) → Says words c → asked words ≡ Ok (Run args) →
        IsEnd (status_of c) → ShowsRunOf shown_by c args }
{}

/// The events of such a run by one worker are those of a drill of `lease 1` and `commit 1`.
pub fn runs_by_one_worker_are_drills()
    ensures { (words : List (List ℕ)) (c : Call) (args : Args) → Says words c → asked words ≡ Ok (Run args) →
        IsEnd (status_of c) → args.workers ≡ 1 → ReportsDrillOfOne c }
{}

/// The same for a watched run. It has a floor also with one worker, so it is said as of a run by the most workers. After what the run
/// shows, the line that a board shows was written.
pub fn watched_runs_are_of_the_language()
    ensures { (words : List (List ℕ)) (c : Call) (args : Args) → Says words c → asked words ≡ Ok (Watch args) →
        IsEnd (status_of c) → ShowsRunOf watched_by c (record args { workers = most_workers }) }
{}

/// If the words ask to serve a program, and the call is Done, Held or Spent, then: the program in the file was run, with the fuel and the
/// quantum that the words name; the numbers that came in the call are the script of the report's book, all of them and in their order,
/// so the i-th probe got the i-th number that came, and 0 for want of one only after the input's end; what is said above of the book's
/// journal is true; the status says how the run ended; and exactly what the run shows was written. This is true for every
/// sequence of numbers, whenever each comes, and for any number of workers.
pub fn served_runs_are_of_the_language()
    ensures { (words : List (List ℕ)) (c : Call) (args : ServeArgs) → Says words c → asked words ≡ Ok (Serve args) →
        IsEnd (status_of c) → ShowsServed c args }
{}

/// If the report of such a call has a book, its probes got the numbers that came in the call, whatever the status. None is left over but
/// where memory ran out, and of too many numbers the last.
pub fn served_probes_get_what_came()
    ensures { (words : List (List ℕ)) (c : Call) (args : ServeArgs) (book : BookView) → Says words c → asked words ≡ Ok (Serve args) →
        c.outcome.report.made ≡ Some (made.Book book) →
        (over : List ℤ) × HasWhatCame c book over × LeftOver (status_of c) book.job (heard_by c.input_after) over }
{}

/// If the report of a run, a trace, a watched or served run, the mill or a drill has a book, what is said above of the book's journal is
/// true, whatever the status.
pub fn books_are_of_the_language()
    ensures { (words : List (List ℕ)) (c : Call) (request : Request) (book : BookView) → Says words c →
        asked words ≡ Ok request → AsksForRun request → c.outcome.report.made ≡ Some (made.Book book) → IsOfTheLanguage book }
{}

/// Two consequences for such a book: an undo takes back only steps that depend on its section's entry; and the book has printed
/// as many values as the journal without its undone steps has prints.
pub fn undos_and_output()
    ensures no_more { (book : BookView) (first after : List Event) (worker : ℕ) (t : ThreadId) (m : Seq) (n : Numbered) →
        IsOfTheLanguage book → book.history.events ≡ first ++ event worker (Undo t m) ∷ after → StandsIn (run_of first) n →
        has (reached (run_of first) m.0) n.seq.0 ≡ true → Reaches (run_of first) m.0 n }
    ensures output { (book : BookView) → IsOfTheLanguage book →
        length book.printed ≡ count_by (λ (n : Numbered). is_print n.label) (survivors book.history) }
{}

/// If the words ask for a run, and the files say that they hold, within the limits, the text of a program under its name and the
/// script that the words name, then the run came to its end, or memory ran out, or a fault was counted.
pub fn good_programs_run()
    ensures { (words : List (List ℕ)) (c : Call) (args : Args) (bytes : List ℕ) (program : ProgramParts)
        (script : List ℤ) → Says words c → asked words ≡ Ok (Run args) → IsHeld ProgramFile c args.file bytes →
        IsTextOf bytes program → IsScriptFor c args.probes script → Ran (status_of c) ⊎ CountedFault c }
{}

/// The same for the trace of a run.
pub fn good_programs_are_traced()
    ensures { (words : List (List ℕ)) (c : Call) (args : Args) (bytes : List ℕ) (program : ProgramParts)
        (script : List ℤ) → Says words c → asked words ≡ Ok (Trace args) → IsHeld ProgramFile c args.file bytes →
        IsTextOf bytes program → IsScriptFor c args.probes script → Ran (status_of c) ⊎ CountedFault c }
{}

/// The same for a watched run.
pub fn good_programs_are_watched()
    ensures { (words : List (List ℕ)) (c : Call) (args : Args) (bytes : List ℕ) (program : ProgramParts)
        (script : List ℤ) → Says words c → asked words ≡ Ok (Watch args) → IsHeld ProgramFile c args.file bytes →
        IsTextOf bytes program → IsScriptFor c args.probes script → Ran (status_of c) ⊎ CountedFault c }
{}

/// If the words ask to serve a program, and the files say that they hold its text under its name within the limit, then the run came to
/// its end, or a line that came is no number, or reading a number failed, or one more came than a script may have, or memory ran out,
/// or a fault was counted.
pub fn good_programs_are_served()
    ensures { (words : List (List ℕ)) (c : Call) (args : ServeArgs) (bytes : List ℕ) (program : ProgramParts) → Says words c →
        asked words ≡ Ok (Serve args) → IsHeld ProgramFile c args.file bytes → IsTextOf bytes program →
        WasServed (status_of c) c ⊎ CountedFault c }
{}

/// If the words ask for the mill, and its text is that of a program, then the run came to its end, or memory ran out, or a fault
/// was counted.
pub fn mills_run()
    ensures { (words : List (List ℕ)) (c : Call) (args : MillArgs) (program : ProgramParts) → Says words c →
        asked words ≡ Ok (Mill args) → IsTextOf (mill_text args.size) program → Ran (status_of c) ⊎ CountedFault c }
{}

/// If the words ask for a check, and the files say that they hold the text of a program under its name within the limit, then its
/// line was written, or memory ran out, or a fault was counted.
pub fn good_programs_check()
    ensures { (words : List (List ℕ)) (c : Call) (file bytes : List ℕ) (program : ProgramParts) → Says words c →
        asked words ≡ Ok (Check file) → IsHeld ProgramFile c file bytes → IsTextOf bytes program →
        Checked (status_of c) ⊎ CountedFault c }
{}

/// If the words ask for the types of a program, and the files say that they hold its text under its name within the limit, then
/// the program is typed, or one of its functions is the first that isn't, or memory ran out, or a fault was counted.
pub fn types_are_told()
    ensures { (words : List (List ℕ)) (c : Call) (file bytes : List ℕ) (program : ProgramParts) → Says words c →
        asked words ≡ Ok (Types file) → IsHeld ProgramFile c file bytes → IsTextOf bytes program →
        TypesFound (status_of c) program ⊎ CountedFault c }
{}

/// If the words ask for the types of a program, and the status is Done, then no thread in any book of that program has failed
/// because a value was of the wrong kind. The book may come from `run`, `trace`, `watch`, `serve`, `mill` or `drill`, with any
/// numbers for its probes.
pub fn typed_files_never_go_wrong()
    ensures { (words : List (List ℕ)) (c : Call) (file bytes : List ℕ) (program : ProgramParts) (book : BookView) → Says words c →
        asked words ≡ Ok (Types file) → status_of c ≡ DoneStatus → IsHeld ProgramFile c file bytes → IsTextOf bytes program →
        IsOfTheLanguage book → book.job.program ≡ program → (t : ℕ) → fault_at book t ≡ Some WrongKind → ⊥ }
{
    programs_are_valid();
    typed_programs_never_go_wrong();
}

/// If the words ask for a verdict, and the files say that they hold the program, the script and the trace within their limits,
/// then the status is that of the verdict, or memory ran out, or a fault was counted.
pub fn traces_are_judged()
    ensures { (words : List (List ℕ)) (c : Call) (args : VerifyArgs) (text bytes : List ℕ) (program : ProgramParts)
        (script : List ℤ) (history : Journal) → Says words c → asked words ≡ Ok (Verify args) →
        IsHeld ProgramFile c args.file text → IsTextOf text program → IsScriptFor c args.probes script →
        IsHeld TraceFile c args.trace bytes → trace_form.IsOf bytes history →
        WasJudged c program script bytes ⊎ CountedFault c }
{}

/// If the words ask for a verdict, and the files say that they hold, within their limits, a program, a script and the trace of a
/// run of the two, as `run` and `trace` make one, then the verdict is yes, or memory ran out, or a fault was counted.
pub fn traces_of_runs_pass()
    ensures { (workers : ℕ) (job : JobParts) (book : BookView) (state : PlainState) (words : List (List ℕ)) (c : Call) (args : VerifyArgs)
        (text : List ℕ) → IsRunOf workers job book state → IsValid book.history → Says words c → asked words ≡ Ok (Verify args) →
        IsHeld ProgramFile c args.file text → IsTextOf text job.program → IsScriptFor c args.probes job.script →
        IsHeld TraceFile c args.trace (trace book.history) →
        ((status_of c ≡ DoneStatus) ⊎ (status_of c ≡ NoMemoryStatus)) ⊎ CountedFault c }
{}

/// If the words ask for a drill, and the files say that they hold the program, the probe script and the drill script within their
/// limits, then the drill was played and its text written, or a line can't be played and is blamed, or memory ran out, or a fault
/// was counted.
pub fn scripts_are_drilled()
    ensures { (words : List (List ℕ)) (c : Call) (args : DrillArgs) (text bytes : List ℕ) (program : ProgramParts)
        (script : List ℤ) → Says words c → asked words ≡ Ok (Drill args) → IsHeld ProgramFile c args.file text →
        IsTextOf text program → IsScriptFor c args.probes script → IsHeld ScriptFile c args.script bytes →
        WasDrilled c (job_of program script args.fuel args.quantum) (script_of bytes) ⊎ CountedFault c }
{}

/// If a line of such a drill script isn't an order, the script was refused, or memory ran out, or a fault was counted.
pub fn bad_lines_stop_drills()
    ensures { (words : List (List ℕ)) (c : Call) (args : DrillArgs) (text bytes : List ℕ) (program : ProgramParts)
        (script : List ℤ) (before : List Line) (line : Line) (behind : List Line) → Says words c →
        asked words ≡ Ok (Drill args) → IsHeld ProgramFile c args.file text → IsTextOf text program →
        IsScriptFor c args.probes script → IsHeld ScriptFile c args.script bytes →
        script_of bytes ≡ before ++ line ∷ behind → line.order ≡ None →
        (WasStuck c (job_of program script args.fuel args.quantum) (script_of bytes) ⊎ (status_of c ≡ NoMemoryStatus)) ⊎ CountedFault c }
{}

/// The job and the lines of such a script determine the result, unless memory runs out or a fault is counted. If a drill of the
/// two can be played, the call ends with its lines, its desk and what that desk shows; if a line can't be played, the call ends
/// with the fault of that line, and nothing is written.
pub fn drills_are_determined()
    ensures played { (words : List (List ℕ)) (c : Call) (args : DrillArgs) (text bytes : List ℕ) (program : ProgramParts)
        (script : List ℤ) (lines : List ℕ) (book : BookView) → Says words c → asked words ≡ Ok (Drill args) →
        IsHeld ProgramFile c args.file text → IsTextOf text program → IsScriptFor c args.probes script →
        IsHeld ScriptFile c args.script bytes →
        IsDrilled (job_of program script args.fuel args.quantum) (script_of bytes) lines book →
        ComesTo (status_of c) c lines book }
    ensures stopped { (words : List (List ℕ)) (c : Call) (args : DrillArgs) (text bytes : List ℕ) (program : ProgramParts)
        (script : List ℤ) (fault : DrillFault) → Says words c → asked words ≡ Ok (Drill args) →
        IsHeld ProgramFile c args.file text → IsTextOf text program → IsScriptFor c args.probes script →
        IsHeld ScriptFile c args.script bytes → IsOfScript fault →
        IsUnplayed (job_of program script args.fuel args.quantum) (script_of bytes) fault → StopsWith (status_of c) c fault }
{}

/// The job determines the run of one worker, as `run`, `trace` and `mill` make one: two such runs that are over have the same
/// history, and the history of one that isn't over is the beginning of the history of one that is.
pub fn runs_have_one_history()
    ensures whole { (job : JobParts) (a b : BookView) (s t : PlainState) → IsRunOf 1 job a s → IsRunOf 1 job b t →
        IsWholeSolo a.job a.history.events → IsWholeSolo b.job b.history.events → a.history.events ≡ b.history.events }
    ensures part { (job : JobParts) (a b : BookView) (s t : PlainState) → IsRunOf 1 job a s → IsRunOf 1 job b t →
        IsWholeSolo a.job a.history.events → BeginsWith a.history.events b.history.events }
{}

/// If the words ask for a command on a program, and the files say that they hold bytes with this fault under the program's name within the
/// limit, then the call was refused for this fault, or memory ran out, or a fault was counted.
pub fn bad_texts_are_refused()
    ensures { (words : List (List ℕ)) (c : Call) (request : Request) (bytes : List ℕ) (fault : TextFault) → Says words c →
        asked words ≡ Ok request → IsHeldFor c request bytes → HasFault bytes fault →
        IsRefused program_form c fault ⊎ CountedFault c }
{}

/// The same for the probe file of a run, a trace or a watched run, if there is a program.
pub fn bad_probes_stop_runs()
    ensures { (words : List (List ℕ)) (c : Call) (args : Args) (text name bytes : List ℕ) (program : ProgramParts)
        (fault : ProbesFault) → Says words c → (asked words ≡ Ok (Run args)) ⊎ (asked words ≡ Ok (Trace args)) ⊎
        (asked words ≡ Ok (Watch args)) →
        IsHeld ProgramFile c args.file text → IsTextOf text program → args.probes ≡ Some name →
        IsHeld ProbesFile c name bytes → probes_form.HasFault bytes fault → IsRefused probes_form c fault ⊎ CountedFault c }
{}

/// The same for the probe file of a verdict, if there is a program.
pub fn bad_probes_are_refused()
    ensures { (words : List (List ℕ)) (c : Call) (args : VerifyArgs) (text name bytes : List ℕ) (program : ProgramParts)
        (fault : ProbesFault) → Says words c → asked words ≡ Ok (Verify args) →
        IsHeld ProgramFile c args.file text → IsTextOf text program → args.probes ≡ Some name →
        IsHeld ProbesFile c name bytes → probes_form.HasFault bytes fault → IsRefused probes_form c fault ⊎ CountedFault c }
{}

/// The same for the probe file of a drill, if there is a program.
pub fn bad_probes_stop_drills()
    ensures { (words : List (List ℕ)) (c : Call) (args : DrillArgs) (text name bytes : List ℕ) (program : ProgramParts)
        (fault : ProbesFault) → Says words c → asked words ≡ Ok (Drill args) →
        IsHeld ProgramFile c args.file text → IsTextOf text program → args.probes ≡ Some name →
        IsHeld ProbesFile c name bytes → probes_form.HasFault bytes fault → IsRefused probes_form c fault ⊎ CountedFault c }
{}

/// The same for a trace file, if there are a program and a script.
pub fn bad_traces_are_refused()
    ensures { (words : List (List ℕ)) (c : Call) (args : VerifyArgs) (text bytes : List ℕ) (program : ProgramParts)
        (script : List ℤ) (fault : TraceFault) → Says words c → asked words ≡ Ok (Verify args) →
        IsHeld ProgramFile c args.file text → IsTextOf text program → IsScriptFor c args.probes script →
        IsHeld TraceFile c args.trace bytes → trace_form.HasFault bytes fault → IsRefused trace_form c fault ⊎ CountedFault c }
{}

/// If the words ask for the image at a cut, and the files say that they hold the program, the script and the trace within their
/// limits, then: the image at that cut was written; or the trace is that of a run and has fewer cuts; or it isn't that of a run; or
/// memory ran out, or a fault was counted.
pub fn cuts_are_saved()
    ensures { (words : List (List ℕ)) (c : Call) (args : SaveArgs) (text bytes : List ℕ) (program : ProgramParts)
        (script : List ℤ) (history : Journal) → Says words c → asked words ≡ Ok (Save args) →
        IsHeld ProgramFile c args.file text → IsTextOf text program → IsScriptFor c args.probes script →
        IsHeld TraceFile c args.trace bytes → trace_form.IsOf bytes history →
        IsSavedAs (status_of c) c text program script history args.at ⊎ CountedFault c }
{}

/// If the words ask for a run that goes on from an image, and the files say that they hold the text of an image under its name within
/// the limit, then the run went on to its end, or until the fuel was used up, and what it shows was written; or memory ran out, or a
/// fault was counted.
pub fn images_go_on()
    ensures { (words : List (List ℕ)) (c : Call) (args : ResumeArgs) (bytes : List ℕ) (image : Image) → Says words c →
        asked words ≡ Ok (Resume args) → IsHeld ImageFile c args.image bytes → image_form.IsOf bytes image →
        HasResumed (status_of c) image args.fuel args.quantum c.outcome ⊎ CountedFault c }
{}

/// If they hold bytes with a fault there, then the call was refused for this fault, or memory ran out, or a fault was counted.
pub fn bad_images_are_refused()
    ensures { (words : List (List ℕ)) (c : Call) (args : ResumeArgs) (bytes : List ℕ) (fault : ImageFault) → Says words c →
        asked words ≡ Ok (Resume args) → IsHeld ImageFile c args.image bytes → image_form.HasFault bytes fault →
        IsRefused image_form c fault ⊎ CountedFault c }
{}

/// The same for the probe file of an image that is to be saved, if there is a program.
pub fn bad_probes_stop_saves()
    ensures { (words : List (List ℕ)) (c : Call) (args : SaveArgs) (text name bytes : List ℕ) (program : ProgramParts)
        (fault : ProbesFault) → Says words c → asked words ≡ Ok (Save args) →
        IsHeld ProgramFile c args.file text → IsTextOf text program → args.probes ≡ Some name →
        IsHeld ProbesFile c name bytes → probes_form.HasFault bytes fault → IsRefused probes_form c fault ⊎ CountedFault c }
{}

/// The same for its trace file, if there are a program and a script.
pub fn bad_traces_stop_saves()
    ensures { (words : List (List ℕ)) (c : Call) (args : SaveArgs) (text bytes : List ℕ) (program : ProgramParts)
        (script : List ℤ) (fault : TraceFault) → Says words c → asked words ≡ Ok (Save args) →
        IsHeld ProgramFile c args.file text → IsTextOf text program → IsScriptFor c args.probes script →
        IsHeld TraceFile c args.trace bytes → trace_form.HasFault bytes fault → IsRefused trace_form c fault ⊎ CountedFault c }
{}
