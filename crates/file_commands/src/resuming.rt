//! Goes on from an image.
ghost use Rattle.std.specs.Prelude.{◌≡◌, ◌≢◌, ◌≤◌, ℕ, List, length, IfErr, IfOk, Some};
ghost use Rattle.sink_lines.specs.Device.{device};
ghost use Rattle.image_text.specs.declared.image_fault.ImageFault.TheVariants.{NoMemory as NoMemoryLeft};
ghost use Rattle.stab_words.specs.Command.{most_fuel, most_quantum};
ghost use Rattle.stab_words.specs.Within.{IsUpTo};
ghost use Rattle.file_commands.specs.Resuming.{image_form, IsNoImage, IsPutAs, ResumeEnds, ResumeSays, status_by};
ghost use Rattle.call_report.specs.Call.{call_of};
ghost use Rattle.call_report.specs.declared.report.Made.TheVariants as made;
ghost use Rattle.call_report.specs.Report.{Leaves, outcome_of};
ghost use Rattle.call_status.specs.Role.{max_bytes};
ghost use Rattle.call_report.specs.Reading.{BytesRefused, Holds, ReadRefused};
ghost use Rattle.call_status.specs.declared.role.Role.TheVariants.{Image as ImageFile};

use call_report::{Blame, Made, Report, load};
use call_status::{Role, Status};
use image_commands::{Shown, shown_by};
use image_text::ImageFault;
use sink_lines::put_lines;
use stab_files::{Files, Sink, SinkFail};
use stab_image::{Image, read_image};
use stab_words::ResumeArgs;
use std::alloc::Global;

/// Reads an image, goes on from there, and writes what the run shows behind what was printed up to the cut.
pub fn resume_file<F: Files, K: Sink>(
    alloc: Global,
    args: &ResumeArgs,
    files: &mut F,
    sink: &mut K,
) -> Report
    requires fuel { IsUpTo most_fuel args.now.fuel }
    requires quantum { IsUpTo most_quantum args.now.quantum }
    ensures says { ResumeSays (call_of F.held F.faults files.old files.new
        (outcome_of K.told K.faults sink.old sink.new result)) args.now }
    ensures kept { F.held files.new ≡ F.held files.old }
{
    match read_image_file(alloc, files, args.image.as_str()) {
        Ok(image) => resume_image(alloc, image, args.fuel, args.quantum, sink),
        Err(report) => report,
    }
}

// The image in the file, or the report of why it couldn't be read.
fn read_image_file<F: Files>(alloc: Global, files: &mut F, name: &str) -> Result<Image, Report>
    ensures ok { IfOk result (Holds image_form (device F.held F.faults files.old) name.now (F.faults files.new)) }
    ensures err { IfErr result (λ report. ReadRefused image_form report (device F.held F.faults files.old) name.now (F.faults files.new)) }
    ensures kept { F.held files.new ≡ F.held files.old }
{
    let bytes = load(alloc, files, Role::Image, name)?;
    image_of(alloc, &bytes)
}

// The image of the text, or the report of why it couldn't be read.
fn image_of(alloc: Global, bytes: &[u8]) -> Result<Image, Report>
    requires { length bytes.now ≤ max_bytes ImageFile }
    ensures ok { IfOk result (image_form.IsOf bytes.now) }
    ensures err { IfErr result (λ report. BytesRefused image_form report bytes.now) }
{
    match read_image(alloc, bytes) {
        Ok(image) => Ok(image),
        Err(fault) => Err(refusal(fault)),
    }
}

// The report of bytes that aren't an image, or that memory ran out.
fn refusal(fault: ImageFault) -> Report
    ensures { (bytes : List ℕ) → (fault ≢ NoMemoryLeft → IsNoImage bytes fault) → BytesRefused image_form result bytes }
{
    match fault {
        ImageFault::NoMemory => Report::bare(Status::NoMemory),
        _ => Report::blaming(Status::BadImage, Blame::Image(fault)),
    }
}

// Goes on from the image.
fn resume_image<K: Sink>(
    alloc: Global,
    image: Image,
    fuel: u64,
    quantum: u32,
    sink: &mut K,
) -> Report
    requires fuel { IsUpTo most_fuel fuel }
    requires quantum { IsUpTo most_quantum quantum }
    ensures { ResumeEnds result.status image fuel quantum (outcome_of K.told K.faults sink.old sink.new result) }
{
    match shown_by(alloc, image, fuel, quantum) {
        Ok(shown) => put_shown(status_of(shown.resumed.spent, shown.all_ended), shown, sink),
        Err(_) => Report::bare(Status::NoMemory),
    }
}

fn status_of(spent: bool, all_ended: bool) -> Status
    ensures { result ≡ status_by spent all_ended }
{
    if spent {
        Status::Spent
    } else if all_ended {
        Status::Done
    } else {
        Status::Held
    }
}

// Writes what a run shows that went on, and reports it.
fn put_shown<K: Sink>(status: Status, shown: Shown, sink: &mut K) -> Report
    ensures reported { Leaves result (Some (made.Resumed shown.resumed)) }
    ensures told { IsPutAs status shown.text.items (outcome_of K.told K.faults sink.old sink.new result) }
{
    let Shown { resumed, text, .. } = shown;
    match put_lines(sink, &text) {
        Ok(()) => Report::making(status, Made::Resumed(resumed)),
        Err(SinkFail::Failed) => Report::making(Status::SinkFault, Made::Resumed(resumed)),
    }
}
