//! Adding specification files to a list.

ghost use Rattle.std.specs.Prelude.{◌≡◌, Ok};
ghost use Rattle.krl_make.specs.Making.{AddsFiles, IsCurrentFile, cause_run_fault, file_entries};
ghost use Rattle.krl_make.specs.Making.{files_entries, text_entries};
ghost use Rattle.krl_spec.specs.Under.{authority_under};

use krl_core::Revocations;
use krl_spec::{SpecCause, SpecFault, Under, read_spec};
use run_faults::{Cause, Named, RunFault};
use serial_set::Spans;
use std::alloc::Global;

/// Adds the entries of the lines of each file, up to the first fault.
pub fn add_files<'a, S: Spans>(
    alloc: Global,
    revocations: &mut Revocations<S>,
    under: Under,
    files: &'a [Named<'a>],
) -> Result<(), RunFault<'a>>
    ensures { AddsFiles (IsCurrentFile (authority_under under.entry) files.now)
        (files_entries (authority_under under.entry) files.now) result
        revocations.old revocations.new }
{
    for file in files {
        add_file(alloc, revocations, under, file)?;
    }
    Ok(())
}

// Adds the entries of a file's lines.
#[tactic(auto, unfolding(crate::specs::Making::file_entries))]
fn add_file<'a, S: Spans>(
    alloc: Global,
    revocations: &mut Revocations<S>,
    under: Under,
    file: &'a Named<'a>,
) -> Result<(), RunFault<'a>>
    ensures { AddsFiles (λ at. file.now.name ≡ at)
        (file_entries (authority_under under.entry) file.now) result
        revocations.old revocations.new }
{
    match &file.content {
        Ok(text) => add_text(alloc, revocations, under, file.name, text.as_slice()),
        Err(fault) => Err(RunFault::whole(file.name, Cause::File(*fault))),
    }
}

// Adds the entries of the lines of a file's text.
fn add_text<'a, S: Spans>(
    alloc: Global,
    revocations: &mut Revocations<S>,
    under: Under,
    name: &'a str,
    text: &[u8],
) -> Result<(), RunFault<'a>>
    ensures { AddsFiles (λ at. name.now ≡ at)
        (text_entries (authority_under under.entry) name.now text.now)
        result revocations.old revocations.new }
{
    match read_spec(alloc, revocations, under, text) {
        Ok(()) => Ok(()),
        Err(fault) => Err(cause_run_fault(name, fault)),
    }
}

// A failed allocation is a fault of the run itself, so no line is reported.
fn cause_run_fault<'a>(name: &'a str, fault: SpecFault) -> RunFault<'a>
    ensures { result ≡ cause_run_fault name.now fault.line fault.cause }
{
    if fault.cause == SpecCause::NoMemory {
        RunFault::whole(name, Cause::NoMemory)
    } else {
        RunFault::at_line(name, fault.line, Cause::Spec(fault.cause))
    }
}
