//! The canaries of an audit: files of keys that its list must revoke, and that are no findings.

ghost use Rattle.std.specs.Prelude.{◌≡◌, false};

use crate::loading::{open, read};
use any_list::read_list;
use audit_lines::Refusal;
use audit_text::Format;
use byte_streams::{FromRead, Source, ToWrite};
use krl_entries::Revocations;
use list_conditions::{Checker, Role};
use run_faults::{Cause, RunFault};
use run_output::Printer;
use span_sets::Held;
use std::alloc::{AllocError, Global};

/// Why an audit is not begun for its canaries.
#[derive(Drop)]
pub enum Unmet<'a> {
    /// The list does not revoke each key of the file of this name, or it has no key, or a line that
    /// is not read.
    At(&'a str),
    /// A list or a file is refused.
    Stopped(RunFault<'a>),
}

impl<'a> From<RunFault<'a>> for Unmet<'a> {
    fn from(fault: RunFault<'a>) -> Self {
        Unmet::Stopped(fault)
    }
}

/// The keys of these files as a list, if there is a file. A list with these bytes revokes each of
/// them.
pub fn canaries_of<'a>(
    rt: &HostRuntime,
    list: &'a str,
    bytes: &[u8],
    files: &'a [&'a str],
) -> Result<Option<Revocations<Held>>, Unmet<'a>> {
    if files.is_empty() {
        return Ok(None);
    }
    let held = read_list(rt.alloc(), list, bytes)?;
    let mut text = Vec::new(rt.alloc());
    let mut keys = Vec::new(rt.alloc());
    for file in files {
        let content = match read_canary(rt, *file, &mut text) {
            Ok(Ok(())) => Ok(text.as_slice()),
            Ok(Err(refusal)) => Err(refusal),
            Err(_) => return Err(out_of_memory(*file)),
        };
        if !is_met(rt.alloc(), &held.revocations, *file, content)? {
            return Err(Unmet::At(*file));
        }
        // A fault of its lines has the name of the file and their numbers there.
        read_list(rt.alloc(), *file, text.as_slice())?;
        if add_lines(&mut keys, text.as_slice()).is_err() {
            return Err(out_of_memory(*file));
        }
    }
    let read = read_list(rt.alloc(), "the canaries", keys.as_slice())?;
    Ok(Some(read.revocations))
}

fn out_of_memory(name: &str) -> Unmet<'_> {
    Unmet::Stopped(RunFault::whole(name, Cause::NoMemory))
}

// Adds the lines of a text to others. A text need not end with a line feed.
fn add_lines(lines: &mut Vec<u8>, text: &[u8]) -> Result<(), AllocError> {
    lines.extend_from_slice(text)?;
    lines.push(b'\n')?;
    Ok(())
}

// Replaces the content of a buffer by the bytes of a file, or of standard input if its name is `-`.
fn read_canary(
    rt: &HostRuntime,
    name: &str,
    text: &mut Vec<u8>,
) -> Result<Result<(), Refusal>, AllocError> {
    if name == "-" {
        return read(&mut FromRead::new(rt.stdin()), text);
    }
    match open(rt, name) {
        Ok(file) => read(&mut FromRead::new(file), text),
        Err(refusal) => Ok(Err(refusal)),
    }
}

// Whether a list revokes each key of a file, as `krl check --canary` asks. The lines that the
// check prints are dropped.
fn is_met<'a>(
    alloc: Global,
    list: &Revocations<Held>,
    name: &'a str,
    content: Result<&[u8], Refusal>,
) -> Result<bool, RunFault<'a>> {
    let mut lines = Vec::new(alloc);
    let mut out = ToWrite::new(&mut lines);
    let mut buffer = Vec::new(alloc);
    let printer = Printer::new(&mut buffer, &mut out);
    let mut checker = Checker::new(alloc, list, Format::Text, printer);
    checker.check_keys(Role::Canary, name, content)?;
    Ok(!checker.refused)
}
