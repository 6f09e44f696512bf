//! The last line of an audit.

ghost use Rattle.std.specs.Prelude.{◌≡◌, ◌++◌, OnOk};
ghost use Rattle.audit_run.specs.Summary.{findings_text, inputs_text, list_text};
ghost use Rattle.audit_run.specs.Summary.{names_text, others_text, skipped_words, summary_text};

use cert_listing::time_text;
use krl_audit::{Counts, FileCounts};
use krl_format::Stated;
use line_pieces::{Amount, Printed, Words, put};
use std::alloc::{AllocError, Global};

/// The counts of an audit, and the list that it queried.
#[derive(Clone, Copy)]
pub struct Summary {
    /// The counts of files.
    pub files: FileCounts,
    /// The number of audited files that have a revoked key.
    pub revoked_files: u64,
    /// The counts of their lines.
    pub counts: Counts,
    /// The version and the date of the list. A plain list has none.
    pub stated: Option<Stated>,
}

// The number of names that were not audited, if there are any, and why.
#[derive(Clone, Copy)]
struct Others<'a>(u64, &'a [u8]);

impl<'a> Printed for Others<'a> {
    ghost text = { λ others. others_text others.0 others.1.now };

    fn push_to(&self, out: &mut Vec<u8>) -> Result<(), AllocError> {
        if self.0 == 0 {
            return Ok(());
        }
        put!(out; b", ", self.0, b" ", Words(self.1))
    }
}

/// Appends the last line of an audit, with its line feed.
pub fn push_summary(alloc: Global, summary: &Summary, text: &mut Vec<u8>) -> Result<(), AllocError>
    ensures { OnOk result (text.new.items ≡ text.old.items ++ summary_text summary.now) }
{
    push_inputs(summary, text)?;
    push_findings(summary, text)?;
    push_names(summary, text)?;
    push_list(alloc, summary.stated, text)
}

/// Appends the numbers of files and of keys.
pub(crate) fn push_inputs(summary: &Summary, text: &mut Vec<u8>) -> Result<(), AllocError>
    ensures { OnOk result (text.new.items ≡ text.old.items ++ inputs_text summary.now) }
{
    put!(text; b"krl audit: ", Amount(summary.files.audited, b"file"), b", ",
        Amount(summary.counts.keys, b"key"), b": ")
}

// Appends the number of revoked keys, and of lines and files that were not read.
fn push_findings(summary: &Summary, text: &mut Vec<u8>) -> Result<(), AllocError>
    ensures { OnOk result (text.new.items ≡ text.old.items ++ findings_text summary.now) }
{
    let counts = summary.counts;
    put!(text; counts.revoked, b" revoked in ", Amount(summary.revoked_files, b"file"), b", ",
        counts.unread, b" unread")
}

// Appends the numbers of names that were not audited.
fn push_names(summary: &Summary, text: &mut Vec<u8>) -> Result<(), AllocError>
    ensures { OnOk result (text.new.items ≡ text.old.items ++ names_text summary.now) }
{
    put!(text; Others(summary.files.skipped, skipped_words(summary.files.skipped == 1)),
        Others(summary.files.excluded, b"excluded"),
        Others(summary.files.elsewhere, b"on other file systems"),
        Others(summary.files.same, b"audited before"))
}

// Why names were skipped.
fn skipped_words(one: bool) -> &'static [u8]
    ensures { result.now ≡ skipped_words one }
{
    if one {
        b"skipped by its name"
    } else {
        b"skipped by their names"
    }
}

/// Appends the version and the date of the list that was queried, if it has them, and the line feed.
pub fn push_list(
    alloc: Global,
    stated: Option<Stated>,
    text: &mut Vec<u8>,
) -> Result<(), AllocError>
    ensures { OnOk result (text.new.items ≡ text.old.items ++ list_text stated) }
{
    match stated {
        None => put!(text; b" (plain list)\n"),
        Some(stated) => {
            let time = time_text(alloc, stated.generated)?;
            put!(text; b" (list version ", stated.version, b", ", Words(&time), b")\n")
        }
    }
}
