//! The last object of an audit.

ghost use Rattle.std.specs.Prelude.{◌≡◌, OnOk};
ghost use Rattle.json_lines.specs.Field.{json_line};
ghost use Rattle.krl_audit.specs.Done.{done_object, line_count_fields, list_facts};
ghost use Rattle.krl_audit.specs.Done.{stated_fields};
ghost use Rattle.audit_text.specs.Place.{label_now};

use crate::counts::Counts;
use audit_text::LabelOf;
use cert_listing::time_text;
use json_lines::{Digits, Fields, LineWriter, Object, Text, object, put_fields};
use krl_format::Stated;
use std::alloc::{AllocError, Global};

/// The counts of files.
#[derive(Clone, Copy)]
pub struct FileCounts {
    /// The number of files that were audited, whether they were read or not.
    pub audited: u64,
    /// The number of names that lead to a file that was audited before.
    pub same: u64,
    /// The number of files of directories that were skipped by their names.
    pub skipped: u64,
    /// The number of names of directories that were skipped since the command excludes them.
    pub excluded: u64,
    /// The number of directories that were skipped since they are on other file systems.
    pub elsewhere: u64,
}

impl FileCounts {
    /// No file.
    pub const NONE: FileCounts = FileCounts {
        audited: 0,
        same: 0,
        skipped: 0,
        excluded: 0,
        elsewhere: 0,
    };
}

/// The facts about the list of the audit.
#[derive(Clone, Copy)]
pub struct ListFacts<'a> {
    /// The name of its file.
    pub name: &'a str,
    /// Its version and its date. A plain list has none.
    pub stated: Option<Stated>,
    /// The SHA-256 of its bytes.
    pub sha256: [u8; 32],
}

/// Makes the line of the last object.
pub(crate) fn write_done(
    label: Option<&str>,
    files: FileCounts,
    counts: Counts,
    list: &ListFacts<'_>,
    line: &mut Vec<u8>,
) -> Result<(), AllocError>
    ensures { OnOk result (line.new.items
        ≡ json_line (done_object (label_now label.entry) files counts list.now)) }
{
    object!(line; LabelOf(label), "status": "done", "files": files.audited, counts, "skipped": files.skipped,
        "excluded": files.excluded, "elsewhere": files.elsewhere, "same": files.same,
        "list": Object(*list))
}

// The counts of lines.
impl Fields for Counts {
    ghost fields = { line_count_fields };

    fn put_fields(&self, alloc: Global, out: &mut LineWriter) -> Result<(), AllocError> {
        put_fields!(alloc, out; "keys": self.keys, "revoked": self.revoked, "unread": self.unread)
    }
}

impl<'a> Fields for ListFacts<'a> {
    ghost fields = { list_facts };

    fn put_fields(&self, alloc: Global, out: &mut LineWriter) -> Result<(), AllocError> {
        let sha256 = hex::encode(alloc, self.sha256)?;
        put_fields!(alloc, out; "file": self.name, StatedIf(self.stated),
            "sha256": sha256.as_str())
    }
}

// The version and the date of a list, if it has them.
#[derive(Drop)]
struct StatedIf(Option<Stated>);

impl Fields for StatedIf {
    ghost fields = { λ stated. stated_fields stated.0 };

    #[tactic(auto, unfolding(json_lines::specs::Field::fields_tokens))]
    fn put_fields(&self, alloc: Global, out: &mut LineWriter) -> Result<(), AllocError> {
        let Some(stated) = self.0 else {
            return Ok(());
        };
        let generated = time_text(alloc, stated.generated)?;
        put_fields!(alloc, out; "version": Digits(u128::from(stated.version)),
            "generated": Text(&generated))
    }
}
