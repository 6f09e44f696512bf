//! The last line of an audit of logs, and its last object.

ghost use Rattle.std.specs.Prelude.{◌≡◌, ◌++◌, OnOk};
ghost use Rattle.json_lines.specs.Field.{json_line};
ghost use Rattle.login_run.specs.Summary.{done_object, login_status, sha1s_text};
ghost use Rattle.login_run.specs.Summary.{summary_text};

use audit_run::push_list;
use json_lines::{Object, object};
use krl_audit::{Counts, ListFacts};
use krl_format::Stated;
use line_pieces::{Amount, Words, put};
use std::alloc::{AllocError, Global};

/// The counts of an audit of logs, and the list that it queried.
#[derive(Clone, Copy)]
pub struct LoginSummary {
    /// The number of logs.
    pub files: u64,
    /// The counts of their lines: `keys` are logins.
    pub counts: Counts,
    /// The number of entries of the list that no log can be compared with: SHA-1 hashes.
    pub sha1s: u64,
    /// The version and the date of the list. A plain list has none.
    pub stated: Option<Stated>,
}

/// The exit status of an audit of logs that came to its end with this one, by a list with this
/// number of SHA-1 hashes: logins by keys that only these name are not found.
pub(crate) fn login_status(status: u8, sha1s: u64) -> u8
    ensures { result ≡ login_status status sha1s }
{
    if status == 0 && sha1s > 0 { 3 } else { status }
}

/// Appends the last line, with its line feed.
pub fn push_login_summary(
    alloc: Global,
    summary: &LoginSummary,
    text: &mut Vec<u8>,
) -> Result<(), AllocError>
    ensures { OnOk result (text.new.items ≡ text.old.items ++ summary_text summary.now) }
{
    let counts = summary.counts;
    put!(text; b"krl logins: ", Amount(summary.files, b"file"), b", ",
        Amount(counts.keys, b"login"), b": ", counts.revoked, b" revoked, ", counts.unread,
        b" unread")?;
    push_list(alloc, summary.stated, text)
}

/// The words for entries of a list that no log can be compared with.
pub fn push_sha1s(count: u64, text: &mut Vec<u8>) -> Result<(), AllocError>
    ensures { OnOk result (text.new.items ≡ text.old.items ++ sha1s_text count) }
{
    let words: &[u8] = if count == 1 {
        b" entry is a SHA-1 hash, and no log has these"
    } else {
        b" entries are SHA-1 hashes, and no log has these"
    };
    put!(text; count, Words(words))
}

/// Makes the line of the last object.
pub(crate) fn write_done(
    summary: &LoginSummary,
    list: &ListFacts<'_>,
    line: &mut Vec<u8>,
) -> Result<(), AllocError>
    ensures { OnOk result (line.new.items ≡ json_line (done_object summary.now list.now)) }
{
    let counts = summary.counts;
    object!(line; "status": "done", "files": summary.files, "logins": counts.keys,
        "revoked": counts.revoked, "unread": counts.unread, "list": Object(*list))
}
