//! The lines in which a list's header and serials are printed.

ghost use Rattle.std.specs.Prelude.{◌≡◌, OnOk};
ghost use Rattle.krl_runs.specs.Contents.{authority_line, comment_line, date_line, serials_line};
ghost use Rattle.krl_runs.specs.Contents.{version_line};

use cert_listing::time_text;
use key_text::{Hash, fingerprint};
use line_pieces::{Escaped, Words, pieces, put};
use serial_set::Span;
use std::alloc::{AllocError, Global};

/// Makes the line of a list's version.
#[tactic(auto, unfolding(crate::specs::Contents::version_line))]
pub fn write_version(version: u64, line: &mut Vec<u8>) -> Result<(), AllocError>
    ensures { OnOk result (line.new.items ≡ version_line version) }
{
    line.clear();
    put!(line; b"# KRL version ", version, b"\n")
}

/// Makes the line of a list's date.
#[tactic(auto, unfolding(crate::specs::Contents::date_line))]
pub fn write_date(alloc: Global, date: u64, line: &mut Vec<u8>) -> Result<(), AllocError>
    ensures { OnOk result (line.new.items ≡ date_line date) }
{
    let text = time_text(alloc, date)?;
    line.clear();
    put!(line; b"# Generated at ", Words(&text), b"\n")
}

/// Makes the line of a list's comment.
#[tactic(auto, unfolding(crate::specs::Contents::comment_line))]
pub fn write_comment(comment: &[u8], line: &mut Vec<u8>) -> Result<(), AllocError>
    ensures { OnOk result (line.new.items ≡ comment_line comment.now) }
{
    line.clear();
    put!(line; b"# Comment: ", Escaped(comment), b"\n")
}

/// Makes the line of an authority, or of all authorities.
#[tactic(auto, unfolding(crate::specs::Contents::authority_line))]
pub fn write_authority(
    alloc: Global,
    authority: &[u8],
    line: &mut Vec<u8>,
) -> Result<(), AllocError>
    ensures { OnOk result (line.new.items ≡ authority_line authority.now) }
{
    line.clear();
    if authority.is_empty() {
        return put!(line; b"# CA all\n");
    }
    let print = fingerprint(alloc, Hash::Sha256, authority)?;
    put!(line; b"# CA ", Words(&print), b"\n")
}

/// Makes the line of a span of serials: of its one serial, or of its first and its last.
#[tactic(auto, unfolding(crate::specs::Contents::serials_line))]
pub fn write_serials(span: Span, line: &mut Vec<u8>) -> Result<(), AllocError>
    ensures { OnOk result (line.new.items ≡ serials_line span) }
{
    line.clear();
    if span.lo == span.hi {
        return put!(line; b"serial: ", span.lo, b"\n");
    }
    put!(line; b"serial: ", pieces!(span.lo, b"-", span.hi), b"\n")
}
