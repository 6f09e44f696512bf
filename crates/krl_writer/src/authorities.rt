//! The sections of all certificate authorities.

ghost use Rattle.std.specs.Prelude.{◌≤◌, length};
ghost use Rattle.krl_format.specs.Front.{limit};
ghost use Rattle.krl_writer.specs.InLimit.{AddsAuthorities, AddsAuthority};

use crate::strings::{LIMIT, add_listed, add_string};
use crate::text_fault::TextFault;
use krl_entries::{Authorities, Texts};
use krl_format::{CERTIFICATES, IDS};
use krl_plan::{begin_string, end_string, put_least_plan};
use serial_set::Spans;
use ssh_wire::put_string;
use std::alloc::Global;

// Appends the sections of authorities, one after another.
pub(crate) fn add_authorities<S: Spans>(
    alloc: Global,
    out: &mut Vec<u8>,
    authorities: Authorities<'_, S>,
) -> Result<(), TextFault>
    requires { length out.old.items ≤ limit }
    ensures { AddsAuthorities result out.old.items out.new.items authorities.entry }
{
    for one in authorities {
        add_authority(alloc, out, one.authority(), one.spans(), one.iter_ids())?;
    }
    Ok(())
}

// Appends the section of an authority, identified by its bytes: its serials by their least plan,
// and its key IDs.
fn add_authority<S: Spans>(
    alloc: Global,
    out: &mut Vec<u8>,
    authority: &[u8],
    spans: &S,
    ids: Texts<'_>,
) -> Result<(), TextFault>
    requires { length out.old.items ≤ limit }
    ensures { AddsAuthority result out.old.items out.new.items
        (record { authority = authority.now; spans = S.spans spans.now; ids = ids.entry }) }
{
    let at = begin_string(out, CERTIFICATES)?;
    add_string(out, authority)?;
    put_string(out, b"")?;
    put_least_plan(alloc, out, spans)?;
    if out.len() > LIMIT {
        return Err(TextFault::TooLong);
    }
    add_listed(out, IDS, ids)?;
    end_string(out, at);
    Ok(())
}
