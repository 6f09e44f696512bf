//! The fault of a line or file that is not read, and its fields in an object.

ghost use Rattle.std.specs.Prelude.{◌≡◌, IfOk, string_bytes};
ghost use Rattle.audit_lines.specs.FaultText.{refusal_fault, why_fault, why_fields};

use crate::why::{Refusal, Told, Why};
use json_lines::{Fields, LineWriter, Text, put_fields};
use line_pieces::put;
use run_faults::FileFault;
use std::alloc::{AllocError, Global};

// The fault, by its family, its number and its name.
fn fault_text(alloc: Global, why: Why) -> Result<String, AllocError>
    ensures { IfOk result (λ text. string_bytes text ≡ why_fault why) }
{
    match why {
        Why::Key(cause) => cause.to_string(alloc),
        Why::ZeroInId => String::from_str(alloc, "audit 2 ZeroInId"),
        Why::Private(fault) => fault.to_string(alloc),
        Why::File(refusal) => refusal_fault(refusal).to_string(alloc),
        Why::NoKeys(_) => FileFault::NoKeys.to_string(alloc),
    }
}

/// The fault of a file that is not read. One that is refused before its first byte cannot be
/// opened.
pub fn refusal_fault(refusal: Refusal) -> FileFault
    ensures { result ≡ refusal_fault refusal }
{
    match refusal {
        Refusal::Missing | Refusal::Denied | Refusal::Irregular | Refusal::Loop | Refusal::Open =>
            FileFault::Open,
        Refusal::DirectoryLink | Refusal::LongName => FileFault::Open,
        Refusal::Slow | Refusal::Kernel => FileFault::Open,
        Refusal::NotAsked | Refusal::Wildcards => FileFault::Open,
        Refusal::NoFile => FileFault::NoKeys,
        Refusal::Read => FileFault::Read,
        Refusal::TooLong => FileFault::TooLong,
    }
}

// Why a line or a file is not read.
impl Fields for Why {
    ghost fields = { why_fields };

    fn put_fields(&self, alloc: Global, out: &mut LineWriter) -> Result<(), AllocError> {
        let mut words = Vec::new(alloc);
        put!(&mut words; Told { alloc, why: *self })?;
        let fault = fault_text(alloc, *self)?;
        put_fields!(alloc, out; "status": "unread", "fault": fault.as_str(), "why": Text(&words))
    }
}
