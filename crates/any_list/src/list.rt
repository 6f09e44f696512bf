//! A list that was read from its bytes.

ghost use Rattle.std.specs.Prelude.{◌≡◌, ◌+◌, ℕ, List as ListOf, IfErr, IfOk, option_map, take};
ghost use Rattle.krl_format.specs.Front.{limit};
ghost use Rattle.ssh_wire.specs.Wire.{IsBytes};
ghost use Rattle.any_list.specs.List.{IsFileRead, IsLinesFault, IsListFault, IsReadLines};
ghost use Rattle.any_list.specs.List.{IsReadList, IsReadWhole, IsWholeFault, plain_run_fault};
ghost use Rattle.any_list.specs.List.{stated_by};

use byte_streams::Lent;
use krl_core::{Header, KrlFault, Revocations, read_krl};
use krl_format::Stated;
use plain_list::{PlainFault, begins_list, read_plain};
use run_faults::{Cause, RunFault, cause_of};
use span_sets::Held;
use std::alloc::Global;

/// A list that was read: the name of its file, its header unless it is a plain list, and what it
/// revokes.
#[derive(Drop)]
pub struct List<'a> {
    pub name: &'a str,
    pub header: Option<Header>,
    pub revocations: Revocations<Held>,
}

impl<'a> List<'a> {
    /// The header, if there is one.
    pub fn header(&self) -> Option<&Header>
        ensures { option_map (λ header. header.now) result ≡ self.now.header }
    {
        match &self.header {
            Some(header) => Some(header),
            None => None,
        }
    }

    /// The version and the date. A plain list has neither.
    pub fn stated(&self) -> Option<Stated>
        ensures { result ≡ stated_by self.now.header }
    {
        match &self.header {
            Some(header) => Some(Stated {
                version: header.version,
                generated: header.date,
            }),
            None => None,
        }
    }
}

/// Reads the list of this name from its bytes, or says why it is refused. As sshd(8) does, it takes
/// bytes that do not begin as a key revocation list for a plain list.
pub fn read_list<'a>(alloc: Global, name: &'a str, bytes: &[u8]) -> Result<List<'a>, RunFault<'a>>
    ensures fits { IsBytes bytes.now }
    ensures found { IfOk result (λ list. IsReadList name.now bytes.now list) }
    ensures fault { IfErr result (λ stop. IsListFault name.now bytes.now stop) }
    // No more of a file need be read than this.
    ensures front { (file : ListOf ℕ) → bytes.now ≡ take (limit + 1) file
        → IsFileRead name.now file result }
{
    if begins_list(bytes) {
        read_whole(alloc, name, bytes)
    } else {
        read_lines(alloc, name, bytes)
    }
}

// Reads a key revocation list.
fn read_whole<'a>(alloc: Global, name: &'a str, bytes: &[u8]) -> Result<List<'a>, RunFault<'a>>
    ensures found { IfOk result (λ list. IsReadWhole name.now bytes.now list) }
    ensures fault { IfErr result (λ stop. IsWholeFault name.now bytes.now stop) }
{
    let (read, _lent) = read_krl::<Held, _>(alloc, Lent::new(bytes));
    match read {
        Ok((header, revocations)) => Ok(List {
            name,
            header: Some(header),
            revocations,
        }),
        Err(fault) => Err(RunFault::whole(name, cause_of(fault))),
    }
}

// Reads a plain list.
fn read_lines<'a>(alloc: Global, name: &'a str, bytes: &[u8]) -> Result<List<'a>, RunFault<'a>>
    ensures found { IfOk result (λ list. IsReadLines name.now bytes.now list) }
    ensures fault { IfErr result (λ stop. IsLinesFault name.now bytes.now stop) }
{
    match read_plain::<Held>(alloc, bytes) {
        Ok(revocations) => Ok(List {
            name,
            header: None,
            revocations,
        }),
        Err(fault) => Err(plain_fault(name, fault)),
    }
}

// Why a run stops at a fault of a plain list.
fn plain_fault<'a>(name: &'a str, fault: PlainFault) -> RunFault<'a>
    ensures { result ≡ plain_run_fault name.now fault }
{
    match fault {
        PlainFault::Line { number, cause } => RunFault::at_line(name, number, Cause::Key(cause)),
        PlainFault::TooLong => RunFault::whole(name, Cause::Krl(KrlFault::TooLong)),
        PlainFault::NoMemory => RunFault::whole(name, Cause::NoMemory),
    }
}
