//! Runs over files that the tests make, and their output.

use byte_streams::{FromRead, ToWrite};
use key_listing::{ListMode, list_run};
use key_text::Hash;
use krl_runs::query_run;
use run_faults::{FileFault, Named, fault_text};
use run_output::Done;
use ssh_wire::Bytes;
use std::alloc::Global;
use std::process::Abort;
use test_fixtures::{GITHUB_LINE, Giver, HEADER, KEY_SECTION, Taker};

/// The list that names the published key.
pub const ONE: &[&[u8]] = &[&HEADER, KEY_SECTION];

/// Numbers of bytes of a text, or of lines of a file, that exceed blocks of memory.
pub const LONG: [usize; 3] = [1_025, 4_097, 70_001];

/// The parts one after another.
pub fn joined(rt: &impl Abort, alloc: Global, parts: &[&[u8]]) -> Vec<u8> {
    test_fixtures::joined(alloc, parts).expect(rt, "there is memory")
}

/// The bytes, repeated.
pub fn repeated(rt: &impl Abort, alloc: Global, bytes: &[u8], times: usize) -> Vec<u8> {
    test_fixtures::repeated(alloc, bytes, times).expect(rt, "there is memory")
}

/// The bytes found are the expected ones. The number identifies the case within a test.
pub fn same(rt: &impl Abort, number: usize, found: &[u8], wanted: &[u8]) {
    assert_eq!(rt; found, wanted, "in case {number}");
}

/// A file's name and the parts of its text; none if it cannot be opened.
pub type File<'a> = (&'a str, Option<&'a [&'a [u8]]>);

/// A file of the published key.
pub const KEY: File<'static> = ("g.pub", Some(&[GITHUB_LINE, b"\n"]));

/// A file that cannot be opened.
pub const CLOSED: File<'static> = ("none", None);

/// The expected text of a run, its status, and the line of its fault, which is empty if there is
/// none.
pub type Said<'a> = (&'a [u8], u8, &'a str);

/// The text that a run printed, its status, and the line of its fault, which is empty if there is
/// none.
#[derive(Debug, Drop)]
pub struct Ran {
    pub text: Vec<u8>,
    pub status: u8,
    pub fault: Vec<u8>,
}

/// The run printed this. The number identifies the run within a test.
pub fn says(rt: &impl Abort, number: usize, ran: &Ran, said: Said) {
    let (text, status, fault) = said;
    same(rt, number, &ran.text, text);
    same(rt, number, &[ran.status], &[status]);
    same(rt, number, &ran.fault, fault.as_bytes());
}

/// A file of these bytes.
pub fn holding<'a>(name: &'a str, bytes: Vec<u8>) -> Named<'a> {
    Named {
        name,
        content: Ok(Bytes::from_vec(bytes)),
    }
}

/// The file with its content.
pub fn named<'a>(rt: &impl Abort, alloc: Global, file: &File<'a>) -> Named<'a> {
    let (name, parts) = *file;
    match parts {
        Some(parts) => holding(name, joined(rt, alloc, parts)),
        None => Named {
            name,
            content: Err(FileFault::Open),
        },
    }
}

/// The files with their contents.
pub fn all_named<'a>(rt: &impl Abort, alloc: Global, files: &[File<'a>]) -> Vec<Named<'a>> {
    let mut all = Vec::new(alloc);
    for file in files {
        all.push(named(rt, alloc, file))
            .expect(rt, "there is memory");
    }
    all
}

/// The output and the end of a run.
pub fn reported(rt: &impl Abort, alloc: Global, text: Vec<u8>, done: &Done) -> Ran {
    let fault = match &done.fault {
        Some(fault) => fault_text(alloc, b"ssh-keygen", fault).expect(rt, "there is memory"),
        None => Vec::new(alloc),
    };
    Ran {
        text,
        status: done.status,
        fault,
    }
}

/// Queries the list `r.krl` for the files. If `dump` is true, the list is printed first.
pub fn asked<'a>(
    rt: &impl Abort,
    alloc: Global,
    krl: Giver,
    dump: bool,
    files: &'a [Named<'a>],
    mut device: Taker,
) -> Ran {
    let mut out = ToWrite::new(&mut device);
    let (done, _) = query_run(alloc, "r.krl", FromRead::new(krl), dump, files, &mut out);
    drop(out);
    reported(rt, alloc, device.taken, &done)
}

/// Querying the list `r.krl` with these parts for the files prints this.
pub fn asks(
    rt: &impl Abort,
    alloc: Global,
    number: usize,
    krl: &[&[u8]],
    files: &[File],
    said: Said,
) {
    let krl = joined(rt, alloc, krl);
    let files = all_named(rt, alloc, files);
    let device = Taker::whole(alloc);
    let ran = asked(
        rt,
        alloc,
        Giver::whole(&krl),
        false,
        files.as_slice(),
        device,
    );
    says(rt, number, &ran, said);
}

/// Lists the keys or the certificates of a file at a moment.
pub fn listed<'a>(
    rt: &impl Abort,
    alloc: Global,
    mode: ListMode,
    hash: Hash,
    file: &'a Named<'a>,
    moment: u64,
    mut device: Taker,
) -> Ran {
    let mut out = ToWrite::new(&mut device);
    let done = list_run(alloc, mode, hash, file, moment, &mut out);
    drop(out);
    reported(rt, alloc, device.taken, &done)
}
