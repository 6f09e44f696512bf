//! The runs, loading their files, and the line of their fault.

use crate::tests::answered::{answered, ran_out};
use crate::tests::buffer::Buffer;
use crate::tests::parts::list_of;
use byte_streams::{FromRead, Lent, ToWrite};
use key_listing::{ListMode, list_run};
use key_text::{Hash, LineFault};
use krl_make::{AuthorityOption, Wanted, make_run};
use krl_runs::query_run;
use krl_spec::SpecCause;
use run_faults::{Cause, FileFault, KeyCause, Named, RunFault, fault_text, load};
use run_output::Done;
use ssh_wire::Bytes;
use std::alloc::{AllocError, Global};
use std::process::Abort;
use test_fixtures::{
    CERT_LINE, CONTAINER, GITHUB_LINE, Giver, ID_A, KEY_SECTION, OTHER_LINE, SHA256_SECTION, Then,
    joined,
};

#[test]
fn a_file_that_is_loaded(rt: HostRuntime) {
    let mut giver = Giver::new(b"", 10_000);
    giver.then = Then::Zeros(200_000);
    let (named, _) = load(rt.alloc(), "a", FromRead::new(giver));
    assert!(rt; named.name == "a");
    if let Some(bytes) = answered(&rt, named.content, FileFault::NoMemory) {
        assert!(rt; bytes.as_slice().len() == 200_000);
    }
}

#[test]
fn the_line_of_a_fault(rt: HostRuntime) {
    let cause = Cause::Spec(SpecCause::Key(KeyCause::Line(LineFault::NoKey)));
    let fault = RunFault::at_line("s\x1b", 1, cause);
    if let Some(text) = answered(
        &rt,
        fault_text(rt.alloc(), b"ssh-keygen", &fault),
        AllocError,
    ) {
        assert!(rt;
            text.as_slice() == b"ssh-keygen: s\\x1b: line 1: spec 6 Key, line 1 NoKey".as_slice()
        );
    }
}

// A file of these bytes.
fn file<'a>(
    rt: &(impl AllocGlobal + Abort + Print),
    name: &'a str,
    bytes: &[u8],
) -> Option<Named<'a>> {
    let bytes = answered(rt, Vec::from_slice(rt.alloc(), bytes), AllocError)?;
    Some(Named {
        name,
        content: Ok(Bytes::from_vec(bytes)),
    })
}

// The run printed everything, with this status. Or an allocation failed, and it printed complete
// lines from the beginning.
fn is_whole_or_stopped(
    rt: &(impl AllocGlobal + Abort + Print),
    done: &Done,
    said: &Buffer,
    status: u8,
    whole: &[u8],
) {
    match &done.fault {
        None => assert!(rt; done.status == status && said.text() == whole),
        Some(fault) => {
            assert!(rt; fault.cause == Cause::NoMemory && done.status == 255);
            assert!(rt; whole.starts_with(said.text()));
            assert!(rt; said.text().is_empty() || said.text().ends_with(b"\n"));
            ran_out(rt);
        }
    }
}

// Queries a list for the keys of files.
fn query<'a>(
    alloc: Global,
    krl: &[u8],
    dump: bool,
    files: &'a [Named<'a>],
    said: &mut Buffer,
) -> Done<'a> {
    let (done, _) = query_run(
        alloc,
        "r.krl",
        FromRead::new(krl),
        dump,
        files,
        &mut ToWrite::new(said),
    );
    done
}

// The output for three files and a list with the published key.
const ANSWERS: &[u8] = b"a: REVOKED\nb: ok\nid (a): REVOKED\n";

// The output with the text of the list before the answers.
const LIST_AND_ANSWERS: &[u8] = b"# KRL version 1\n# Generated at 1970-01-01T00:00:00Z\n\
key: AAAAC3NzaC1lZDI1NTE5AAAAIOMqqnkVzrm0SdG6UOoqKLsabgH5C9okWi0dh2l9GKJl\n\
a: REVOKED\nb: ok\nid (a): REVOKED\n";

// Queries for files of a certificate, of another key and of a private key.
fn ask_three(
    rt: &(impl AllocGlobal + Abort + Print),
    sections: &[u8],
    dump: bool,
    answers: &[u8],
) -> Option<()> {
    let krl = list_of(rt, sections)?;
    let files = [
        file(rt, "a", CERT_LINE)?,
        file(rt, "b", OTHER_LINE)?,
        file(rt, "id", CONTAINER)?,
    ];
    let mut said = Buffer::new();
    let done = query(rt.alloc(), &krl, dump, &files, &mut said);
    is_whole_or_stopped(rt, &done, &said, 1, answers);
    Some(())
}

#[test]
fn a_question_and_the_list(rt: HostRuntime) {
    ask_three(&rt, KEY_SECTION, true, LIST_AND_ANSWERS);
}

#[test]
fn a_question_of_a_short_list(rt: HostRuntime) {
    ask_three(&rt, KEY_SECTION, false, ANSWERS);
}

// The list is longer than the files, and names the key at its end.
#[test]
fn a_question_of_a_list_that_passes(rt: HostRuntime) {
    let mut parts = [ID_A; 100];
    parts[99] = KEY_SECTION;
    if let Some(sections) = answered(&rt, joined(rt.alloc(), &parts), AllocError) {
        ask_three(&rt, &sections, false, ANSWERS);
    }
}

// Lists a file.
fn list<'a>(alloc: Global, mode: ListMode, file: &'a Named<'a>, said: &mut Buffer) -> Done<'a> {
    list_run(alloc, mode, Hash::Sha256, file, 0, &mut ToWrite::new(said))
}

// The lines of two keys.
const LISTED: &[u8] =
    b"256 SHA256:+DiY3wvvV6TuJJhbpZisF/zLDA0zPMSvHdkr4UvCOqU no comment (ED25519)\n\
256 SHA256:+DiY3wvvV6TuJJhbpZisF/zLDA0zPMSvHdkr4UvCOqU no comment (ED25519-CERT)\n";

// Lists a plain key and a certificate.
fn list_two(rt: &(impl AllocGlobal + Abort + Print)) -> Option<()> {
    let text = answered(
        rt,
        joined(rt.alloc(), &[GITHUB_LINE, b"\n", CERT_LINE]),
        AllocError,
    )?;
    let file = file(rt, "a", &text)?;
    let mut said = Buffer::new();
    let done = list(rt.alloc(), ListMode::Keys, &file, &mut said);
    is_whole_or_stopped(rt, &done, &said, 0, LISTED);
    Some(())
}

#[test]
fn a_listing_of_keys(rt: HostRuntime) {
    list_two(&rt);
}

// The listing of a certificate has this beginning, or nothing is printed.
fn list_certificate(rt: &(impl AllocGlobal + Abort + Print)) -> Option<()> {
    let file = file(rt, "c.pub", CERT_LINE)?;
    let mut said = Buffer::new();
    let done = list(rt.alloc(), ListMode::Certs, &file, &mut said);
    let first = b"c.pub:1:\n        Type: ssh-ed25519-cert-v01@openssh.com user certificate\n";
    if done.fault.is_none() {
        assert!(rt; said.text().starts_with(first));
        assert!(rt; said.text().ends_with(b"        Extensions: (none)\n"));
    }
    is_whole_or_stopped(rt, &done, &said, 0, said.text());
    Some(())
}

#[test]
fn a_listing_of_certificates(rt: HostRuntime) {
    list_certificate(&rt);
}

// Makes a list from an old one and files, under all authorities.
fn make(alloc: Global, old: &[u8], files: &[Named]) -> Result<Vec<u8>, Cause> {
    let wanted = Wanted {
        name: "r.krl",
        update: true,
        version: None,
        date: 0,
        authority: &AuthorityOption::All,
        files,
    };
    match make_run(alloc, &wanted, Some(Lent::new(old))) {
        Ok(made) => Ok(made.bytes),
        Err(fault) => Err(fault.cause),
    }
}

// Updates the list of a hash with a key ID of all authorities. Its version is one more.
fn update(rt: &(impl AllocGlobal + Abort + Print)) -> Option<()> {
    let old = list_of(rt, SHA256_SECTION)?;
    let sections = joined(rt.alloc(), &[ID_A, SHA256_SECTION]);
    let sections = answered(rt, sections, AllocError)?;
    let files = [file(rt, "s", b"id: a")?, file(rt, "t", b"id: a")?];
    let made = make(rt.alloc(), &old, files.as_slice());
    let made = answered(rt, made, Cause::NoMemory)?;
    assert!(rt; made.get(12..20) == Some(b"\0\0\0\0\0\0\0\x02".as_slice()));
    assert!(rt; made.get(44..) == Some(sections.as_slice()));
    Some(())
}

#[test]
fn an_update(rt: HostRuntime) {
    update(&rt);
}
