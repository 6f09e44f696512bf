//! The callers of the pages of `krl_spec`, `run_faults`, `run_output`, `key_listing`, `krl_system`,
//! `list_file`, `krl_make`, `krl_runs`, `program_edge` and `list_making`.

ghost use Rattle.std.specs.Prelude.{◌≡◌};

use crate::tests::runs::holding;
use byte_streams::{FromRead, Lent, ToWrite};
use key_listing::{ListMode, list_run};
use key_text::Hash;
use krl_core::Revocations;
use krl_make::{AuthorityOption, Wanted, make_run};
use krl_runs::query_run;
use krl_spec::{SpecFault, Under, read_spec};
use krl_system::open_list;
use list_file::ListTarget;
use list_making::{Made, Put, Target, make_at};
use option_table::CommandFault;
use program_edge::{Lines, stop};
use run_faults::{Cause, FileFault, Named, RunFault, fault_text, keys_of};
use run_output::{Done, Printer};
use span_sets::Held;
use ssh_cert::subject;
use std::alloc::{AllocError, Global};
use test_fixtures::{GITHUB, GITHUB_LINE};

/// The entries of a specification file, under all authorities.
fn revoked_by(alloc: Global, lines: &[u8]) -> Result<Revocations<Held>, SpecFault> {
    let mut held = Revocations::new(alloc);
    read_spec(alloc, &mut held, Under::All, lines)?;
    Ok(held)
}

/// The number of the first line of a file that has a key. A container has no lines.
fn first_of<'a>(alloc: Global, file: &'a Named<'a>) -> Result<Option<u64>, RunFault<'a>> {
    match keys_of(alloc, file).next() {
        Some(key) => {
            let key = key?;
            Ok(key.number)
        }
        None => Ok(None),
    }
}

/// Lists the keys of a file, as `-l` does, and appends what is printed.
fn key_lines<'a>(alloc: Global, file: &'a Named<'a>, text: &mut Vec<u8>) -> Done<'a> {
    let mut out = ToWrite::new(text);
    list_run(alloc, ListMode::Keys, Hash::Sha256, file, 0, &mut out)
}

/// Prints a line about a file, and ends the run.
fn say_once<'a>(alloc: Global, name: &'a str, line: &[u8], text: &mut Vec<u8>) -> Done<'a> {
    let mut buffer = Vec::new(alloc);
    let mut out = ToWrite::new(text);
    let mut printer = Printer::new(&mut buffer, &mut out);
    let stop = printer.say(name, line, false).err();
    printer.finish(stop)
}

/// Whether the list with this name can be opened.
fn is_there(rt: &HostRuntime, name: &str) -> bool {
    open_list(rt, name).is_ok()
}

/// Puts a list under a name, once no other update holds the list that is there.
fn put(rt: &HostRuntime, name: &str, text: &[u8]) -> Result<Put, Cause> {
    let mut place = ListTarget::new(rt, "ssh-keygen", name);
    let _ = place.hold(false)?;
    let put = place.put(text);
    place.release();
    put
}

/// A new list that revokes what the lines of files name, under an authority.
fn new_list<'a>(
    alloc: Global,
    authority: &'a AuthorityOption<'a>,
    files: &'a [Named<'a>],
    now: u64,
) -> Result<Vec<u8>, RunFault<'a>> {
    let wanted = Wanted {
        name: "revoked.krl",
        update: false,
        version: None,
        date: now,
        authority,
        files,
    };
    Ok(make_run(alloc, &wanted, None::<Lent>)?.bytes)
}

/// Asks a list about the keys of files, as `-Q` does, and appends what is printed.
fn asked<'a>(alloc: Global, list: &[u8], files: &'a [Named<'a>], text: &mut Vec<u8>) -> Done<'a> {
    let mut out = ToWrite::new(text);
    let (done, _) = query_run(
        alloc,
        "revoked.krl",
        FromRead::new(list),
        false,
        files,
        &mut out,
    );
    done
}

/// The exit status of a run whose file cannot be opened.
fn stop_without<L: Lines>(rt: &HostRuntime, program: &L, name: &str) -> u8
    ensures { result ≡ 255 }
{
    let cause = Cause::File(FileFault::Open);
    stop(rt, program, &RunFault::whole(name, cause))
}

// The lines of a program that does nothing.
#[derive(Clone, Copy)]
struct Idle;

impl Lines for Idle {
    fn fault_line(&self, rt: &HostRuntime, fault: &RunFault) -> Result<Vec<u8>, AllocError> {
        fault_text(rt.alloc(), b"idle", fault)
    }

    fn print_refusal(&self, _rt: &HostRuntime, _fault: &CommandFault) {}
}

/// Makes a list over what is under its name, and puts it there.
fn made_at<'a>(rt: &HostRuntime, wanted: &Wanted<'a>) -> Result<Made<()>, RunFault<'a>> {
    let mut place = ListTarget::new(rt, "ssh-keygen", wanted.name);
    let made = make_at(rt.alloc(), wanted, &mut place);
    place.release();
    made
}

#[test]
fn a_list_is_made_at_a_device(rt: HostRuntime) {
    let wanted = Wanted {
        name: "/dev/null",
        update: false,
        version: None,
        date: 0,
        authority: &AuthorityOption::All,
        files: &[],
    };
    assert!(rt; made_at(&rt, &wanted).is_ok_and(|made| made.bytes.len() == 44));
}

#[test]
fn a_list_without_a_file_is_not_there(rt: HostRuntime) {
    assert!(rt; is_there(&rt, "/dev/null"));
    assert!(rt; !is_there(&rt, "none"));
}

#[test]
fn a_run_without_its_file_stops(rt: HostRuntime) {
    assert!(rt; stop_without(&rt, &Idle, "none") == 255);
}

#[test]
fn lines_revoke(rt: HostRuntime) {
    let held = revoked_by(rt.alloc(), GITHUB_LINE).expect(&rt, "the line names a key");
    let asked = subject(rt.alloc(), GITHUB).ok().expect(&rt, "it is a key");
    assert!(rt; held.query(&asked));
    let fault = revoked_by(rt.alloc(), b"serial: 9-7")
        .err()
        .expect(&rt, "the line is refused");
    assert!(rt; fault.line == 1 && fault.cause.number() == 3);
}

#[test]
fn the_first_key_has_its_line(rt: HostRuntime) {
    let mut text = Vec::from_slice(rt.alloc(), b"\n# no key\n").expect(&rt, "there is memory");
    text.extend_from_slice(GITHUB_LINE)
        .expect(&rt, "there is memory");
    let file = holding("keys", text);
    let number = first_of(rt.alloc(), &file).ok().expect(&rt, "it is a key");
    assert!(rt; number == Some(3));
    let text = Vec::from_slice(rt.alloc(), b"\nssh-ed25519\n").expect(&rt, "there is memory");
    let file = holding("keys", text);
    let fault = first_of(rt.alloc(), &file)
        .err()
        .expect(&rt, "it has no blob");
    assert!(rt; fault.line == Some(2));
}

#[test]
fn a_key_is_listed(rt: HostRuntime) {
    let line = Vec::from_slice(rt.alloc(), GITHUB_LINE).expect(&rt, "there is memory");
    let file = holding("keys", line);
    let mut text = Vec::new(rt.alloc());
    let done = key_lines(rt.alloc(), &file, &mut text);
    assert!(rt; done.status == 0 && done.fault.is_none());
    let want = b"256 SHA256:+DiY3wvvV6TuJJhbpZisF/zLDA0zPMSvHdkr4UvCOqU no comment (ED25519)\n";
    assert!(rt; text.as_slice() == want.as_slice());
}

#[test]
fn a_line_is_said(rt: HostRuntime) {
    let mut text = Vec::new(rt.alloc());
    let done = say_once(rt.alloc(), "keys", b"no key\n", &mut text);
    assert!(rt; done.status == 0 && done.fault.is_none());
    assert!(rt; text.as_slice() == b"no key\n".as_slice());
}

#[test]
fn a_device_takes_a_list(rt: HostRuntime) {
    let whole = put(&rt, "/dev/null", b"a list").ok();
    assert!(rt; matches!(whole, Some(Put::Whole(6))));
    let fault = put(&rt, "/dev/full", b"a list").err();
    assert!(rt; fault == Some(Cause::Output { count: 0 }));
}

#[test]
fn a_list_is_made_and_asked(rt: HostRuntime) {
    let line = Vec::from_slice(rt.alloc(), GITHUB_LINE).expect(&rt, "there is memory");
    let files = [holding("keys", line)];
    let all = AuthorityOption::All;
    let list = new_list(rt.alloc(), &all, &files, 0)
        .ok()
        .expect(&rt, "the line names a key");
    let mut text = Vec::new(rt.alloc());
    let done = asked(rt.alloc(), &list, &files, &mut text);
    assert!(rt; done.status == 1 && done.fault.is_none());
    assert!(rt; text.as_slice() == b"keys: REVOKED\n".as_slice());
}
