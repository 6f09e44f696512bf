//! Lists that are made of texts over others, in a place in memory.

use crate::shelf::Shelf;
use krl_core::KrlFault;
use list_making::next_version;
use run_faults::{Cause, FileFault, cause_of};
use ssh_wire::Bytes;
use std::alloc::Global;
use std::process::Abort;
use test_fixtures::joined;
use text_run::{Inputs, MakeCause, Over, Text, text_run};

// A name under which a new list follows this one.
fn shelf<'a>(alloc: Global, base: Option<&'a [u8]>) -> Shelf<'a> {
    Shelf {
        alloc,
        held: None,
        base,
        torn: None,
        late: None,
        is_overtaken: false,
    }
}

// The bytes of a list, if there is one.
fn bytes_of(list: &Option<Bytes>) -> Option<&[u8]> {
    match list {
        Some(list) => Some(list.as_slice()),
        None => None,
    }
}

// The bytes of an empty list of this version, or none.
fn list(rt: &impl Abort, alloc: Global, version: Option<u64>) -> Option<Bytes> {
    match version {
        Some(_) => {
            let mut empty = shelf(alloc, None);
            text_run(alloc, &inputs(version), &mut empty).expect(rt, "it may be empty");
            empty.held
        }
        None => None,
    }
}

// An empty list, of this version or the next one.
fn inputs(version: Option<u64>) -> Inputs<'static> {
    Inputs {
        name: "r.krl",
        over: Over::Version,
        version,
        date: 0,
        comment: None,
        allow_empty: true,
        texts: &[],
    }
}

// The version that a list has which is made over the old one, or over the late one that another
// program writes right before it is put.
fn version_over(rt: &impl Abort, alloc: Global, old: Option<u64>, late: Option<u64>) -> u64 {
    let old = list(rt, alloc, old);
    let late = list(rt, alloc, late);
    let mut shelf = shelf(alloc, bytes_of(&old));
    shelf.late = bytes_of(&late);
    let inputs = inputs(None);
    let made = text_run(alloc, &inputs, &mut shelf).expect(rt, "it may be empty");
    made.facts.version
}

#[test]
fn versions_over_other_lists(rt: HostRuntime) {
    let alloc = rt.alloc();
    assert!(rt; version_over(&rt, alloc, None, None) == 1);
    assert!(rt; version_over(&rt, alloc, Some(5), None) == 6);
    // The list of another program is followed, and not the one that replaced it first.
    assert!(rt; version_over(&rt, alloc, Some(5), Some(77)) == 78);
}

// A list that is written while it is read is read again, and its fault counts only after that.
#[test]
fn a_torn_list_is_read_again(rt: HostRuntime) {
    let alloc = rt.alloc();
    let inputs = inputs(None);
    let whole = list(&rt, alloc, Some(5));
    let mut torn = shelf(alloc, Some(b"SSHKRL"));
    torn.torn = bytes_of(&whole);
    let made = text_run(alloc, &inputs, &mut torn).expect(&rt, "it was read again");
    assert!(rt; made.facts.version == 6);
    assert!(rt; text_run(alloc, &inputs, &mut shelf(alloc, Some(b"SSHKRL"))).is_err());
}

#[test]
fn versions(rt: HostRuntime) {
    assert!(rt; next_version(None, None, 1) == Some(1));
    assert!(rt; next_version(None, Some(7), 1) == Some(8));
    assert!(rt; next_version(Some(3), Some(7), 1) == Some(3));
    assert!(rt; next_version(None, Some(18_446_744_073_709_551_615), 1).is_none());
}

// The version of an empty list over what is under its name, or why there is none.
fn empty_over(
    alloc: Global,
    over: Over,
    version: Option<u64>,
    base: Option<&[u8]>,
) -> Result<u64, MakeCause> {
    let inputs = Inputs {
        over,
        ..inputs(version)
    };
    match text_run(alloc, &inputs, &mut shelf(alloc, base)) {
        Ok(made) => Ok(made.facts.version),
        Err(fault) => Err(fault.cause),
    }
}

// Lists that are made over a list of version 5, an empty file, another file, or nothing.
#[test]
fn over_what_is_there(rt: HostRuntime) {
    let alloc = rt.alloc();
    let five = list(&rt, alloc, Some(5));
    let old = bytes_of(&five);
    let empty: Option<&[u8]> = Some(b"");
    let text: Option<&[u8]> = Some(b"ca: all\n");
    let ends = Err(MakeCause::Run(cause_of(KrlFault::EndsEarly)));
    let magic = Err(MakeCause::Run(cause_of(KrlFault::Magic)));
    let open = Err(MakeCause::Run(Cause::File(FileFault::Open)));
    let below = Err(MakeCause::OldVersion);
    let rows: [(Over, Option<u64>, Option<&[u8]>, Result<u64, MakeCause>); 14] = [
        (Over::Version, None, old, Ok(6)),
        (Over::Version, Some(6), old, Ok(6)),
        (Over::Version, Some(5), old, below),
        (Over::Version, Some(4), old, below),
        (Over::Version, Some(4), None, Ok(4)),
        (Over::Version, None, empty, ends),
        (Over::Version, Some(1), empty, Ok(1)),
        (Over::Version, Some(9), text, magic),
        (Over::Nothing, None, old, Ok(1)),
        (Over::Nothing, Some(2), text, Ok(2)),
        (Over::Contents, None, old, Ok(6)),
        (Over::Contents, Some(5), old, below),
        (Over::Contents, Some(9), None, open),
        (Over::Contents, Some(9), empty, ends),
    ];
    for (i, (over, version, base, want)) in rows.iter().enumerate() {
        assert!(rt;
            empty_over(alloc, *over, *version, *base) == *want,
            "in row {i}"
        );
    }
}

// The list of this version and comment that is made of a text over another one.
fn listed(
    rt: &impl Abort,
    alloc: Global,
    (version, comment): (u64, Option<&str>),
    text: &[u8],
    base: Option<&[u8]>,
) -> Option<Bytes> {
    let bytes = joined(alloc, &[text]).expect(rt, "there is memory");
    let texts = [Text {
        name: "t",
        is_file: false,
        content: Ok(Bytes::from_vec(bytes)),
    }];
    let inputs = Inputs {
        name: "r.krl",
        over: match base {
            Some(_) => Over::Contents,
            None => Over::Version,
        },
        version: Some(version),
        date: 0,
        comment,
        allow_empty: false,
        texts: &texts,
    };
    let mut shelf = shelf(alloc, base);
    text_run(alloc, &inputs, &mut shelf).expect(rt, "the text is right");
    shelf.held
}

// An update names what the old list and the text name, and keeps the comment unless another is
// given.
#[test]
fn an_update(rt: HostRuntime) {
    let alloc = rt.alloc();
    let old: &[u8] = b"ca: all\nserial: 5\nid: a\n";
    let old = listed(&rt, alloc, (7, Some("of May")), old, None);
    let both: &[u8] = b"ca: all\nserial: 5-6\nid: a\n";
    for (given, kept) in [(None, Some("of May")), (Some("of June"), Some("of June"))] {
        let want = listed(&rt, alloc, (8, kept), both, None);
        let base = bytes_of(&old);
        let made = listed(&rt, alloc, (8, given), b"ca: all\nserial: 6\n", base);
        assert!(rt; bytes_of(&made) == bytes_of(&want));
    }
}
