//! The order and the paths of names, how far an audit is, and its last line.

use audit_run::{Summary, path_in, push_progress, push_summary, push_wipe, shown_path, sort_names};
use krl_audit::{Counts, FileCounts};
use krl_format::Stated;
use std::test::Fail;

#[test]
fn names_are_in_order(rt: HostRuntime) -> Result<(), Fail> {
    let mut names = Vec::new(rt.alloc());
    for name in [b"b".as_slice(), b"a/", b"a", b"\xff", b"B"] {
        names.push(Vec::from_slice(rt.alloc(), name)?)?;
    }
    sort_names(&mut names);
    let wanted: [&[u8]; 5] = [b"B", b"a", b"a/", b"b", b"\xff"];
    for (name, wanted) in names.iter().zip(wanted.iter()) {
        assert!(rt; name.as_slice() == *wanted);
    }
    assert!(rt; names.len() == 5);
    Ok(())
}

#[test]
fn paths(rt: HostRuntime) -> Result<(), Fail> {
    for (directory, wanted) in [("home", "home/x"), ("/", "/x"), ("a/", "a/x"), (".", "./x")] {
        let path = path_in(rt.alloc(), directory, "x")?;
        assert!(rt; path.as_str() == wanted);
    }
    Ok(())
}

#[test]
fn a_path_that_is_not_utf8(rt: HostRuntime) -> Result<(), Fail> {
    let path = shown_path(rt.alloc(), "caf\u{e9}", b"x\xe9")?;
    assert!(rt; path.as_str() == "caf\\xc3\\xa9/x\\xe9");
    Ok(())
}

// The counts of an audit by a list with this version and date, or by a plain list.
fn summary(files: FileCounts, keys: u64, revoked_files: u64, stated: Option<Stated>) -> Summary {
    Summary {
        files,
        revoked_files,
        counts: Counts {
            keys,
            revoked: 5,
            unread: 1,
        },
        stated,
    }
}

const LIST: Option<Stated> = Some(Stated {
    version: 12,
    generated: 1_795_734_911,
});

const FOUR: FileCounts = FileCounts {
    audited: 4,
    same: 0,
    skipped: 0,
    excluded: 0,
    elsewhere: 0,
};

const TWO: FileCounts = FileCounts {
    audited: 2,
    same: 0,
    skipped: 1,
    excluded: 0,
    elsewhere: 0,
};

const ONE: FileCounts = FileCounts {
    audited: 1,
    same: 3,
    skipped: 12,
    excluded: 2,
    elsewhere: 1,
};

#[test]
fn last_lines(rt: HostRuntime) -> Result<(), Fail> {
    let cases: [(Summary, &[u8]); 4] = [
        (
            summary(FOUR, 8, 3, LIST),
            b"krl audit: 4 files, 8 keys: 5 revoked in 3 files, 1 unread \
(list version 12, 2026-11-26T23:15:11Z)\n",
        ),
        (
            summary(ONE, 1, 1, LIST),
            b"krl audit: 1 file, 1 key: 5 revoked in 1 file, 1 unread, \
12 skipped by their names, \
2 excluded, 1 on other file systems, 3 audited before (list version 12, 2026-11-26T23:15:11Z)\n",
        ),
        (
            summary(TWO, 1, 1, LIST),
            b"krl audit: 2 files, 1 key: 5 revoked in 1 file, 1 unread, 1 skipped by its name \
(list version 12, 2026-11-26T23:15:11Z)\n",
        ),
        (
            summary(FOUR, 8, 3, None),
            b"krl audit: 4 files, 8 keys: 5 revoked in 3 files, 1 unread (plain list)\n",
        ),
    ];
    for (summary, wanted) in &cases {
        let mut text = Vec::new(rt.alloc());
        push_summary(rt.alloc(), summary, &mut text)?;
        assert!(rt; text.as_slice() == *wanted);
    }
    Ok(())
}

#[test]
fn how_far_an_audit_is(rt: HostRuntime) -> Result<(), Fail> {
    let mut text = Vec::new(rt.alloc());
    push_progress(&summary(FOUR, 8, 3, LIST), &mut text)?;
    push_wipe(3, &mut text)?;
    let wanted = b"\rkrl audit: 4 files, 8 keys: 5 revoked, 1 unread\r   \r";
    assert!(rt; text.as_slice() == wanted.as_slice());
    Ok(())
}
