//! Paths of directories, names that are shown, how far an audit is, and its last line.

use crate::tests::answered::answered;
use audit_run::{Summary, path_in, push_progress, push_summary, push_wipe, shown_path};
use krl_audit::{Counts, FileCounts};
use krl_format::Stated;
use line_pieces::visible_name;
use std::alloc::AllocError;

#[test]
fn a_path(rt: HostRuntime) {
    if let Some(path) = answered(&rt, path_in(rt.alloc(), "home", "x"), AllocError) {
        assert!(rt; path.as_str() == "home/x");
    }
}

#[test]
fn a_path_that_is_not_utf8(rt: HostRuntime) {
    if let Some(path) = answered(&rt, shown_path(rt.alloc(), "home", b"\xe9"), AllocError) {
        assert!(rt; path.as_str() == "home/\\xe9");
    }
}

#[test]
fn a_name_that_is_not_utf8(rt: HostRuntime) {
    if let Some(name) = answered(&rt, visible_name(rt.alloc(), b"caf\xe9"), AllocError) {
        assert!(rt; name.as_str() == "caf\\xe9");
    }
}

// One file without a key.
const SUMMARY: Summary = Summary {
    files: FileCounts {
        audited: 1,
        same: 0,
        skipped: 2,
        excluded: 0,
        elsewhere: 0,
    },
    revoked_files: 0,
    counts: Counts::NONE,
    stated: Some(Stated {
        version: 12,
        generated: 1_795_734_911,
    }),
};

#[test]
fn how_far_an_audit_is(rt: HostRuntime) {
    let mut text = Vec::new(rt.alloc());
    let shown = answered(&rt, push_progress(&SUMMARY, &mut text), AllocError);
    if shown.is_none() {
        return;
    }
    if let Some(()) = answered(&rt, push_wipe(2, &mut text), AllocError) {
        let wanted = b"\rkrl audit: 1 file, 0 keys: 0 revoked, 0 unread\r  \r";
        assert!(rt; text.as_slice() == wanted.as_slice());
    }
}

#[test]
fn a_last_line(rt: HostRuntime) {
    let mut text = Vec::new(rt.alloc());
    let pushed = push_summary(rt.alloc(), &SUMMARY, &mut text);
    if let Some(()) = answered(&rt, pushed, AllocError) {
        let wanted = b"krl audit: 1 file, 0 keys: 0 revoked in 0 files, 0 unread, \
2 skipped by their names (list version 12, 2026-11-26T23:15:11Z)\n";
        assert!(rt; text.as_slice() == wanted.as_slice());
    }
}
