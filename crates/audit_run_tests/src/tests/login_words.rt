//! The last lines of a search for logins.

use krl_audit::Counts;
use krl_format::Stated;
use login_run::{LoginSummary, push_login_summary, push_sha1s};
use std::test::Fail;

#[test]
fn last_lines(rt: HostRuntime) -> Result<(), Fail> {
    let many = LoginSummary {
        files: 2,
        counts: Counts {
            keys: 312,
            revoked: 7,
            unread: 12,
        },
        sha1s: 0,
        stated: Some(Stated {
            version: 7,
            generated: 1_795_683_600,
        }),
    };
    let one = LoginSummary {
        files: 1,
        counts: Counts {
            keys: 1,
            revoked: 1,
            unread: 1,
        },
        sha1s: 5,
        stated: None,
    };
    let cases: [(LoginSummary, &[u8]); 2] = [
        (
            many,
            b"krl logins: 2 files, 312 logins: 7 revoked, 12 unread \
(list version 7, 2026-11-26T09:00:00Z)\n",
        ),
        (
            one,
            b"krl logins: 1 file, 1 login: 1 revoked, 1 unread (plain list)\n",
        ),
    ];
    for (summary, wanted) in &cases {
        let mut text = Vec::from_slice(rt.alloc(), b"krl: ")?;
        push_login_summary(rt.alloc(), summary, &mut text)?;
        assert_eq!(rt; text.get(5..), Some(*wanted));
        assert!(rt; text.starts_with(b"krl: "));
    }
    Ok(())
}

#[test]
fn words_about_sha1_hashes(rt: HostRuntime) -> Result<(), Fail> {
    let cases: [(u64, &[u8]); 3] = [
        (1, b"1 entry is a SHA-1 hash, and no log has these"),
        (2, b"2 entries are SHA-1 hashes, and no log has these"),
        (21, b"21 entries are SHA-1 hashes, and no log has these"),
    ];
    for (count, wanted) in cases {
        let mut text = Vec::from_slice(rt.alloc(), b"krl: ")?;
        push_sha1s(count, &mut text)?;
        assert_eq!(rt; text.get(5..), Some(wanted));
    }
    Ok(())
}
