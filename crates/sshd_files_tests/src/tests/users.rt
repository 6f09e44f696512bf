//! Lines of users, and lines of none.

use sshd_files::users_of;
use std::test::Fail;

// A text, its users as name, number and home directory, or the line with the fault.
static TEXTS: [(&str, Result<&[(&str, u32, &str)], u64>); 24] = [
    ("", Ok(&[])),
    ("\n \n\t\n", Ok(&[])),
    ("# root:x:0:0:root:/root:/bin/sh\n  # more\n", Ok(&[])),
    ("root:x:0:0:root:/root:/bin/sh", Ok(&[("root", 0, "/root")])),
    (
        "root:x:0:0:root:/root:/bin/sh\n\nbob::1000:1:Bob,,,:/home/bob:\n",
        Ok(&[("root", 0, "/root"), ("bob", 1000, "/home/bob")]),
    ),
    (
        "a:x:4294967295:0::/a b:c:d:e\n",
        Ok(&[("a", 4294967295, "/a b")]),
    ),
    ("a:x:007:::: \n", Ok(&[("a", 7, "")])),
    (
        "  bob:x:1:1::/home/bob:/bin/sh\n",
        Ok(&[("bob", 1, "/home/bob")]),
    ),
    ("a#b:x:1:1::/:/bin/sh\n", Ok(&[("a#b", 1, "/")])),
    ("A-+:x:1:g:c:h:s\n", Ok(&[("A-+", 1, "h")])),
    ("a:x:4294967296:0::/a:s\n", Err(1)),
    ("a:x:18446744073709551617:0::/a:s\n", Err(1)),
    ("a:x:-1:0::/a:s\n", Err(1)),
    ("a:x:+1:0::/a:s\n", Err(1)),
    ("a:x: 1:0::/a:s\n", Err(1)),
    ("a:x:1x:0::/a:s\n", Err(1)),
    ("a:x::0::/a:s\n", Err(1)),
    (":x:1:0::/a:s\n", Err(1)),
    ("+:x:1:0::/a:s\n", Err(1)),
    ("+bob::::::\n", Err(1)),
    ("-bob:x:1:0::/a:s\n", Err(1)),
    ("\x0bbob:x:1:0::/a:s\n", Err(1)),
    ("\n\na:x:1:0::/a:s\nb:x:1:0::/b\nc\n", Err(4)),
    ("a:x:1:0::/a:s\nword", Err(2)),
];

#[test]
fn users(rt: HostRuntime) -> Result<(), Fail> {
    for (i, (text, wanted)) in TEXTS.iter().enumerate() {
        let same = match (users_of(rt.alloc(), text.as_bytes())?, wanted) {
            (Ok(users), Ok(wanted)) => {
                users.len() == wanted.len()
                    && users.iter().zip(wanted.iter()).all(|(user, row)| {
                        user.name == row.0.as_bytes()
                            && user.number == row.1
                            && user.home == row.2.as_bytes()
                    })
            }
            (Err(fault), Err(line)) => fault.line == *line,
            _ => false,
        };
        assert!(rt; same, "in row {i}");
    }
    Ok(())
}
