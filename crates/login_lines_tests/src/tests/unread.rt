//! Lines and logs that are not read (krl(1), krl logins; docs/FAULTS.md).

use audit_text::{Format, Location};
use login_lines::LoginFault::{Cut, Hostbased, Malformed};
use login_text::{LoginWhy, Packed, say_unread_login};
use std::alloc::Global;
use std::process::Abort;

// The reason, its number, its name, and the words for it.
static REASONS: [(LoginWhy, u64, &str, &str); 8] = [
    (LoginWhy::Line(Cut), 1, "Cut", "the line of a login is cut"),
    (
        LoginWhy::Line(Malformed),
        2,
        "Malformed",
        "the line of a login is malformed",
    ),
    (
        LoginWhy::Line(Hostbased),
        3,
        "Hostbased",
        "a login by the key of a host is not looked at",
    ),
    (
        LoginWhy::LongLine,
        4,
        "LongLine",
        "the line has more than 16 MiB, and what follows is not read",
    ),
    (
        LoginWhy::Packed(Packed::Gzip),
        5,
        "Packed",
        "it is compressed: zcat prints it",
    ),
    (
        LoginWhy::Packed(Packed::Xz),
        5,
        "Packed",
        "it is compressed: xzcat prints it",
    ),
    (
        LoginWhy::Packed(Packed::Zstd),
        5,
        "Packed",
        "it is compressed: zstdcat prints it",
    ),
    (
        LoginWhy::Packed(Packed::Journal),
        5,
        "Packed",
        "it is a journal: journalctl --file prints it",
    ),
];

// The text printed for a line of a log with a control character in its name. The number 0 is for
// the whole log.
fn said_for(rt: &impl Abort, alloc: Global, form: Format, number: u64, why: LoginWhy) -> Vec<u8> {
    let mut said = Vec::from_slice(alloc, b"a line before").expect(rt, "there is memory");
    let location = Location::line("a\x07.log", number);
    say_unread_login(form, location, why, &mut said).expect(rt, "there is memory");
    said
}

#[test]
fn lines_for_people(rt: HostRuntime) {
    let alloc = rt.alloc();
    for (why, _, _, words) in &REASONS {
        for (number, place) in [(0, ""), (12, ":12")] {
            let found = said_for(&rt, alloc, Format::Text, number, *why);
            let wanted = format!(in alloc; "a\\x07.log{place}: unread: {words}\n");
            let wanted = wanted.expect(&rt, "there is memory");
            assert_eq!(rt; found.as_slice(), wanted.as_bytes());
            let found = said_for(&rt, alloc, Format::Colour, number, *why);
            let wanted = format!(in alloc; "a\\x07.log{place}: \x1b[33munread\x1b[0m: {words}\n");
            let wanted = wanted.expect(&rt, "there is memory");
            assert_eq!(rt; found.as_slice(), wanted.as_bytes());
        }
    }
}

#[test]
fn objects(rt: HostRuntime) {
    let alloc = rt.alloc();
    for (why, fault, name, words) in &REASONS {
        assert_eq!(rt; why.number(), *fault);
        for (number, place) in [(0, ""), (12, "\"line\":12,")] {
            let found = said_for(&rt, alloc, Format::Json, number, *why);
            let wanted = format!(in alloc;
                "{{\"file\":\"a\\u0007.log\",{place}\"status\":\"unread\",\
\"fault\":\"login {fault} {name}\",\"why\":\"{words}\"}}\n"
            );
            let wanted = wanted.expect(&rt, "there is memory");
            assert_eq!(rt; found.as_slice(), wanted.as_bytes());
        }
    }
}
