//! The lines of serial numbers: what is refused, and what hexadecimal digits name.

use crate::tests::lines::{has_fault, made};
use run_faults::SpecCause;
use std::alloc::Global;
use std::process::Abort;
use test_fixtures::{FIVE, HEADER, joined};
use text_entries::{TextCause, TextFault};

const LEADING_ZERO: &str = "text 11 LeadingZero";

const NUMBER: &str = "text 1 Spec, spec 1 Number";

const ZERO: &str = "text 1 Spec, spec 2 Zero";

// The values of lines, and how their fault prints.
static REFUSED: [(&[u8], &str); 15] = [
    (b"00", LEADING_ZERO),
    (b"01", LEADING_ZERO),
    (b"010", LEADING_ZERO),
    (b"000000000000000000000", LEADING_ZERO),
    (b"0018446744073709551615", LEADING_ZERO),
    // The zero counts also if other digits are wrong.
    (b"08", LEADING_ZERO),
    (b"01f", LEADING_ZERO),
    (b"00x5", LEADING_ZERO),
    // A number of one digit has no leading zero.
    (b"0", ZERO),
    (b"0x0", ZERO),
    (b"0x00", ZERO),
    (b"0x", NUMBER),
    (b"0 1", NUMBER),
    (b"1f3", NUMBER),
    (b"99999999999999999999", NUMBER),
];

// The same for ranges.
static REFUSED_RANGES: [(&[u8], &str); 18] = [
    (b"1-010", LEADING_ZERO),
    (b"010-1", LEADING_ZERO),
    (b"1 - 010", LEADING_ZERO),
    (b"1\t-\t010", LEADING_ZERO),
    (b"1 -   00", LEADING_ZERO),
    (b"010 - 20", LEADING_ZERO),
    (b"01-02", LEADING_ZERO),
    (b"0x10-020", LEADING_ZERO),
    (b"010-0x20", LEADING_ZERO),
    (b"-01", LEADING_ZERO),
    (b"01-", LEADING_ZERO),
    (b"01-x", LEADING_ZERO),
    (b"0-1", ZERO),
    (b"1-0", ZERO),
    (b"0 - 0", ZERO),
    (b"0-", NUMBER),
    (b"-0", NUMBER),
    // Behind the second hyphen no number counts.
    (b"1-2-03", NUMBER),
];

// Whether the line of these serial numbers, under all authorities, has this fault.
fn all_refused(rt: &impl Abort, alloc: Global, rows: &[(&[u8], &str)]) {
    for (i, (given, cause)) in rows.iter().enumerate() {
        let parts: [&[u8]; 3] = [b"ca: all\n\nserial: ", given, b" # 5\r\n"];
        assert!(rt; has_fault(rt, alloc, &parts, 3, cause), "in row {i}");
    }
}

#[test]
fn refused_serial_numbers(rt: HostRuntime) {
    all_refused(&rt, rt.alloc(), &REFUSED);
}

#[test]
fn refused_ranges(rt: HostRuntime) {
    all_refused(&rt, rt.alloc(), &REFUSED_RANGES);
}

// A leading zero needs no authority to be found, and another fault does.
#[test]
fn before_any_authority(rt: HostRuntime) {
    let rows: [(&[u8], &str); 5] = [
        (b"serial: 010", LEADING_ZERO),
        (b"serial: 1-010", LEADING_ZERO),
        (b"serial: 0", "text 1 Spec, spec 4 NoAuthority"),
        (b"serial: 0x10-0x20", "text 1 Spec, spec 4 NoAuthority"),
        (b"serial: 1f3", "text 1 Spec, spec 4 NoAuthority"),
    ];
    for (i, (text, cause)) in rows.iter().enumerate() {
        let parts: [&[u8]; 1] = [text];
        assert!(rt; has_fault(&rt, rt.alloc(), &parts, 1, cause), "in row {i}");
    }
}

// The list that names these serial numbers of all authorities.
fn list_of_serials(rt: &impl Abort, alloc: Global, given: &[u8]) -> Result<Vec<u8>, TextFault> {
    let parts: [&[u8]; 2] = [b"ca: all\nserial: ", given];
    let text = joined(alloc, &parts).expect(rt, "there is memory");
    made(rt, alloc, &text)
}

// Serial numbers, and the same ones in decimal digits.
static SAME: [(&[u8], &[u8]); 11] = [
    (b"0x10-0x20", b"16-32"),
    (b"0x10 - 32", b"16-32"),
    (b"16-0X20", b"16-32"),
    (b"0x1f3", b"499"),
    (b"0X1F3", b"499"),
    // The zeros after 0x are no leading zeros of decimal digits.
    (b"0x01", b"1"),
    (b"0x0010-0x0020", b"16-32"),
    (b"0xffffffffffffffff", b"18446744073709551615"),
    // Zeros behind the first digit.
    (b"0x64", b"100"),
    (b"1 -\t100", b"1-100"),
    (b"10-100", b"0xa-0x64"),
];

#[test]
fn the_same_serial_numbers(rt: HostRuntime) {
    for (i, (given, same)) in SAME.iter().enumerate() {
        let list = list_of_serials(&rt, rt.alloc(), given);
        let other = list_of_serials(&rt, rt.alloc(), same);
        assert!(rt; list.is_ok() && list == other, "in row {i}");
    }
    let five = joined(rt.alloc(), &[&HEADER, FIVE]).expect(&rt, "there is memory");
    assert!(rt; list_of_serials(&rt, rt.alloc(), b"0x5") == Ok(five));
}

// The numbers of the causes, and how they print.
#[test]
fn causes(rt: HostRuntime) {
    let rows = [
        (TextCause::Spec(SpecCause::Zero), 1, ZERO),
        (TextCause::KeyAsId, 10, "text 10 KeyAsId"),
        (TextCause::LeadingZero, 11, LEADING_ZERO),
        (TextCause::QuotedId, 12, "text 12 QuotedId"),
        (TextCause::SeveralIds, 13, "text 13 SeveralIds"),
        (TextCause::DateInId, 21, "text 21 DateInId"),
    ];
    for (i, (cause, number, text)) in rows.iter().enumerate() {
        let said = cause.to_string(rt.alloc()).expect(&rt, "there is memory");
        assert!(rt;
            cause.number() == *number && said.as_str() == *text,
            "in row {i}"
        );
    }
}
