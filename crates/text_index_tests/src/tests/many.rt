//! Texts of many lines.

use crate::tests::found::{TODAY, reasons_of};
use krl_entries::Reason;
use krl_fingerprints::KeysBy;
use krl_types::{CertNames, Subject};
use ssh_wire::Bytes;
use std::process::Abort;
use text_entries::Standing;
use text_index::TextIndex;

// How many lines there are.
const MANY: u64 = 1_500;

// Each line has ten serial numbers, of which the next line has nine too.
#[test]
fn many_lines(rt: HostRuntime) {
    let alloc = rt.alloc();
    let mut text = String::new(alloc);
    for i in 1..=MANY {
        let line = format!(in alloc; "@all serial: {}-{} # line {}\n", i, i.saturating_add(9), i);
        text.push_str(&line.expect(&rt, "there is memory"))
            .expect(&rt, "there is memory");
    }
    let mut standing = Standing::new(alloc, TODAY);
    let mut index = TextIndex::new(alloc, KeysBy::Blob);
    let added = index.add_text(alloc, &mut standing, "many", text.as_bytes());
    assert!(rt; added.is_ok());
    for serial in [1, 9, 10, 512, 1_024, 1_025, 1_500, 1_509, 1_510] {
        let subject = Subject {
            plain: Bytes::from_vec(Vec::new(alloc)),
            cert: Some(CertNames {
                serial,
                key_id: b"",
                authority: b"x",
            }),
        };
        let explanation = index
            .explain(alloc, &subject, reasons_of(&[Reason::SerialOfAll]))
            .expect(&rt, "there is memory");
        // The lines from ten serials before on, up to the last one.
        let first = serial.saturating_sub(9).max(1);
        let last = serial.min(MANY);
        let mut number = first;
        for line in &explanation.lines {
            assert!(rt; line.number == number, "of serial {serial}");
            number = number.saturating_add(1);
        }
        assert!(rt; number == last.saturating_add(1), "of serial {serial}");
    }
}
