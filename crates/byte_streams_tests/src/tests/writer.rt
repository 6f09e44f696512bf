//! Writers that are interrupted, take few bytes, or fail.

use byte_streams::{Sent, Sink, ToWrite, send};
use test_fixtures::Taker;

const LINE: &[u8] = b"g.pub: REVOKED\n";

// Whether sending the text has this result, and the writer has failed exactly if it is an error.
fn sends(device: &mut Taker, text: &[u8], answer: Result<usize, Sent>) -> bool {
    let mut writer = ToWrite::new(device);
    send(&mut writer, text) == answer && writer.failed() == answer.is_err()
}

// The number of bytes taken at a call, of interruptions first, and of calls before a failure, and
// the result of sending the line.
const ROWS: [(usize, usize, usize, Result<usize, Sent>); 4] = [
    (3, 1000, 255, Ok(15)),
    (3, 1001, 255, Err(Sent { count: 0 })),
    (3, 0, 3, Err(Sent { count: 9 })),
    // A writer that takes nothing has failed.
    (0, 0, 255, Err(Sent { count: 0 })),
];

#[test]
fn counts_what_went_out(rt: HostRuntime) {
    for (i, (per_call, interruptions, calls, answer)) in ROWS.iter().enumerate() {
        let mut device = Taker::new(rt.alloc(), *per_call, *calls);
        device.interruptions = *interruptions;
        assert!(rt; sends(&mut device, LINE, *answer), "in case {i}");
        let count = match answer {
            Ok(count) => *count,
            Err(sent) => sent.count,
        };
        assert!(rt;
            LINE.get(..count) == Some(device.taken.as_slice()),
            "in case {i}"
        );
    }
}

#[test]
fn sends_long_texts(rt: HostRuntime) {
    let text = vec![in rt.alloc(); 7; 70_000].expect(&rt, "there is memory");
    for per_call in [1000, 4096, 100_000] {
        let mut device = Taker::new(rt.alloc(), per_call, 255);
        assert!(rt; sends(&mut device, &text, Ok(70_000)), "in case {per_call}");
        assert!(rt; device.taken.as_slice() == text.as_slice());
    }
}
