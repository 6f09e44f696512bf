//! Buffers in front of readers: fields within them, over their ends, and past a failure.

use byte_streams::{Failed, FromBuffer, Pull, Source};
use ssh_wire::PullFault;
use std::alloc::Global;
use std::io::{self, BufReader};
use test_fixtures::{Giver, Then};

// A buffer in front of a reader that gives five bytes at a call.
fn buffered<'a>(
    alloc: Global,
    capacity: usize,
    bytes: &'a [u8],
    then: Then,
) -> io::Result<BufReader<Giver<'a>>> {
    let mut giver = Giver::new(bytes, 5);
    giver.then = then;
    BufReader::with_capacity(alloc, capacity, giver)
}

// Whether these fields come one after another, and then the end.
fn gives(alloc: Global, capacity: usize, fields: &[&[u8]]) -> io::Result<bool> {
    let list = buffered(alloc, capacity, b"abcdefghijklmnop", Then::Ends)?;
    let mut pull = Pull::new(FromBuffer::new(list), 100);
    let mut into = [0; 8];
    for field in fields {
        let size = field.len();
        if size > 8 || pull.fill(&mut into[..size]).is_err() || &into[..size] != *field {
            return Ok(false);
        }
    }
    Ok(pull.at_end() == Ok(true))
}

#[test]
fn fields_are_whole_in_buffers_of_any_size(rt: HostRuntime) {
    let fields: [&[u8]; 6] = [b"a", b"bcd", b"", b"efghijkl", b"mn", b"op"];
    for capacity in [1, 2, 3, 4, 8, 16, 64] {
        let met = gives(rt.alloc(), capacity, &fields).expect(&rt, "there is memory");
        assert!(rt; met, "with {capacity} bytes");
    }
}

#[test]
fn a_failure_comes_after_the_bytes_and_is_for_good(rt: HostRuntime) {
    for capacity in [1, 3, 64] {
        let list = buffered(rt.alloc(), capacity, b"ab", Then::Fails).expect(
            &rt,
            "there is memory",
        );
        let mut source = FromBuffer::new(list);
        let mut into = [0; 1];
        for byte in b"ab" {
            assert!(rt; source.read(&mut into) == Ok(1) && into == [*byte]);
            assert!(rt; !source.failed());
        }
        for _ in 0..3 {
            assert!(rt; source.read(&mut into) == Err(Failed) && source.failed());
            assert!(rt; source.read(&mut []) == Err(Failed));
        }
        let list = buffered(rt.alloc(), capacity, b"ab", Then::Fails).expect(
            &rt,
            "there is memory",
        );
        let mut pull = Pull::new(FromBuffer::new(list), 100);
        assert!(rt; pull.array() == Err::<[u8; 3], PullFault>(PullFault::Read));
    }
}
