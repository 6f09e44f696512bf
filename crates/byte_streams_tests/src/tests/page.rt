//! The caller of the page.

ghost use Rattle.std.specs.Prelude.{◌≡◌, false, take};
ghost use Rattle.std.specs.Io.KnownBytes.{Appends};

use byte_streams::{Sink, ToWrite, send};

/// How many bytes of a text go out: all of them, or those before the writer failed.
fn went_out<W: Sink>(writer: &mut W, text: &[u8]) -> usize
    requires { W.has_failed writer.old ≡ false }
    ensures { Appends (W.taken writer.old) (W.taken writer.new) (take result text.now) }
{
    match send(writer, text) {
        Ok(count) => count,
        Err(sent) => sent.count,
    }
}

#[test]
fn a_text_goes_out_as_far_as_there_is_room(rt: HostRuntime) {
    let mut out = Vec::new(rt.alloc());
    assert!(rt; went_out(&mut ToWrite::new(&mut out), b"a line\n") == 7);
    assert!(rt; out.as_slice() == b"a line\n".as_slice());
    let mut room = [0; 4];
    assert!(rt; went_out(&mut ToWrite::new(room.as_mut_slice()), b"a line\n") == 4);
    assert!(rt; room == *b"a li");
}
