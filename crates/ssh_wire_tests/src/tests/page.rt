//! The caller of the page.

ghost use Rattle.std.specs.Prelude.{◌≡◌, ◌==◌, ◌∷◌, [], false, length};
ghost use Rattle.ssh_wire.specs.Reading.{Gives};
ghost use Rattle.ssh_wire.specs.Rows.{Text, fault_unless, passes, table_at, row};
ghost use Rattle.ssh_wire_tests.specs.declared.tests.page.SignatureFault.TheVariants.{Length, Wire};

use ssh_wire::{Cursor, WireFault};
use test_fixtures::strings;

/// Why bytes do not begin with a signature.
#[derive(Debug, Drop, PartialEq)]
enum SignatureFault {
    Wire(WireFault),
    Length,
}

/// The algorithm and the bytes of an Ed25519 signature (RFC 8709 section 6): two strings, of which
/// the second is 64 bytes long.
#[tactic(auto, unfolding(ssh_wire::specs::Rows::table_at))]
fn signature<'a>(cursor: &mut Cursor<'a>) -> Result<(&'a [u8], &'a [u8]), SignatureFault>
    ensures { Gives (λ s. s.0.now ∷ s.1.now ∷ []) result cursor.new (table_at Wire
        (row Text passes
        ∷ row Text (λ before bytes. fault_unless Length (length bytes == 64)) ∷ [])
        [] cursor.old) }
{
    let algorithm = cursor.string().map_err(SignatureFault::Wire)?;
    let bytes = cursor.string().map_err(SignatureFault::Wire)?;
    if bytes.len() != 64 {
        return Err(SignatureFault::Length);
    }
    Ok((algorithm, bytes))
}

#[test]
fn a_signature_has_its_length(rt: HostRuntime) {
    let blob = strings(rt.alloc(), &[b"ssh-ed25519", &[7; 64]]).expect(&rt, "there is memory");
    let read = signature(&mut Cursor::new(&blob));
    assert!(rt; read == Ok((b"ssh-ed25519".as_slice(), [7; 64].as_slice())));
    let cut = signature(&mut Cursor::new(b"\0\0\0\x0bssh"));
    assert!(rt; cut == Err(SignatureFault::Wire(WireFault::Short)));
    let other = signature(&mut Cursor::new(b"\0\0\0\0\0\0\0\x01s"));
    assert!(rt; other == Err(SignatureFault::Length));
}
