//! The caller of the page of `key_places`.

ghost use Rattle.std.specs.Prelude.{◌≡◌, map, IfOk};
ghost use Rattle.key_places.specs.Reading.{places_of};

use key_places::Places;
use std::alloc::{AllocError, Global};
use std::test::Fail;

/// The columns of the keys and certificates in a line.
fn columns(alloc: Global, line: &[u8]) -> Result<Vec<u64>, AllocError>
    ensures { IfOk result (λ columns.
        columns.items ≡ map (λ place. place.column) (places_of line.now)) }
{
    let mut places = Places::new(line);
    let mut columns = Vec::new(alloc);
    'places: while let Some(place) = places.next(alloc)? {
        columns.push(place.column)?;
    }
    Ok(columns)
}

#[test]
fn the_caller_of_the_page(rt: HostRuntime) -> Result<(), Fail> {
    let line = b"ssh-ed25519 AAAAC3NzaC1lZDI1NTE5 ssh-rsa AAAAC3NzaC1lZDI1NTE5";
    let columns = columns(rt.alloc(), line)?;
    assert!(rt; columns.as_slice() == [1].as_slice());
    Ok(())
}
