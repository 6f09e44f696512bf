//! Lines that are long: many names without keys, many blanks, a long word, and many keys.

use key_places::Places;
use std::alloc::Global;
use std::test::Fail;
use test_fixtures::{GITHUB, GITHUB_LINE, joined, repeated};

// The base64 of that line.
const WORD: &[u8] = b"AAAAC3NzaC1lZDI1NTE5AAAAIOMqqnkVzrm0SdG6UOoqKLsabgH5C9okWi0dh2l9GKJl";

// The number of places of a line, the column of the last one, and the size of its blob.
fn last_place(alloc: Global, line: &[u8]) -> Result<(u64, u64, usize), Fail> {
    let mut places = Places::new(line);
    let mut last = (0, 0, 0);
    for count in 1..=line.len() as u64 {
        let Some(place) = places.next(alloc)? else {
            return Ok(last);
        };
        let size = match &place.blob {
            Some(blob) => blob.as_slice().len(),
            None => 0,
        };
        last = (count, place.column, size);
    }
    Ok(last)
}

#[test]
fn long_lines(rt: HostRuntime) -> Result<(), Fail> {
    let alloc = rt.alloc();
    let names = repeated(alloc, b"ssh-rsa ", 5000)?;
    assert!(rt; last_place(alloc, names.as_slice())? == (0, 0, 0));
    let blanks = repeated(alloc, b" ", 5000)?;
    let apart = joined(alloc, &[b"ssh-ed25519", blanks.as_slice(), GITHUB_LINE])?;
    assert!(rt; last_place(alloc, &apart)? == (1, 5012, GITHUB.len()));
    let far = joined(alloc, &[b"ssh-ed25519", blanks.as_slice(), WORD])?;
    assert!(rt; last_place(alloc, &far)? == (1, 1, GITHUB.len()));
    let many_blanks = repeated(alloc, &far, 50)?;
    assert!(rt; last_place(alloc, &many_blanks)? == (1, 1, 0));
    let symbols = repeated(alloc, b"AAAA", 5000)?;
    let long = joined(alloc, &[names.as_slice(), GITHUB_LINE, symbols.as_slice()])?;
    assert!(rt; last_place(alloc, &long)? == (1, 40_001, GITHUB.len() + 15_000));
    let escaped = joined(alloc, &[GITHUB_LINE, b"\\/", symbols.as_slice()])?;
    assert!(rt; last_place(alloc, &escaped)? == (1, 1, 0));
    let row = joined(alloc, &[GITHUB_LINE, b"\\n"])?;
    let keys = repeated(alloc, &row, 500)?;
    assert!(rt; last_place(alloc, &keys)? == (500, 499 * 82 + 1, GITHUB.len()));
    let hyphens = repeated(alloc, b";-", 5000)?;
    assert!(rt; last_place(alloc, &hyphens)? == (0, 0, 0));
    Ok(())
}
