//! Strings that fill bytes, one after another.

ghost use Rattle.std.specs.Prelude.{◌≡◌, length};
ghost use Rattle.std.specs.Option.{option_map};
ghost use Rattle.ssh_cert.specs.Strings.{strings_of};

use ssh_wire::Cursor;
use std::marker::Model;

/// Strings that fill bytes, one after another (RFC 4251 section 5): an iterator that borrows each
/// from the bytes.
#[derive(Drop)]
pub struct Strings<'a> {
    left: Cursor<'a>,
}

impl<'a> Model for Strings<'a> {
    ghost use Rattle.std.specs.Prelude.{ℕ, List};
    ghost use Rattle.ssh_cert.specs.Strings.{AreStrings, strings_in};

    ghost Value = { List (List ℕ) };

    ghost view = { λ s. strings_in s.left };

    ghost invariant = { λ s. AreStrings s.left };
}

impl<'a> Iterator for Strings<'a> {
    ghost use Rattle.std.specs.Iterator.{YieldsFirstRef, item_count};

    type Item = &'a [u8];

    ghost next_gives = { YieldsFirstRef (λ s. s) };

    ghost remaining = { item_count (λ s. s) };

    fn next(&mut self) -> Option<&'a [u8]> {
        self.left.string().ok()
    }
}

impl<'a> Strings<'a> {
    // Another iterator over the strings, from the current one on.
    pub(crate) fn again(&self) -> Strings<'a>
        ensures { result ≡ self.now }
    {
        Strings {
            left: Cursor::new(self.left.rest()),
        }
    }
}

/// The strings that fill the bytes, if the bytes are such strings.
pub fn strings_in<'a>(bytes: &'a [u8]) -> Option<Strings<'a>>
    ensures { result ≡ strings_of bytes.entry.now }
{
    count_of(bytes)?;
    Some(Strings {
        left: Cursor::new(bytes),
    })
}

/// How many strings fill the bytes, if the bytes are such strings.
pub fn count_of(bytes: &[u8]) -> Option<usize>
    ensures { result ≡ option_map length (strings_of bytes.now) }
{
    let mut left = Cursor::new(bytes);
    let mut count = 0;
    while !left.at_end() {
        let Ok(_string) = left.string() else {
            return None;
        };
        count += 1;
    }
    Some(count)
}
