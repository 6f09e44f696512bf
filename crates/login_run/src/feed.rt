//! Where a line ends.

ghost use Rattle.std.specs.Prelude.{◌≡◌, ◌≤◌, ◌+◌, ◌∷◌, IfSome, length};
ghost use Rattle.std.specs.List.{slice_split};
ghost use Rattle.key_text.specs.Lines.{is_newline, lines_left};

use memchr::memchr;

/// The first line of a text without its line feed, and the text after the line feed, if there is
/// one. Logs are long, so the line feed is searched for in many bytes at a time.
pub(crate) fn split_at_feed(text: &[u8]) -> (&[u8], Option<&[u8]>)
    ensures lines { slice_split is_newline text.now ≡ result.0.now ∷ lines_left result.1 }
    ensures shorter { IfSome result.1 (λ rest.
        length result.0.now + length rest.now + 1 ≤ length text.now) }
    ensures within { length result.0.now ≤ length text.now }
{
    match memchr(b'\n', text) {
        Some(at) => (&text[..at], Some(&text[at + 1..])),
        None => (text, None),
    }
}
