//! The line of texts that gives a name to an authority.

ghost use Rattle.std.specs.Prelude.{◌≡◌, MatchOption, None, Some};
ghost use Rattle.text_run.specs.Naming.{bytes_naming, can_be_meant, is_sought, naming};
ghost use Rattle.text_run.specs.Naming.{naming_meant, text_naming, texts_naming};

use crate::text::Text;
use key_text::split_line;
use text_entries::{is_close, name_given};

/// A line of a text that gives a name to an authority.
#[derive(Clone, Copy)]
pub(crate) struct Naming<'a> {
    /// The name.
    pub(crate) name: &'a [u8],
    /// The name of the text.
    pub(crate) text: &'a str,
    /// The line's number, counted from 1.
    pub(crate) line: u64,
}

/// The first line of the texts that gives exactly this name, or one that is close to it, to an
/// authority.
pub(crate) fn naming_in<'a>(
    texts: &'a [Text<'a>],
    name: &[u8],
    is_exact: bool,
) -> Option<Naming<'a>>
    ensures { MatchOption result (texts_naming (is_sought is_exact name.now) texts.now ≡ None)
        (λ found. texts_naming (is_sought is_exact name.now) texts.now
        ≡ Some (naming found.text.now found.line found.name.now)) }
{
    for text in texts {
        if let Some(found) = naming_of(text, name, is_exact) {
            return Some(found);
        }
    }
    None
}

/// The first line of the texts that gives this name to an authority, or otherwise one that is close
/// to it.
pub(crate) fn naming_meant<'a>(texts: &'a [Text<'a>], name: &[u8]) -> Option<Naming<'a>>
    ensures { MatchOption result (naming_meant texts.now name.now ≡ None)
        (λ found. naming_meant texts.now name.now
        ≡ Some (naming found.text.now found.line found.name.now)) }
{
    if let Some(found) = naming_in(texts, name, true) {
        return Some(found);
    }
    naming_in(texts, name, false)
}

// The first such line of a text.
fn naming_of<'a>(text: &'a Text<'a>, name: &[u8], is_exact: bool) -> Option<Naming<'a>>
    ensures { MatchOption result (text_naming (is_sought is_exact name.now) text.now ≡ None)
        (λ found. text_naming (is_sought is_exact name.now) text.now
        ≡ Some (naming found.text.now found.line found.name.now)) }
{
    match &text.content {
        Ok(bytes) => naming_line(text.name, bytes.as_slice(), name, is_exact),
        Err(_) => None,
    }
}

// The first such line of the bytes of a text.
fn naming_line<'a>(
    text: &'a str,
    bytes: &'a [u8],
    name: &[u8],
    is_exact: bool,
) -> Option<Naming<'a>>
    ensures { MatchOption result
        (bytes_naming (is_sought is_exact name.now) text.now bytes.now ≡ None)
        (λ found. bytes_naming (is_sought is_exact name.now) text.now bytes.now
        ≡ Some (naming found.text.now found.line found.name.now)) }
{
    let mut rest = bytes;
    let mut passed = 0;
    'lines: loop {
        let (line, after) = split_line(rest);
        if let Some(given) = name_given(line)
            && is_sought(is_exact, name, given)
        {
            return Some(Naming {
                name: given,
                text,
                line: passed + 1,
            });
        }
        let Some(after) = after else {
            return None;
        };
        rest = after;
        passed += 1;
    }
}

// Whether a name is the one that is sought, or close to it.
fn is_sought(is_exact: bool, sought: &[u8], name: &[u8]) -> bool
    ensures { result ≡ is_sought is_exact sought.now name.now }
{
    if is_exact {
        sought == name
    } else {
        can_be_meant(name) && is_close(sought, name)
    }
}

/// Whether a name may be that of one authority. It is not long, so that it can be printed, and the
/// comparison with another one, which recurs for each byte, needs little of the stack.
pub(crate) fn can_be_meant(name: &[u8]) -> bool
    ensures { result ≡ can_be_meant name.now }
{
    !name.is_empty() && name.len() <= 64 && name != b"all".as_slice()
}
