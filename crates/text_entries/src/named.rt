//! The subjects of the lines of the text of a list, by their form.

ghost use Rattle.std.specs.Prelude.{◌≡◌};
ghost use Rattle.text_entries.specs.Named.{can_end, is_entry, is_plain_key, named_in};
ghost use Rattle.text_entries.specs.Named.{word_named_by};

use crate::mark::mark_in;
use crate::misspelt::before_word_end;
use crate::values::begins_with_key;
use crate::word::{Word, order_in};

/// The subject of a line.
#[derive(Clone, Copy, PartialEq, Eq)]
pub enum Named {
    /// Nothing.
    Nothing,
    /// An authority: the one that is current, or one by its name.
    Authority,
    /// A key, or a hash of one.
    Key,
    /// Certificates.
    Certificate,
}

impl Named {
    /// Whether an entry names it.
    pub(crate) fn is_entry(self) -> bool
        ensures { result ≡ is_entry self }
    {
        match self {
            Named::Nothing | Named::Authority => false,
            Named::Key | Named::Certificate => true,
        }
    }

    /// Whether its entry can have a last day.
    pub(crate) fn can_end(self) -> bool
        ensures { result ≡ can_end self }
    {
        match self {
            Named::Nothing | Named::Authority | Named::Key => false,
            Named::Certificate => true,
        }
    }
}

/// The subject of the content of a line, which may have a fault.
pub fn named_in(content: &[u8]) -> Named
    ensures { result ≡ named_in content.now }
{
    if let Some(order) = order_in(content) {
        return named_by(order.word);
    }
    match mark_in(content) {
        Some(mark) => match mark.given() {
            Some(_) => Named::Authority,
            None => Named::Certificate,
        },
        None if content.is_empty() => Named::Nothing,
        None if is_plain_key(content) => Named::Key,
        None => Named::Certificate,
    }
}

/// The subject of a line with this word.
pub(crate) fn named_by(word: Word) -> Named
    ensures { result ≡ word_named_by word }
{
    match word {
        Word::Authority | Word::AuthorityBlob => Named::Authority,
        Word::Serial | Word::Id | Word::IdHex => Named::Certificate,
        _ => Named::Key,
    }
}

// Whether content begins with the type of a plain key.
fn is_plain_key(content: &[u8]) -> bool
    ensures { result ≡ is_plain_key content.now }
{
    begins_with_key(content) && !before_word_end(content).ends_with(b"-cert-v01@openssh.com")
}
