//! The words that a line of the text of a list can begin with (krl(1), THE TEXT OF A LIST).

ghost use Rattle.std.specs.Prelude.{◌≡◌, MatchOption, None, Some};
ghost use Rattle.text_entries.specs.Misspelt.{is_meant, meant};
ghost use Rattle.text_entries.specs.Word.{is_named, name_of, order, order_in, word_named};

use crate::misspelt::is_close;
use key_text::after_blanks;
use krl_spec::position_of;

// Those that most lines begin with come first.
const WORDS: [Word; 10] = [
    Word::Serial,
    Word::Id,
    Word::Hash,
    Word::Key,
    Word::Authority,
    Word::AuthorityBlob,
    Word::IdHex,
    Word::KeyBlob,
    Word::Sha1,
    Word::Sha256,
];

/// The word at the beginning of a line, before a colon.
#[derive(Clone, Copy)]
pub enum Word {
    /// The authority of the lines that follow, by its key line, or all authorities.
    Authority,
    /// The authority of the lines that follow, by its bytes.
    AuthorityBlob,
    /// A serial under the current authority, or a range of them.
    Serial,
    /// A key ID under the current authority.
    Id,
    /// A key ID under the current authority, by its bytes.
    IdHex,
    /// A key, by its line.
    Key,
    /// A key, by its bytes.
    KeyBlob,
    /// A key, by its line and revoked by its SHA-1.
    Sha1,
    /// A key, by its line and revoked by its SHA-256.
    Sha256,
    /// A key, by a hash of its bytes.
    Hash,
}

impl Word {
    /// The word's name, in lower case.
    pub fn name(self) -> &'static str
        ensures { result.now ≡ name_of self }
    {
        match self {
            Word::Authority => "ca",
            Word::AuthorityBlob => "ca-blob",
            Word::Serial => "serial",
            Word::Id => "id",
            Word::IdHex => "id-hex",
            Word::Key => "key",
            Word::KeyBlob => "key-blob",
            Word::Sha1 => "sha1",
            Word::Sha256 => "sha256",
            Word::Hash => "hash",
        }
    }

    // The word with this name, in upper or lower case.
    #[tactic(auto, unfolding(crate::specs::Word::word_named))]
    fn named(name: &[u8]) -> Option<Word>
        ensures { result ≡ word_named name.now }
    {
        WORDS.iter().copied().find(|word| word.is_named(name))
    }

    // Whether the word has this name, in upper or lower case.
    fn is_named(self, name: &[u8]) -> bool
        ensures { result ≡ is_named self name.now }
    {
        name.eq_ignore_ascii_case(self.name().as_bytes())
    }

    /// The first word that is the given one or one slip off from it. Letters in upper and lower
    /// case count the same.
    #[tactic(auto, unfolding(crate::specs::Misspelt::meant))]
    pub fn meant(name: &[u8]) -> Option<Word>
        ensures { result ≡ meant name.now }
    {
        WORDS.iter().copied().find(|word| word.is_meant(name))
    }

    // Whether the given word is the same or one slip off.
    fn is_meant(self, name: &[u8]) -> bool
        ensures { result ≡ is_meant self name.now }
    {
        is_close(name, self.name().as_bytes())
    }
}

/// A word and its value.
#[derive(Clone, Copy)]
pub struct Order<'a> {
    /// The word.
    pub word: Word,
    /// The text after the colon and blanks.
    pub given: &'a [u8],
}

/// The word whose name is before the line's first colon, and its value.
#[tactic(auto, unfolding(crate::specs::Word::order_in))]
pub fn order_in(line: &[u8]) -> Option<Order<'_>>
    ensures { MatchOption result (order_in line.now ≡ None)
        (λ found. order_in line.now ≡ Some (order found.given.now found.word)) }
{
    let colon = position_of(line, b':');
    if colon == line.len() {
        return None;
    }
    let word = Word::named(&line[..colon])?;
    let given = after_blanks(&line[colon + 1..]);
    Some(Order { word, given })
}
