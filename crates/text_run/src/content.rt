//! The kinds of lines that a text has: entries, comments and certificate authorities.

ghost use Rattle.std.specs.Prelude.{◌≡◌, MatchOption, None, Some};
ghost use Rattle.std.specs.List.{find, list_any};
ghost use Rattle.krl_spec.specs.Blanks.{is_hash};
ghost use Rattle.text_run.specs.Content.{content_of, is_mute, line_content, more};

use crate::text::Text;
use key_text::split_line;
use krl_spec::bare_line;
use text_entries::{Named, named_in};

/// The kinds of lines that there are.
#[derive(Clone, Copy)]
pub(crate) enum Content {
    /// Nothing.
    Blank,
    /// Comments, or which authority is current.
    Notes,
    /// An entry, unless they have a fault.
    Entries,
}

impl Content {
    // The kinds of these lines and of others.
    fn more(self, later: Content) -> Content
        ensures { result ≡ more self later }
    {
        match (self, later) {
            (Content::Entries, _) | (_, Content::Entries) => Content::Entries,
            (Content::Notes, _) | (_, Content::Notes) => Content::Notes,
            (Content::Blank, Content::Blank) => Content::Blank,
        }
    }
}

/// The first text that has no entry although it needs one: a regular file needs none that has a
/// comment or names an authority.
pub(crate) fn first_mute<'a>(texts: &'a [Text<'a>]) -> Option<&'a Text<'a>>
    ensures { MatchOption result (find is_mute texts.now ≡ None)
        (λ text. find is_mute texts.now ≡ Some text.now) }
{
    for text in texts {
        if is_mute(text) {
            return Some(text);
        }
    }
    None
}

// Whether a text has no entry although it needs one.
fn is_mute(text: &Text<'_>) -> bool
    ensures { result ≡ is_mute text.now }
{
    let Ok(bytes) = &text.content else {
        return false;
    };
    match content_of(bytes.as_slice()) {
        Content::Blank => true,
        Content::Notes => !text.is_file,
        Content::Entries => false,
    }
}

// The kinds of lines that a text has.
#[tactic(auto, unfolding(crate::specs::Content::content_of))]
fn content_of(text: &[u8]) -> Content
    ensures { result ≡ content_of text.now }
{
    let mut said = Content::Blank;
    let mut rest = text;
    'lines: loop {
        let (line, after) = split_line(rest);
        said = said.more(line_content(line));
        if let Content::Entries = said {
            return said;
        }
        let Some(after) = after else {
            return said;
        };
        rest = after;
    }
}

// The kind of a line.
fn line_content(line: &[u8]) -> Content
    ensures { result ≡ line_content line.now }
{
    match named_in(bare_line(line)) {
        Named::Nothing if has_hash(line) => Content::Notes,
        Named::Nothing => Content::Blank,
        Named::Authority => Content::Notes,
        Named::Key | Named::Certificate => Content::Entries,
    }
}

// Whether a line has a comment.
fn has_hash(line: &[u8]) -> bool
    ensures { result ≡ list_any is_hash line.now }
{
    line.iter().any(|byte| *byte == b'#')
}
