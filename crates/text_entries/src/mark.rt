//! Lines that begin with `@` and the name of a certificate authority (krl(1), THE TEXT OF A LIST).

ghost use Rattle.std.specs.Prelude.{◌≡◌, MatchOption, None, Some, option_map};
ghost use Rattle.krl_spec.specs.Blanks.{bare_line};
ghost use Rattle.text_entries.specs.Mark.{given_behind, mark, mark_in, name_given, value_in};

use crate::misspelt::before_word_end;
use crate::word::order_in;
use key_text::after_blanks;
use krl_spec::bare_line;

/// The name that a line begins with, and the rest of the line.
#[derive(Clone, Copy)]
pub(crate) struct Mark<'a> {
    /// The name.
    pub(crate) name: &'a [u8],
    /// The rest of the line.
    pub(crate) rest: &'a [u8],
}

// The mark that a line's content begins with.
#[tactic(auto, unfolding(crate::specs::Mark::mark_in))]
pub(crate) fn mark_in(content: &[u8]) -> Option<Mark<'_>>
    ensures { MatchOption result (mark_in content.now ≡ None)
        (λ found. mark_in content.now ≡ Some (mark found.name.now found.rest.now)) }
{
    let [first, marked @ ..] = content else {
        return None;
    };
    if *first != b'@' {
        return None;
    }
    let name = before_word_end(marked);
    let rest = &marked[name.len()..];
    Some(Mark { name, rest })
}

impl<'a> Mark<'a> {
    // The text behind the name's colon, if one is there: the key that has the name.
    pub(crate) fn given(self) -> Option<&'a [u8]>
        ensures { MatchOption result (given_behind self.entry.rest.now ≡ None)
            (λ given. given_behind self.entry.rest.now ≡ Some given.now) }
    {
        let [first, given @ ..] = self.rest else {
            return None;
        };
        if *first != b':' {
            return None;
        }
        Some(after_blanks(given))
    }
}

/// The name that a line gives to an authority.
pub fn name_given(line: &[u8]) -> Option<&[u8]>
    ensures { MatchOption result (name_given line.now ≡ None)
        (λ name. name_given line.now ≡ Some name.now) }
{
    let mark = mark_in(bare_line(line))?;
    match mark.given() {
        Some(_) => Some(mark.name),
        None => None,
    }
}

// The value of a line's content: what is behind its word, or behind its mark.
pub(crate) fn value_in(content: &[u8]) -> Option<&[u8]>
    ensures { MatchOption result (value_in content.now ≡ None)
        (λ given. value_in content.now ≡ Some given.now) }
{
    if let Some(order) = order_in(content) {
        return Some(order.given);
    }
    let mark = mark_in(content)?;
    match mark.given() {
        Some(given) => Some(given),
        None => Some(order_in(after_blanks(mark.rest))?.given),
    }
}
