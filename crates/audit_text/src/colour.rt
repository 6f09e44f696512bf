//! Words in colour, as terminals show them (ECMA-48, SELECT GRAPHIC RENDITION).

ghost use Rattle.std.specs.Prelude.{◌≡◌};
ghost use Rattle.audit_text.specs.Colour.{unread_word, verdict_word, word_text};

use line_pieces::{Printed, Words, put};
use std::alloc::AllocError;

/// The word of a finding, between colons, in a colour or not.
#[derive(Clone, Copy)]
pub struct Mark {
    pub(crate) coloured: bool,
    pub(crate) colour: &'static [u8],
    pub(crate) word: &'static [u8],
}

impl Printed for Mark {
    ghost text = { λ mark. word_text mark.coloured mark.colour.now mark.word.now };

    #[tactic(auto, unfolding(crate::specs::Colour::painted))]
    fn push_to(&self, out: &mut Vec<u8>) -> Result<(), AllocError> {
        if self.coloured {
            put!(out; b": \x1b[", Words(self.colour), b"m", Words(self.word), b"\x1b[0m: ")
        } else {
            put!(out; b": ", Words(self.word), b": ")
        }
    }
}

/// The word for whether a key is revoked.
pub fn verdict_mark(coloured: bool, revoked: bool) -> Mark
    ensures { word_text result.coloured result.colour.now result.word.now
        ≡ verdict_word coloured revoked }
{
    let (colour, word) = if revoked {
        (b"31".as_slice(), b"revoked".as_slice())
    } else {
        (b"32".as_slice(), b"ok".as_slice())
    };
    Mark {
        coloured,
        colour,
        word,
    }
}

/// The word for a line or file that is not read.
pub fn unread_mark(coloured: bool) -> Mark
    ensures { word_text result.coloured result.colour.now result.word.now
        ≡ unread_word coloured }
{
    Mark {
        coloured,
        colour: b"33",
        word: b"unread",
    }
}
