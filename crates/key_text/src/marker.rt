//! The marker at the front of a known hosts line (sshd(8), SSH_KNOWN_HOSTS FILE FORMAT).

ghost use Rattle.std.specs.Prelude.{◌≡◌};
ghost use Rattle.key_text.specs.Marker.{marker_in, marker_of, unmarked};

use crate::line::{split_word, trimmed};

/// The statement of a marker about the key of its line.
#[derive(Clone, Copy, Debug, PartialEq, Eq)]
pub enum Marker {
    /// `@cert-authority`: it is the key of a certificate authority.
    Authority,
    /// `@revoked`: it must not be used.
    Revoked,
}

/// The marker of a line, and the line without it. A line without a marker is returned unchanged.
#[tactic(auto, unfolding(crate::specs::Marker::unmarked, crate::specs::Marker::marker_of))]
pub fn split_marker(line: &[u8]) -> (Option<Marker>, &[u8])
    ensures marker { result.0 ≡ marker_of line.now }
    ensures rest { result.1.now ≡ unmarked line.now }
{
    let (word, rest) = split_word(trimmed(line));
    match marker_in(word) {
        Some(marker) => (Some(marker), rest),
        None => (None, line),
    }
}

// The marker that this word is.
fn marker_in(word: &[u8]) -> Option<Marker>
    ensures { result ≡ marker_in word.now }
{
    if word == b"@cert-authority".as_slice() {
        return Some(Marker::Authority);
    }
    if word == b"@revoked".as_slice() {
        return Some(Marker::Revoked);
    }
    None
}
