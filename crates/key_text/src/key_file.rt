//! The lines of a key file (sshd(8), AUTHORIZED_KEYS FILE FORMAT).

ghost use Rattle.std.specs.Prelude.{◌≡◌, ◌<◌, IsTrue, length};
ghost use Rattle.key_text.specs.KeyFile.{has_key};

use crate::line::trimmed;

/// Returns true if a line of a key file has a key: it is neither empty nor a comment, which begins
/// with `#`. Blanks at both ends, and carriage returns at the end, are ignored. Does not allocate.
#[tactic(auto, unfolding(crate::specs::KeyFile::has_key))]
pub fn has_key(line: &[u8]) -> bool
    ensures value { result ≡ has_key line.now }
    ensures some { IsTrue result → 0 < length line.now }
{
    match trimmed(line) {
        [] | [b'#', ..] => false,
        _ => true,
    }
}
