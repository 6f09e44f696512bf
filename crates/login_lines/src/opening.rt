//! How the message of a login begins.

ghost use Rattle.std.specs.Prelude.{◌≡◌, option_map};
ghost use Rattle.login_lines.specs.Openings.{opened, opening_at};

use crate::words::after;

/// The result of a login by the key of a user.
#[derive(Clone, Copy)]
pub enum Step {
    /// The user is logged in.
    Accepted,
    /// sshd has accepted the key, and another method of authentication must follow.
    Partial,
}

/// The kind of login that a message reports, by its first words.
#[derive(Clone, Copy)]
pub enum Opening {
    /// By the key of a user.
    Publickey(Step),
    /// By the key of a host.
    Hostbased,
}

/// The kind of login that a message reports, if it reports one, and the text after its first words.
#[tactic(auto, unfolding(crate::specs::Openings::opening_at))]
pub fn split_opening(message: &[u8]) -> Option<(Opening, &[u8])>
    ensures { option_map opened result ≡ opening_at message.now }
{
    if let Some(text) = after(b"Accepted publickey for ", message) {
        return Some((Opening::Publickey(Step::Accepted), text));
    }
    if let Some(text) = after(b"Partial publickey for ", message) {
        return Some((Opening::Publickey(Step::Partial), text));
    }
    let text = after(b"Accepted hostbased for ", message)?;
    Some((Opening::Hostbased, text))
}
