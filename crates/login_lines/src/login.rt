//! The login that a line reports.

ghost use Rattle.std.specs.Prelude.{◌≡◌, option_map};
ghost use Rattle.std.specs.Result.{result_map_both};
ghost use Rattle.login_lines.specs.Logins.{certificate_at, ends_here, is_end, known, login_at};
ghost use Rattle.login_lines.specs.Logins.{may_be_cut, number_and_rest, reported_of, said_at};
ghost use Rattle.login_lines.specs.Logins.{serial_at, signed_at, signed_of};

use crate::fault::LoginFault;
use crate::key_name::{KeyName, read_key};
use crate::message::split_message;
use crate::number::number_of;
use crate::opening::{Opening, Step, split_opening};
use crate::words::{Class, after, split_group, split_span};

/// The parts of a certificate that sshd logs beside its key.
#[derive(Clone, Copy)]
pub struct Certificate<'a> {
    /// The key ID, in the form that sshd writes: `unescape` returns its bytes.
    pub id: &'a [u8],
    /// The serial number.
    pub serial: u64,
    /// The key of the certificate authority.
    pub authority: KeyName<'a>,
}

/// A login. Its parts are borrowed from the line.
#[derive(Clone, Copy)]
pub struct Login<'a> {
    /// The text before the message: a time, a host and a program, or nothing.
    pub prefix: &'a [u8],
    /// Whether the user is logged in, or another step follows.
    pub step: Step,
    /// The user's name.
    pub user: &'a [u8],
    /// The address of the client.
    pub address: &'a [u8],
    /// The port of the client, in digits.
    pub port: &'a [u8],
    /// The key.
    pub key: KeyName<'a>,
    /// The certificate, if the login is by one.
    pub certificate: Option<Certificate<'a>>,
}

/// The login that a line of sshd's log reports, or `None` if the line is about something else.
///
/// The line is without its line feed; a carriage return may end it.
#[tactic(auto, unfolding(crate::specs::Logins::login_at))]
pub fn login_of(line: &[u8]) -> Result<Option<Login<'_>>, LoginFault>
    // The login that the line spells (`laws::login_read_where_reported`), or otherwise its fault
    // (`laws::login_refused_by_its_fault`).
    ensures exact { result_map_both (option_map reported_of) (λ fault. fault) result
        ≡ login_at line.now }
{
    let (prefix, message) = split_message(line);
    let (step, text) = match split_opening(message) {
        Some((Opening::Publickey(step), text)) => (step, text),
        Some((Opening::Hostbased, _)) => return Err(LoginFault::Hostbased),
        None => return Ok(None),
    };
    if may_be_cut(message) {
        return Err(LoginFault::Cut);
    }
    match read_login(prefix, step, text) {
        Some(login) => Ok(Some(login)),
        None => Err(LoginFault::Malformed),
    }
}

// Returns true if a message is as long as one that was cut: syslog gets at most 500 bytes of it,
// and a file or a terminal at most 1,021, before the end of the line.
fn may_be_cut(message: &[u8]) -> bool
    ensures { result ≡ may_be_cut message.now }
{
    message.len() == 500 || message.len() == 501 || message.len() > 1020
}

// The login, from its user on.
#[tactic(auto, unfolding(crate::specs::Logins::said_at))]
fn read_login<'a>(prefix: &'a [u8], step: Step, text: &'a [u8]) -> Option<Login<'a>>
    ensures { option_map reported_of result ≡ said_at prefix.now step text.now }
{
    let (user, text) = split_span(Class::Word, b" from ", text)?;
    let (address, text) = split_span(Class::Word, b" port ", text)?;
    let (port, text) = split_span(Class::Digit, b" ssh2: ", text)?;
    let (key, text) = read_key(text)?;
    let certificate = read_certificate(text)?;
    Some(Login {
        prefix,
        step,
        user,
        address,
        port,
        key,
        certificate,
    })
}

// The certificate, if there is one, up to the end of the message.
#[tactic(auto, unfolding(crate::specs::Logins::certificate_at))]
fn read_certificate(text: &[u8]) -> Option<Option<Certificate<'_>>>
    ensures { option_map known result ≡ certificate_at text.now }
{
    match after(b" ID ", text) {
        Some(signed) => {
            let certificate = read_signed(signed)?;
            Some(Some(certificate))
        }
        None if ends_here(text) => Some(None),
        None => None,
    }
}

// The certificate after the word before its key ID, up to the end of the message.
#[tactic(auto, unfolding(crate::specs::Logins::signed_at))]
fn read_signed(text: &[u8]) -> Option<Certificate<'_>>
    ensures { option_map signed_of result ≡ signed_at text.now }
{
    let (id, group) = split_group(text)?;
    let (serial, text) = read_serial(group)?;
    let (authority, text) = read_key(text)?;
    if !ends_here(text) {
        return None;
    }
    Some(Certificate {
        id,
        serial,
        authority,
    })
}

// The serial number, and the text from the kind of the authority's key on.
#[tactic(auto, unfolding(crate::specs::Logins::serial_at))]
fn read_serial(text: &[u8]) -> Option<(u64, &[u8])>
    ensures { option_map number_and_rest result ≡ serial_at text.now }
{
    let (digits, text) = split_span(Class::Digit, b") CA ", text)?;
    let serial = number_of(digits)?;
    Some((serial, text))
}

// Returns true if nothing follows but a count of signatures and a carriage return.
#[tactic(auto, unfolding(crate::specs::Logins::ends_here))]
fn ends_here(text: &[u8]) -> bool
    ensures { result ≡ ends_here text.now }
{
    match after(b", signature count = ", text) {
        Some(count) => match split_span(Class::Digit, b"", count) {
            Some((_, end)) => is_end(end),
            None => false,
        },
        None => is_end(text),
    }
}

// Returns true if nothing follows but a carriage return.
fn is_end(text: &[u8]) -> bool
    ensures { result ≡ is_end text.now }
{
    matches!(text, [] | [b'\r'])
}
