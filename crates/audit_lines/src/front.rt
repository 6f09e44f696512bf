//! The field before the key of a line.

ghost use Rattle.std.specs.Prelude.{◌≡◌, ◌-◌, length, take};
ghost use Rattle.audit_lines.specs.Front.{before_blanks, before_slashes, front_before, fronts_of};
ghost use Rattle.audit_lines.specs.Front.{is_authorized_keys, is_known_hosts, is_no_slash};
ghost use Rattle.audit_lines.specs.Front.{is_read_by_lines, is_slash, last_part, reads_every};
ghost use Rattle.audit_lines.specs.Front.{to_slash};

use key_text::is_blank;

/// The field before the key of a line.
#[derive(Clone, Copy, PartialEq, Eq, PartialOrd, Ord)]
pub enum Fronts {
    /// Host names, which end at the first blank.
    Hosts,
    /// Options, which end at the first blank outside double quotes.
    Options,
    /// One of these.
    Either,
}

impl Fronts {
    /// The field in a file of this name: of known hosts, of authorized keys, or another.
    #[tactic(auto, unfolding(crate::specs::Front::fronts_of))]
    pub fn of(name: &[u8]) -> Fronts
        ensures { result ≡ fronts_of name.now }
    {
        match (is_known_hosts(name), is_authorized_keys(name)) {
            (true, false) => Fronts::Hosts,
            (false, true) => Fronts::Options,
            (true, true) | (false, false) => Fronts::Either,
        }
    }
}

/// Returns true if ssh or sshd reads each line of a file with this name, also if the file begins
/// with a private key.
#[tactic(auto, unfolding(crate::specs::Front::is_read_by_lines))]
pub fn is_read_by_lines(name: &[u8]) -> bool
    ensures { result ≡ is_read_by_lines name.now }
{
    is_known_hosts(name) || is_authorized_keys(name)
}

// Returns true if the lines of a file with this name are of known hosts.
#[tactic(auto, unfolding(crate::specs::Front::is_known_hosts))]
fn is_known_hosts(name: &[u8]) -> bool
    ensures { result ≡ is_known_hosts name.now }
{
    name.ends_with(b"known_hosts")
        || name.ends_with(b"known_hosts2")
        || name.ends_with(b"known_hosts.old")
}

// Returns true if the lines of a file with this name are of authorized keys.
#[tactic(auto, unfolding(crate::specs::Front::is_authorized_keys))]
fn is_authorized_keys(name: &[u8]) -> bool
    ensures { result ≡ is_authorized_keys name.now }
{
    let (folder, last) = split_path(name);
    last == b"authorized_keys".as_slice()
        || last == b"authorized_keys2".as_slice()
        || reads_every(folder)
}

/// Returns true if each file of a directory with this path is read, whatever its name: the
/// directory is named `authorized_keys.d`.
#[tactic(auto, unfolding(crate::specs::Front::reads_every))]
pub fn reads_every(path: &[u8]) -> bool
    ensures { result ≡ reads_every path.now }
{
    let (_, name) = split_path(before_slashes(path));
    name == b"authorized_keys.d".as_slice()
}

// A path up to its last slash, and the name behind it.
#[tactic(auto, unfolding(crate::specs::Front::to_slash, crate::specs::Front::last_part))]
fn split_path(path: &[u8]) -> (&[u8], &[u8])
    ensures before { result.0.now ≡ to_slash path.now }
    ensures last { result.1.now ≡ last_part path.now }
{
    let mut end = path.len();
    while end > 0 && is_no_slash(path[end - 1]) {
        end -= 1;
    }
    (&path[..end], &path[end..])
}

// Returns true if a byte is a slash.
fn is_slash(byte: u8) -> bool
    ensures { result ≡ is_slash byte }
{
    byte == b'/'
}

// Returns true if a byte is no slash.
fn is_no_slash(byte: u8) -> bool
    ensures { result ≡ is_no_slash byte }
{
    byte != b'/'
}

// A path without the slashes at its end.
#[tactic(auto, unfolding(crate::specs::Front::before_slashes))]
fn before_slashes(path: &[u8]) -> &[u8]
    ensures { result.now ≡ before_slashes path.now }
{
    let mut end = path.len();
    while end > 0 && is_slash(path[end - 1]) {
        end -= 1;
    }
    &path[..end]
}

/// The field of a line before its part from the type name on.
#[tactic(auto, unfolding(crate::specs::Front::front_before))]
pub(crate) fn front_before<'a>(line: &'a [u8], part: &[u8]) -> &'a [u8]
    ensures { result.now ≡ front_before line.now part.now }
{
    before_blanks(&line[..line.len().saturating_sub(part.len())])
}

// The text before the blanks at its end.
#[tactic(auto, unfolding(crate::specs::Front::before_blanks))]
fn before_blanks(text: &[u8]) -> &[u8]
    ensures { result.now ≡ before_blanks text.now }
{
    let mut end = text.len();
    while end > 0 && is_blank(text[end - 1]) {
        end -= 1;
    }
    &text[..end]
}
