//! Which files of a directory are read (krl(1), FILES THAT ARE READ).

ghost use Rattle.std.specs.Prelude.{◌≡◌};
ghost use Rattle.audit_run.specs.Selection.{is_audited, is_key_name, is_private_name, is_sought};
ghost use Rattle.audit_run.specs.Selection.{selection_of};

use key_text::is_container;

/// Whether a file of a directory is read, by its name.
#[derive(Clone, Copy, PartialEq, Eq)]
pub enum Selection {
    /// It is read.
    Always,
    /// It is read if its first line is that of a private key file.
    IfPrivate,
    /// It is not read.
    Never,
}

/// Returns whether a file of this name is read, where each file of its directory is or not.
pub fn selection_of(every: bool, name: &[u8]) -> Selection
    ensures { result ≡ selection_of every name.now }
{
    if every || is_key_name(name) {
        Selection::Always
    } else if is_private_name(name) {
        Selection::IfPrivate
    } else {
        Selection::Never
    }
}

/// Returns true if a file of a directory is audited, by its name and its bytes.
pub fn is_audited(every: bool, name: &[u8], text: &[u8]) -> bool
    ensures { result ≡ is_audited every name.now text.now }
{
    match selection_of(every, name) {
        Selection::Always => true,
        Selection::IfPrivate => is_container(text),
        Selection::Never => false,
    }
}

/// Returns true if it is the name of a file that is read, or of a directory whose files sshd or ssh
/// reads.
pub fn is_sought(name: &[u8]) -> bool
    ensures { result ≡ is_sought name.now }
{
    name == b".ssh".as_slice()
        || name == b"authorized_keys.d".as_slice()
        || is_key_name(name)
        || is_private_name(name)
}

// Returns true if it is the name of a file of public keys.
fn is_key_name(name: &[u8]) -> bool
    ensures { result ≡ is_key_name name.now }
{
    name == b"authorized_keys".as_slice()
        || name == b"authorized_keys2".as_slice()
        || name == b"known_hosts".as_slice()
        || name == b"known_hosts2".as_slice()
        || name == b"ssh_known_hosts".as_slice()
        || name == b"ssh_known_hosts2".as_slice()
        || name.ends_with(b".pub")
}

// Returns true if it may be the name of a private key file.
fn is_private_name(name: &[u8]) -> bool
    ensures { result ≡ is_private_name name.now }
{
    name.starts_with(b"id_") || name.starts_with(b"ssh_host_")
}
