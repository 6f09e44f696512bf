//! Why the message of a login is not read.

/// Why the message of a login is not read. The user may have logged in by any key.
#[derive(Clone, Copy, PartialEq, Eq)]
pub enum LoginFault {
    /// The message is as long as one that sshd or syslog has cut, so its end may be missing.
    Cut,
    /// The message is not of sshd's form, or its fingerprints are not SHA-256.
    Malformed,
    /// The message reports a login by the key of a host.
    Hostbased,
}
