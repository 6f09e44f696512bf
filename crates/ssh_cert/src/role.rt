//! The role of a certificate.

/// Whether a certificate is for a user or a host.
#[derive(Clone, Copy, PartialEq, Eq)]
pub enum Role {
    /// It is for a user.
    User,
    /// It is for a host.
    Host,
}
