//! The kinds of keys.

ghost use Rattle.std.specs.Prelude.{◌≡◌, IfSome};
ghost use Rattle.ssh_key.specs.Kind.{certificate_name, kind_certified, kind_named, short_name_of};
ghost use Rattle.ssh_key.specs.Kind.{type_name};

/// The kind of a plain key.
#[derive(Clone, Copy, PartialEq, Eq)]
pub enum Kind {
    /// RSA (RFC 4253 section 6.6).
    Rsa,
    /// DSA (RFC 4253 section 6.6).
    Dsa,
    /// ECDSA on the curve P-256 (RFC 5656).
    Ecdsa256,
    /// ECDSA on the curve P-384 (RFC 5656).
    Ecdsa384,
    /// ECDSA on the curve P-521 (RFC 5656).
    Ecdsa521,
    /// Ed25519 (RFC 8709).
    Ed25519,
    /// ECDSA on the curve P-256, of a security key (PROTOCOL.u2f).
    EcdsaSk,
    /// Ed25519, of a security key (PROTOCOL.u2f).
    Ed25519Sk,
}

const KINDS: [Kind; 8] = [
    Kind::Rsa,
    Kind::Dsa,
    Kind::Ecdsa256,
    Kind::Ecdsa384,
    Kind::Ecdsa521,
    Kind::Ed25519,
    Kind::EcdsaSk,
    Kind::Ed25519Sk,
];

impl Kind {
    /// The name of the key type, as it is in blobs and key lines (RFC 4253 section 6.6, RFC 5656
    /// section 3.1, RFC 8709 section 4, PROTOCOL.u2f).
    pub fn name(self) -> &'static str
        ensures { result.now ≡ type_name self }
    {
        match self {
            Kind::Rsa => "ssh-rsa",
            Kind::Dsa => "ssh-dss",
            Kind::Ecdsa256 => "ecdsa-sha2-nistp256",
            Kind::Ecdsa384 => "ecdsa-sha2-nistp384",
            Kind::Ecdsa521 => "ecdsa-sha2-nistp521",
            Kind::Ed25519 => "ssh-ed25519",
            Kind::EcdsaSk => "sk-ecdsa-sha2-nistp256@openssh.com",
            Kind::Ed25519Sk => "sk-ssh-ed25519@openssh.com",
        }
    }

    /// The kind with this type name. None for the type name of a certificate.
    pub fn of_name(name: &[u8]) -> Option<Kind>
        ensures found { IfSome result (λ kind. type_name kind ≡ name.now) }
        ensures only { (kind : Kind) → type_name kind ≡ name.now → result ≡ Some kind }
    {
        find(name)
    }

    /// The name of the type of this kind's certificates (OpenSSH's PROTOCOL.certkeys).
    pub fn cert_name(self) -> &'static str
        ensures { result.now ≡ certificate_name self }
    {
        match self {
            Kind::Rsa => "ssh-rsa-cert-v01@openssh.com",
            Kind::Dsa => "ssh-dss-cert-v01@openssh.com",
            Kind::Ecdsa256 => "ecdsa-sha2-nistp256-cert-v01@openssh.com",
            Kind::Ecdsa384 => "ecdsa-sha2-nistp384-cert-v01@openssh.com",
            Kind::Ecdsa521 => "ecdsa-sha2-nistp521-cert-v01@openssh.com",
            Kind::Ed25519 => "ssh-ed25519-cert-v01@openssh.com",
            Kind::EcdsaSk => "sk-ecdsa-sha2-nistp256-cert-v01@openssh.com",
            Kind::Ed25519Sk => "sk-ssh-ed25519-cert-v01@openssh.com",
        }
    }

    /// The kind whose certificates have this type name. None for the type name of a plain key.
    pub fn of_cert_name(name: &[u8]) -> Option<Kind>
        ensures found { IfSome result (λ kind. certificate_name kind ≡ name.now) }
        ensures only { (kind : Kind) → certificate_name kind ≡ name.now → result ≡ Some kind }
    {
        find_certified(name)
    }

    /// The name of the kind in the listings of ssh-keygen(1).
    pub fn short_name(self) -> &'static str
        ensures { result.now ≡ short_name_of self }
    {
        match self {
            Kind::Rsa => "RSA",
            Kind::Dsa => "DSA",
            Kind::Ecdsa256 => "ECDSA",
            Kind::Ecdsa384 => "ECDSA",
            Kind::Ecdsa521 => "ECDSA",
            Kind::Ed25519 => "ED25519",
            Kind::EcdsaSk => "ECDSA-SK",
            Kind::Ed25519Sk => "ED25519-SK",
        }
    }
}

// The kind of key with this type name.
#[tactic(auto, unfolding(crate::specs::Kind::kind_named))]
fn find(name: &[u8]) -> Option<Kind>
    ensures { result ≡ kind_named name.now }
{
    KINDS
        .iter()
        .copied()
        .find(|kind| kind.name().as_bytes() == name)
}

// The kind of key whose certificates have this type name.
#[tactic(auto, unfolding(crate::specs::Kind::kind_certified))]
fn find_certified(name: &[u8]) -> Option<Kind>
    ensures { result ≡ kind_certified name.now }
{
    KINDS
        .iter()
        .copied()
        .find(|kind| kind.cert_name().as_bytes() == name)
}
