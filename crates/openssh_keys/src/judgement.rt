//! The judgement of OpenSSH on a key.

ghost use Rattle.std.specs.Prelude.{◌≡◌};
ghost use Rattle.openssh_keys.specs.Judgement.{judgement_of, number_count, point_judgement};

use crate::number::has_long_number;
use crate::point::is_valid;
use curve_points::Curve;
use ssh_key::{Kind, PublicKey};

// The fewest bits of an RSA key.
const LEAST: u32 = 1_024;

/// The decision of OpenSSH about a key that it can read.
#[derive(Clone, Copy, PartialEq, Eq)]
pub enum Judgement {
    /// It accepts the key.
    Accepted,
    /// It refuses an RSA key of fewer than 1,024 bits as too short.
    Short,
    /// It refuses a key of which a number has more than 16,384 bits.
    Long,
    /// It refuses a key of ECDSA whose point is not on the curve, or has a coordinate of at most
    /// half as many bits as the curve's order, or of the order less one or more.
    Point,
}

/// Decides about a key as OpenSSH does: it looks at the length of each number of an RSA or DSA key,
/// and at the point of a key of ECDSA. Does not allocate.
#[tactic(auto, unfolding(crate::specs::Judgement::judgement_of))]
pub fn judge(key: &PublicKey) -> Judgement
    ensures { result ≡ judgement_of key.now }
{
    let fields = key.public_fields();
    if has_long_number(number_count(key.kind()), fields) {
        return Judgement::Long;
    }
    match key.kind() {
        Kind::Rsa if key.bits() < LEAST => Judgement::Short,
        Kind::Rsa | Kind::Dsa | Kind::Ed25519 | Kind::Ed25519Sk => Judgement::Accepted,
        Kind::Ecdsa256 | Kind::EcdsaSk => of_point(Curve::P256, fields),
        Kind::Ecdsa384 => of_point(Curve::P384, fields),
        Kind::Ecdsa521 => of_point(Curve::P521, fields),
    }
}

// How many numbers are the public fields of a key of this kind.
fn number_count(kind: Kind) -> usize
    ensures { result ≡ number_count kind }
{
    match kind {
        Kind::Rsa => 2,
        Kind::Dsa => 4,
        Kind::Ecdsa256 | Kind::Ecdsa384 | Kind::Ecdsa521 => 0,
        Kind::Ed25519 | Kind::EcdsaSk | Kind::Ed25519Sk => 0,
    }
}

// The judgement on the public fields of a key on this curve.
fn of_point(curve: Curve, fields: &[u8]) -> Judgement
    ensures { result ≡ point_judgement curve fields.now }
{
    if is_valid(curve, fields) {
        Judgement::Accepted
    } else {
        Judgement::Point
    }
}
