//! The coordinates of points that OpenSSH accepts.

ghost use Rattle.std.specs.Prelude.{◌≡◌, ◌-◌, ◌≤◌, length};
ghost use Rattle.curve_points.specs.Curves.{is_usual, least, order};
ghost use Rattle.curve_points.specs.Numbers.{big_endian, value};

use super::curve::Curve;
use super::number::{Number, is_below, number_of};

const LEAST_256: Number = [0, 0, 0, 0, 1, 0, 0, 0, 0, 0, 0, 0, 0, 0, 0, 0, 0];

const LEAST_384: Number = [0, 0, 0, 0, 0, 0, 1, 0, 0, 0, 0, 0, 0, 0, 0, 0, 0];

const LEAST_521: Number = [0, 0, 0, 0, 0, 0, 0, 0, 16, 0, 0, 0, 0, 0, 0, 0, 0];

const LIMIT_256: Number = [
    0xfc63_2550,
    0xf3b9_cac2,
    0xa717_9e84,
    0xbce6_faad,
    0xffff_ffff,
    0xffff_ffff,
    0,
    0xffff_ffff,
    0,
    0,
    0,
    0,
    0,
    0,
    0,
    0,
    0,
];

const LIMIT_384: Number = [
    0xccc5_2972,
    0xecec_196a,
    0x48b0_a77a,
    0x581a_0db2,
    0xf437_2ddf,
    0xc763_4d81,
    0xffff_ffff,
    0xffff_ffff,
    0xffff_ffff,
    0xffff_ffff,
    0xffff_ffff,
    0xffff_ffff,
    0,
    0,
    0,
    0,
    0,
];

const LIMIT_521: Number = [
    0x9138_6408,
    0xbb6f_b71e,
    0x899c_47ae,
    0x3bb5_c9b8,
    0xf709_a5d0,
    0x7fcc_0148,
    0xbf2f_966b,
    0x5186_8783,
    0xffff_fffa,
    0xffff_ffff,
    0xffff_ffff,
    0xffff_ffff,
    0xffff_ffff,
    0xffff_ffff,
    0xffff_ffff,
    0xffff_ffff,
    0x0000_01ff,
];

/// Whether the bytes spell a coordinate that OpenSSH accepts, the highest byte first: it has more
/// than half as many bits as the curve's order, and is below the order less one.
pub fn is_usual(curve: Curve, coordinate: &[u8]) -> bool
    requires { length coordinate.now ≤ 66 }
    // See `laws::points_are_decided`.
    ensures { result ≡ is_usual curve (big_endian coordinate.now) }
{
    let number = number_of(coordinate);
    !is_below(&number, &least(curve)) && is_below(&number, &limit(curve))
}

// The least number that has more than half as many bits as the order.
#[tactic(auto, unfolding(crate::specs::Curves::least, crate::specs::Numbers::value))]
fn least(curve: Curve) -> Number
    ensures { value result ≡ least curve }
{
    match curve {
        Curve::P256 => LEAST_256,
        Curve::P384 => LEAST_384,
        Curve::P521 => LEAST_521,
    }
}

// The order less one.
#[tactic(auto, unfolding(crate::specs::Curves::order, crate::specs::Numbers::value))]
fn limit(curve: Curve) -> Number
    ensures { value result ≡ order curve - 1 }
{
    match curve {
        Curve::P256 => LIMIT_256,
        Curve::P384 => LIMIT_384,
        Curve::P521 => LIMIT_521,
    }
}
