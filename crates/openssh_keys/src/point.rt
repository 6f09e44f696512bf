//! The point of a key of ECDSA.

ghost use Rattle.std.specs.Prelude.{◌≡◌, length};
ghost use Rattle.curve_points.specs.Curves.{is_on, width};
ghost use Rattle.curve_points.specs.Numbers.{big_endian};
ghost use Rattle.openssh_keys.specs.Judgement.{are_valid, has_valid_point, is_valid_point};
ghost use Rattle.openssh_keys.specs.Judgement.{point_of};

use curve_points::laws::points_are_decided;
use curve_points::{Curve, is_on_curve, is_usual};
use ssh_wire::Cursor;

/// Whether OpenSSH accepts the point in the public fields of a key on this curve.
pub(crate) fn is_valid(curve: Curve, fields: &[u8]) -> bool
    ensures { result ≡ has_valid_point curve fields.now }
{
    is_valid_point(curve, point_of(fields))
}

// The point: the second string of the public fields.
fn point_of(fields: &[u8]) -> &[u8]
    ensures { result.now ≡ point_of fields.now }
{
    let mut cursor = Cursor::new(fields);
    match cursor.string() {
        Ok(_curve) => cursor.string().unwrap_or(&[]),
        Err(_) => &[],
    }
}

// Whether OpenSSH accepts an uncompressed point: a byte, and then its coordinates.
fn is_valid_point(curve: Curve, point: &[u8]) -> bool
    ensures { result ≡ is_valid_point curve point.now }
{
    let width = curve.width();
    if point.len() != 1 + 2 * width {
        return false;
    }
    let (x, y) = point[1..].split_at(width);
    are_valid(curve, x, y)
}

// Whether OpenSSH accepts the point with these coordinates, which have the curve's width.
fn are_valid(curve: Curve, x: &[u8], y: &[u8]) -> bool
    requires x_width { length x.now ≡ width curve }
    requires y_width { length y.now ≡ width curve }
    ensures { result ≡ are_valid curve (big_endian x.now) (big_endian y.now) }
{
    is_on(curve, x, y) && is_usual(curve, x) && is_usual(curve, y)
}

// Whether coordinates of the curve's width are those of a point on it.
fn is_on(curve: Curve, x: &[u8], y: &[u8]) -> bool
    requires x_width { length x.now ≡ width curve }
    requires y_width { length y.now ≡ width curve }
    ensures { result ≡ is_on curve (big_endian x.now) (big_endian y.now) }
{
    points_are_decided();
    is_on_curve(curve, x, y)
}
