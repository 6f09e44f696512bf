//! Reading the public fields of a key. A cursor that met a fault is not used again.

ghost use Rattle.std.specs.Prelude.{◌+◌, ◌-◌, ◌≤◌, ◌∷◌, [], IfOk, length};
ghost use Rattle.ssh_wire.specs.Reading.{Gives};
ghost use Rattle.ssh_wire.specs.Rows.{row_at};
ghost use Rattle.ssh_key.specs.declared.fault.KeyFault.TheVariants.{Wire};
ghost use Rattle.ssh_key.specs.Kind.{application_field, curve_field, point_field, positive_field};
ghost use Rattle.ssh_key.specs.Kind.{sized_field};
ghost use Rattle.ssh_key.specs.KeyReading.{bits_at};
ghost use Rattle.ssh_key.specs.Fields.{bits_of_size, IsWithin, sized_at};

use crate::fault::KeyFault;
use crate::kind::Kind;
use ssh_wire::Cursor;

// The length of an Ed25519 key in bytes (RFC 8709 section 4).
const ED25519_SIZE: usize = 32;

/// How large a key is.
#[derive(Drop)]
pub enum Size<'a> {
    /// The size of every key of its kind, in bits.
    Bits(u32),
    /// The size of the number with this magnitude.
    Magnitude(&'a [u8]),
}

/// Reads the public fields of a key of this kind.
#[tactic(auto, unfolding(crate::specs::KeyReading::bits_at))]
pub fn read_size<'a>(kind: Kind, cursor: &mut Cursor<'a>) -> Result<Size<'a>, KeyFault>
    ensures read { Gives bits_of_size result cursor.new (bits_at kind cursor.old) }
    ensures within { IfOk result (λ size. IsWithin size (length cursor.old - length cursor.new)) }
{
    match kind {
        Kind::Rsa => read_modulus(cursor),
        Kind::Dsa => read_prime(cursor),
        Kind::Ecdsa256 => read_ecdsa(cursor, "nistp256", 65, 256),
        Kind::Ecdsa384 => read_ecdsa(cursor, "nistp384", 97, 384),
        Kind::Ecdsa521 => read_ecdsa(cursor, "nistp521", 133, 521),
        Kind::Ed25519 => read_ed25519(cursor),
        Kind::EcdsaSk => read_ecdsa_device(cursor),
        Kind::Ed25519Sk => read_ed25519_device(cursor),
    }
}

// Reads the public fields of an RSA key: the exponent, and the modulus, which is returned.
#[tactic(auto, unfolding(crate::specs::KeyReading::bits_at, ssh_wire::specs::Rows::table_at))]
fn read_modulus<'a>(cursor: &mut Cursor<'a>) -> Result<Size<'a>, KeyFault>
    ensures read { Gives bits_of_size result cursor.new (bits_at Kind.Rsa cursor.old) }
    ensures within { IfOk result (λ size. IsWithin size (length cursor.old - length cursor.new)) }
{
    let _exponent = read_positive(cursor)?;
    let modulus = read_positive(cursor)?;
    Ok(Size::Magnitude(modulus))
}

// Reads the public fields of a DSA key: the prime, which is returned, and three more numbers.
#[tactic(auto, unfolding(crate::specs::KeyReading::bits_at, ssh_wire::specs::Rows::table_at))]
fn read_prime<'a>(cursor: &mut Cursor<'a>) -> Result<Size<'a>, KeyFault>
    ensures read { Gives bits_of_size result cursor.new (bits_at Kind.Dsa cursor.old) }
    ensures within { IfOk result (λ size. IsWithin size (length cursor.old - length cursor.new)) }
{
    let prime = read_positive(cursor)?;
    let _subprime = read_positive(cursor)?;
    let _generator = read_positive(cursor)?;
    let _public = read_positive(cursor)?;
    Ok(Size::Magnitude(prime))
}

// Reads the public fields of a key on this curve, whose points have this many bytes.
#[tactic(auto, unfolding(ssh_wire::specs::Rows::table_at))]
fn read_ecdsa<'a>(
    cursor: &mut Cursor<'a>,
    curve: &str,
    point: usize,
    bits: u32,
) -> Result<Size<'a>, KeyFault>
    ensures read { Gives bits_of_size result cursor.new
        (sized_at (curve_field curve.now ∷ point_field point ∷ []) bits cursor.old) }
    ensures within { IfOk result (λ size. IsWithin size (length cursor.old - length cursor.new)) }
{
    let _curve = read_curve(cursor, curve)?;
    let _point = read_point(cursor, point)?;
    Ok(Size::Bits(bits))
}

// Reads the public fields of an Ed25519 key.
#[tactic(auto, unfolding(crate::specs::KeyReading::bits_at, ssh_wire::specs::Rows::table_at))]
fn read_ed25519<'a>(cursor: &mut Cursor<'a>) -> Result<Size<'a>, KeyFault>
    ensures read { Gives bits_of_size result cursor.new (bits_at Kind.Ed25519 cursor.old) }
    ensures within { IfOk result (λ size. IsWithin size (length cursor.old - length cursor.new)) }
{
    let _public = read_sized(cursor, ED25519_SIZE)?;
    Ok(Size::Bits(256))
}

// Reads the public fields of an ECDSA security key.
#[tactic(auto, unfolding(crate::specs::KeyReading::bits_at, ssh_wire::specs::Rows::table_at))]
fn read_ecdsa_device<'a>(cursor: &mut Cursor<'a>) -> Result<Size<'a>, KeyFault>
    ensures read { Gives bits_of_size result cursor.new (bits_at Kind.EcdsaSk cursor.old) }
    ensures within { IfOk result (λ size. IsWithin size (length cursor.old - length cursor.new)) }
{
    let _curve = read_curve(cursor, "nistp256")?;
    let _point = read_point(cursor, 65)?;
    let _application = read_application(cursor)?;
    Ok(Size::Bits(256))
}

// Reads the public fields of an Ed25519 security key.
#[tactic(auto, unfolding(crate::specs::KeyReading::bits_at, ssh_wire::specs::Rows::table_at))]
fn read_ed25519_device<'a>(cursor: &mut Cursor<'a>) -> Result<Size<'a>, KeyFault>
    ensures read { Gives bits_of_size result cursor.new (bits_at Kind.Ed25519Sk cursor.old) }
    ensures within { IfOk result (λ size. IsWithin size (length cursor.old - length cursor.new)) }
{
    let _public = read_sized(cursor, ED25519_SIZE)?;
    let _application = read_application(cursor)?;
    Ok(Size::Bits(256))
}

// A number above zero: its magnitude.
fn read_positive<'a>(cursor: &mut Cursor<'a>) -> Result<&'a [u8], KeyFault>
    ensures read { Gives (λ value. value.now) result cursor.new
        (row_at Wire positive_field [] cursor.old) }
    ensures within { IfOk result (λ value.
        length value.now + length cursor.new ≤ length cursor.old) }
{
    let magnitude = cursor.mpint()?;
    if magnitude.is_empty() {
        return Err(KeyFault::Number);
    }
    Ok(magnitude)
}

// The name of a curve.
fn read_curve<'a>(cursor: &mut Cursor<'a>, name: &str) -> Result<&'a [u8], KeyFault>
    ensures { Gives (λ value. value.now) result cursor.new
        (row_at Wire (curve_field name.now) [] cursor.old) }
{
    let string = cursor.string()?;
    if string != name.as_bytes() {
        return Err(KeyFault::Curve);
    }
    Ok(string)
}

// A point of a curve, uncompressed, in this many bytes.
fn read_point<'a>(cursor: &mut Cursor<'a>, size: usize) -> Result<&'a [u8], KeyFault>
    ensures { Gives (λ value. value.now) result cursor.new
        (row_at Wire (point_field size) [] cursor.old) }
{
    let string = cursor.string()?;
    if string.len() != size {
        return Err(KeyFault::Point);
    }
    match string {
        [4, ..] => Ok(string),
        _ => Err(KeyFault::Point),
    }
}

// A string of this many bytes.
fn read_sized<'a>(cursor: &mut Cursor<'a>, size: usize) -> Result<&'a [u8], KeyFault>
    ensures { Gives (λ value. value.now) result cursor.new
        (row_at Wire (sized_field size) [] cursor.old) }
{
    let string = cursor.string()?;
    if string.len() != size {
        return Err(KeyFault::Length);
    }
    Ok(string)
}

// The application of a security key (PROTOCOL.u2f): a string without a zero byte. OpenSSH drops a
// zero byte at the end, so a key with one would have a second spelling.
fn read_application<'a>(cursor: &mut Cursor<'a>) -> Result<&'a [u8], KeyFault>
    ensures { Gives (λ value. value.now) result cursor.new
        (row_at Wire application_field [] cursor.old) }
{
    let string = cursor.string()?;
    if string.contains(&0) {
        return Err(KeyFault::Length);
    }
    Ok(string)
}
