//! Reading a certificate by the tables of its fields. A cursor that met a fault is not used again.

ghost use Rattle.std.specs.Prelude.{◌≡◌, ◌∷◌, []};
ghost use Rattle.ssh_wire.specs.Reading.{Gives, Lends, in_fault};
ghost use Rattle.ssh_key.specs.KeyReading.{public_at};
ghost use Rattle.ssh_cert.specs.CertReading.{certificate_at, closing_at};
ghost use Rattle.ssh_cert.specs.Field.{algorithm_in, authority_in, kind_in, role_in};
ghost use Rattle.ssh_cert.specs.declared.fault.CertFault.TheVariants.{Key};

use crate::cert::Cert;
use crate::fault::CertFault;
use crate::options::options_in;
use crate::role::Role;
use crate::strings::strings_in;
use ssh_key::{Kind, PublicKey, read_fields, read_key};
use ssh_wire::Cursor;

/// The certificate that a blob spells (PROTOCOL.certkeys): its fields in order, and nothing more.
/// The plain key and the signature key are plain keys as `read_key` reads them. Does not allocate:
/// every part is borrowed from the blob. The signature is not checked.
///
/// If there are several faults, the first is reported, in the order of the fields, and `Trailing`
/// last.
#[tactic(auto, unfolding(crate::specs::CertReading::certificate_at, ssh_wire::specs::Rows::table_at))]
pub fn read_cert<'a>(blob: &'a [u8]) -> Result<Cert<'a>, CertFault>
    // The certificate that is spelled (`laws::read_where_spelled`), otherwise the first fault
    // (`laws::refused_by_first_fault`).
    ensures exact { result ≡ certificate_at blob.now }
{
    let mut cursor = Cursor::new(blob);
    let kind = kind_in(cursor.string()?)?;
    let nonce = cursor.string()?;
    let key = read_public(kind, &mut cursor)?;
    let cert = read_closing(nonce, key, &mut cursor)?;
    if !cursor.at_end() {
        return Err(CertFault::Trailing);
    }
    Ok(cert)
}

// The public fields of the plain key.
fn read_public<'a>(kind: Kind, cursor: &mut Cursor<'a>) -> Result<PublicKey<'a>, CertFault>
    ensures { Gives (λ key. key) result cursor.new (in_fault Key (public_at kind cursor.old)) }
{
    match read_fields(kind, cursor) {
        Ok(key) => Ok(key),
        Err(fault) => Err(CertFault::Key(fault)),
    }
}

// The certificate with this nonce and this key, whose other fields are read.
#[tactic(auto, unfolding(crate::specs::CertReading::closing_at, ssh_wire::specs::Rows::table_at, crate::specs::Field::principals_in, crate::specs::Field::options_in))]
fn read_closing<'a>(
    nonce: &'a [u8],
    key: PublicKey<'a>,
    cursor: &mut Cursor<'a>,
) -> Result<Cert<'a>, CertFault>
    ensures { Gives (λ cert. cert) result cursor.new
        (closing_at nonce.entry.now key.entry cursor.old) }
{
    let serial = cursor.u64()?;
    let role = role_in(cursor.u32()?)?;
    let key_id = cursor.string()?;
    let principals = strings_in(cursor.string()?).ok_or(CertFault::Principals)?;
    let after = cursor.u64()?;
    let before = cursor.u64()?;
    let critical = options_in(cursor.string()?).ok_or(CertFault::Options)?;
    let extensions = options_in(cursor.string()?).ok_or(CertFault::Options)?;
    let _reserved = cursor.string()?;
    let authority = cursor.string()?;
    let authority_key = authority_in(authority)?;
    let algorithm = algorithm_in(cursor.string()?)?;
    Ok(Cert {
        nonce,
        key,
        serial,
        role,
        key_id,
        principals,
        after,
        before,
        critical,
        extensions,
        authority,
        authority_key,
        algorithm,
    })
}

// The kind whose certificates have this type name.
#[tactic(auto, unfolding(crate::specs::Field::kind_in))]
fn kind_in(name: &[u8]) -> Result<Kind, CertFault>
    ensures { result ≡ kind_in name.now }
{
    Kind::of_cert_name(name).ok_or(CertFault::UnknownType)
}

// The role: a user's or a host's certificate.
#[tactic(auto, unfolding(crate::specs::Field::role_in))]
fn role_in(number: u32) -> Result<Role, CertFault>
    ensures { result ≡ role_in (number ∷ []) }
{
    match number {
        1 => Ok(Role::User),
        2 => Ok(Role::Host),
        _ => Err(CertFault::CertType),
    }
}

// The signature key.
#[tactic(auto, unfolding(crate::specs::Field::authority_in))]
fn authority_in<'a>(blob: &'a [u8]) -> Result<PublicKey<'a>, CertFault>
    ensures { result ≡ authority_in blob.entry.now }
{
    match read_key(blob) {
        Ok(key) => Ok(key),
        Err(fault) => Err(CertFault::Authority(fault)),
    }
}

// The name of the signature's algorithm.
#[tactic(auto, unfolding(crate::specs::Field::algorithm_in))]
fn algorithm_in<'a>(signature: &'a [u8]) -> Result<&'a [u8], CertFault>
    ensures { Lends result (algorithm_in signature.entry.now) }
{
    match Cursor::new(signature).string() {
        Ok(algorithm) => Ok(algorithm),
        Err(_) => Err(CertFault::Signature),
    }
}
