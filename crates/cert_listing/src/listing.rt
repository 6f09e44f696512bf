//! The listing of a certificate (ssh-keygen(1), option -L).

ghost use Rattle.std.specs.Prelude.{◌≡◌, ◌++◌, IfOk, OnOk, map};
ghost use Rattle.ssh_cert.specs.Escape.{escaped};
ghost use Rattle.cert_listing.specs.Listing.{data_text, has_text, identity_text, item, line, lines};
ghost use Rattle.cert_listing.specs.Listing.{listing_of, lists_text, option_item, role_text};
ghost use Rattle.cert_listing.specs.Listing.{terms_text, valid_period, valid_value};
ghost use Rattle.std.specs.Prelude.{codes};

use crate::time::time_text;
use key_text::{Hash, fingerprint};
use line_pieces::{Escaped, Printed, Words, pieces, put};
use ssh_cert::{Cert, CertOption, Options, Role, Strings, valid_at};
use ssh_key::plain_blob;
use ssh_wire::Cursor;
use std::alloc::{AllocError, Global};

// A label and its value.
#[derive(Drop)]
struct Line<'a, V>(&'a [u8], V);

impl<'a, V: Printed> Printed for Line<'a, V> {
    ghost text = { λ l. line l.0.now (V.text l.1) };

    #[tactic(auto, unfolding(crate::specs::Listing::line))]
    fn push_to(&self, out: &mut Vec<u8>) -> Result<(), AllocError> {
        put!(out; b"        ", Words(self.0), b": ")?;
        self.1.push_to(out)?;
        put!(out; b"\n")
    }
}

// One of several items.
#[derive(Drop)]
struct Item<V>(V);

impl<V: Printed> Printed for Item<V> {
    ghost text = { λ i. item (V.text i.0) };

    #[tactic(auto, unfolding(crate::specs::Listing::item))]
    fn push_to(&self, out: &mut Vec<u8>) -> Result<(), AllocError> {
        put!(out; b"                ")?;
        self.0.push_to(out)?;
        put!(out; b"\n")
    }
}

// Whether the certificate is for a user or a host.
fn role_text(role: Role) -> &'static [u8]
    ensures { result.now ≡ role_text role }
{
    match role {
        Role::User => b" user certificate",
        Role::Host => b" host certificate",
    }
}

// The printed value for whether the certificate is valid at a moment.
fn valid_value(cert: &Cert, moment: u64) -> &'static [u8]
    ensures { result.now ≡ valid_value cert.now moment }
{
    if valid_at(cert, moment) {
        b"yes"
    } else {
        b"no"
    }
}

// Whether the data of a critical option of this name is a string.
fn has_text(name: &[u8]) -> bool
    ensures { result ≡ has_text name.now }
{
    name == b"force-command".as_slice() || name == b"source-address".as_slice()
}

// Appends the data of an option as it is printed after the name: nothing if it is empty, the text
// for options that have one if the data is exactly one string, and otherwise hexadecimal digits.
#[tactic(auto, unfolding(crate::specs::Listing::data_text))]
fn push_data(
    alloc: Global,
    out: &mut Vec<u8>,
    name: &[u8],
    content: &[u8],
) -> Result<(), AllocError>
    ensures { OnOk result (out.new.items ≡ out.old.items ++ data_text name.now content.now) }
{
    if content.is_empty() {
        return Ok(());
    }
    let mut cursor = Cursor::new(content);
    match cursor.string() {
        Ok(text) if has_text(name) && cursor.at_end() => put!(out; b" ", Escaped(text)),
        _ => {
            let digits = hex::encode(alloc, content)?;
            put!(out; b" hex:", Words(digits.as_bytes()))
        }
    }
}

// Appends an option.
#[tactic(auto, unfolding(crate::specs::Listing::item))]
fn push_option(alloc: Global, out: &mut Vec<u8>, option: &CertOption) -> Result<(), AllocError>
    ensures { OnOk result (out.new.items ≡ out.old.items ++ item (option_item option.now)) }
{
    put!(out; b"                ", Escaped(option.name))?;
    push_data(alloc, out, option.name, option.data)?;
    put!(out; b"\n")
}

// Appends the principals below their label.
#[tactic(auto, unfolding(crate::specs::Listing::lines))]
fn push_principals<'a>(out: &mut Vec<u8>, mut principals: Strings<'a>) -> Result<(), AllocError>
    ensures { OnOk result (out.new.items
        ≡ out.old.items ++ lines (codes "Principals") (map escaped principals.entry)) }
{
    let Some(first) = principals.next() else {
        return put!(out; Line(b"Principals", Words(b"(none)")));
    };
    put!(out; b"        Principals:\n")?;
    put!(out; Item(Escaped(first)))?;
    while let Some(principal) = principals.next() {
        put!(out; Item(Escaped(principal)))?;
    }
    Ok(())
}

// Appends options below their label.
#[tactic(auto, unfolding(crate::specs::Listing::lines))]
fn push_options<'a>(
    alloc: Global,
    out: &mut Vec<u8>,
    label: &[u8],
    mut options: Options<'a>,
) -> Result<(), AllocError>
    ensures { OnOk result (out.new.items
        ≡ out.old.items ++ lines label.now (map option_item options.entry)) }
{
    let Some(first) = options.next() else {
        return put!(out; Line(label, Words(b"(none)")));
    };
    put!(out; b"        ", Words(label), b":\n")?;
    push_option(alloc, out, &first)?;
    while let Some(option) = options.next() {
        push_option(alloc, out, &option)?;
    }
    Ok(())
}

// The time in which the certificate is valid.
fn period(alloc: Global, cert: &Cert) -> Result<Vec<u8>, AllocError>
    ensures { IfOk result (λ text. text.items ≡ valid_period cert.now) }
{
    let after = time_text(alloc, cert.after())?;
    let before = time_text(alloc, cert.before())?;
    let mut text = Vec::new(alloc);
    match (cert.after(), cert.before()) {
        (0, u64::MAX) => put!(&mut text; b"forever")?,
        (0, _) => put!(&mut text; b"before ", Words(&before))?,
        (_, u64::MAX) => put!(&mut text; b"after ", Words(&after))?,
        _ => put!(&mut text; b"from ", Words(&after), b" to ", Words(&before))?,
    }
    Ok(text)
}

// Appends the lines for the type, the key and the certificate authority.
#[tactic(auto, unfolding(crate::specs::Listing::identity_text))]
fn push_identity(
    alloc: Global,
    out: &mut Vec<u8>,
    cert: &Cert,
    hash: Hash,
) -> Result<(), AllocError>
    ensures { OnOk result (out.new.items ≡ out.old.items ++ identity_text hash cert.now) }
{
    let key = fingerprint(alloc, hash, &plain_blob(alloc, cert.key())?)?;
    let authority = fingerprint(alloc, hash, cert.authority())?;
    let kind = cert.kind().cert_name().as_bytes();
    let key_name = cert.key().short_name().as_bytes();
    let authority_name = cert.authority_key().short_name().as_bytes();
    put!(out;
        Line(b"Type", pieces!(Words(kind), Words(role_text(cert.role())))),
        Line(b"Public key", pieces!(Words(key_name), b"-CERT ", Words(&key))),
        Line(b"Signing CA", pieces!(Words(authority_name), b" ", Words(&authority),
            b" (using ", Escaped(cert.algorithm()), b")")))
}

// Appends the lines for the key ID, the serial and the validity.
#[tactic(auto, unfolding(crate::specs::Listing::terms_text))]
fn push_terms(alloc: Global, out: &mut Vec<u8>, cert: &Cert, moment: u64) -> Result<(), AllocError>
    ensures { OnOk result (out.new.items
        ≡ out.old.items ++ terms_text cert.now moment (valid_period cert.now)) }
{
    let period = period(alloc, cert)?;
    put!(out;
        Line(b"Key ID", pieces!(b"\"", Escaped(cert.key_id()), b"\"")),
        Line(b"Serial", cert.serial()),
        Line(b"Valid", Words(&period)),
        Line(b"Valid now", Words(valid_value(cert, moment))))
}

/// The listing of a certificate: the lines after the first one, which names the file. The
/// fingerprints are by this hash, the moment is in seconds since 1970, and text that others wrote
/// is escaped. Fails only if an allocation fails.
#[tactic(auto, unfolding(crate::specs::Listing::listing_of, crate::specs::Listing::lists_text))]
pub fn list_cert(alloc: Global, cert: &Cert, hash: Hash, moment: u64) -> Result<Vec<u8>, AllocError>
    ensures { IfOk result (λ text. text.items ≡ listing_of hash cert.now moment) }
{
    let mut text = Vec::new(alloc);
    push_identity(alloc, &mut text, cert, hash)?;
    push_terms(alloc, &mut text, cert, moment)?;
    push_principals(&mut text, cert.principals())?;
    push_options(alloc, &mut text, b"Critical Options", cert.critical())?;
    push_options(alloc, &mut text, b"Extensions", cert.extensions())?;
    Ok(text)
}
