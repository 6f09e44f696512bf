//! The callers on the pages of `ssh_cert`, `cert_listing` and `line_pieces`, and the subject of a
//! certificate.

ghost use Rattle.std.specs.Prelude.{◌≡◌, ◌++◌, ◌∷◌, [], IfOk, IsTrue, OnOk, codes, decimal};
ghost use Rattle.cert_listing.specs.Listing.{listing_of};
ghost use Rattle.ssh_cert.specs.Cert.{Cert, IsCertificate};
ghost use Rattle.ssh_cert.specs.Escape.{escaped};
ghost use Rattle.ssh_cert.specs.Validity.{IsValidAt};
ghost use Rattle.key_text.specs.declared.hash.Hash.TheVariants.{Sha256};

use crate::tests::parts::{Part, changed};
use cert_listing::list_cert;
use key_text::Hash;
use line_pieces::{Escaped, put};
use ssh_cert::laws::read_where_spelled;
use ssh_cert::{Cert, Subject, push_escaped, read_cert, subject, valid_at};
use std::alloc::{AllocError, Global};

/// Whether a blob is a certificate that is valid at a moment, in seconds from 1970 on.
fn is_valid_cert(blob: &[u8], moment: u64) -> bool
    ensures { IsTrue result → (certificate : Cert)
        × (IsCertificate blob.now certificate × IsValidAt certificate moment) }
{
    read_where_spelled();
    match read_cert(blob) {
        Ok(cert) => valid_at(&cert, moment),
        Err(_) => false,
    }
}

/// The listing of a certificate as `ssh-keygen -L` prints it, after a line that names the file.
fn listed(alloc: Global, file: &[u8], cert: &Cert, moment: u64) -> Result<Vec<u8>, AllocError>
    ensures { IfOk result (λ text. text.items
        ≡ escaped file.now ++ (codes ":" ++ 10 ∷ listing_of Sha256 cert.now moment)) }
{
    let mut text = Vec::new(alloc);
    push_escaped(&mut text, file)?;
    text.extend_from_slice(b":\n")?;
    text.extend_from_slice(&list_cert(alloc, cert, Hash::Sha256, moment)?)?;
    Ok(text)
}

fn version_line(line: &mut Vec<u8>, name: &str, version: u64) -> Result<(), AllocError>
    ensures { OnOk result (line.new.items
        ≡ line.old.items ++ (escaped name.now ++ (codes ": " ++ (decimal version ++ 10 ∷ [])))) }
{
    put!(line; Escaped(name.as_bytes()), b": ", version, b"\n")
}

/// The serial number of a subject, if it is a certificate.
fn serial_of(asked: &Subject) -> Option<u64> {
    match &asked.cert {
        Some(names) => Some(names.serial),
        None => None,
    }
}

#[test]
fn a_cert_is_asked_about_by_its_serial(rt: HostRuntime) {
    let serial: u64 = 77;
    let blob = changed(rt.alloc(), Part::Serial, &serial.to_be_bytes()).expect(
        &rt,
        "there is memory",
    );
    let asked = subject(rt.alloc(), &blob)
        .ok()
        .expect(&rt, "it is a certificate");
    assert!(rt; serial_of(&asked) == Some(77));
}

#[test]
fn a_cert_is_valid_until_it_ends(rt: HostRuntime) {
    let ends: u64 = 1000;
    let blob = changed(rt.alloc(), Part::Before, &ends.to_be_bytes()).expect(
        &rt,
        "there is memory",
    );
    assert!(rt; is_valid_cert(&blob, 999));
    assert!(rt; !is_valid_cert(&blob, 1000));
    assert!(rt; !is_valid_cert(b"nothing", 999));
}

#[test]
fn a_listing_follows_the_name_of_its_file(rt: HostRuntime) {
    let serial: u64 = 77;
    let blob = changed(rt.alloc(), Part::Serial, &serial.to_be_bytes()).expect(
        &rt,
        "there is memory",
    );
    let cert = read_cert(&blob).ok().expect(&rt, "it is a certificate");
    let text = listed(rt.alloc(), b"a\n.pub", &cert, 0).expect(&rt, "there is memory");
    assert!(rt; text.starts_with(b"a\\x0a.pub:\n        Type: "));
}
