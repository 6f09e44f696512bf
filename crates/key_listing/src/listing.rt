//! Listing the keys or the certificates of a file (ssh-keygen(1), options -l and -L).

ghost use Rattle.std.specs.Prelude.{◌≡◌, ◌++◌, IfOk, Some, false, ⊤};
ghost use Rattle.ssh_cert.specs.AnyKey.{asked_of, certificate_in, plain_of};
ghost use Rattle.ssh_key.specs.Kind.{short_name_of};
ghost use Rattle.run_output.specs.Done.{Ends};
ghost use Rattle.key_listing.specs.Listing.{certificate_answer, certificate_mark, certificate_text};
ghost use Rattle.key_listing.specs.Listing.{comment_or_none, description, list_line};
ghost use Rattle.key_listing.specs.Listing.{list_run_of, listing};

use byte_streams::Sink;
use cert_listing::list_cert;
use key_text::{Hash, fingerprint};
use line_pieces::{Escaped, Printed, Words, pieces, put};
use run_faults::{FileFault, FileKey, Named};
use run_output::{Answer, Answers, Done, Printer, Run, print_file};
use ssh_cert::{AnyKey, Cert};
use ssh_key::plain_blob;
use ssh_wire::Bytes;
use std::alloc::{AllocError, Global};

/// Which keys of a file are listed.
#[derive(Clone, Copy)]
pub enum ListMode {
    /// Each key in a line. For a certificate, its plain key is described.
    Keys,
    /// Each certificate in several lines. Other keys are read and skipped.
    Certs,
}

// Lists keys or certificates, with fingerprints by a hash. The moment is in seconds since 1970.
#[derive(Clone, Copy)]
struct Listing {
    mode: ListMode,
    hash: Hash,
    moment: u64,
}

impl Answers for Listing {
    ghost answers_as = { λ l answering. answering ≡ listing l.mode l.hash l.moment };

    ghost expects = { λ _ _. ⊤ };

    fn answer(
        &self,
        alloc: Global,
        key: &FileKey,
        any: &AnyKey,
    ) -> Result<Option<Answer>, AllocError> {
        match self.mode {
            ListMode::Keys => self.describe(alloc, key, any),
            ListMode::Certs => self.certify(alloc, key, any),
        }
    }

    fn unanswered(&self) -> FileFault {
        match self.mode {
            ListMode::Keys => FileFault::NoKeys,
            ListMode::Certs => FileFault::NoCertificate,
        }
    }
}

impl Listing {
    // Describes a key, or the plain key of a certificate.
    fn describe(
        &self,
        alloc: Global,
        key: &FileKey,
        any: &AnyKey,
    ) -> Result<Option<Answer>, AllocError>
        ensures { IfOk result (λ answer. answer ≡ Some (description self.now.hash key.now.line
            (asked_of any.now) (plain_of any.now))) }
    {
        let blob = plain_blob(alloc, any.plain())?;
        let print = fingerprint(alloc, self.hash, &blob)?;
        let text = list_line(alloc, any, print.as_slice(), key.comment())?;
        Ok(Some(Answer {
            text,
            revoked: false,
        }))
    }

    // Lists the certificate of a line.
    fn certify(
        &self,
        alloc: Global,
        key: &FileKey,
        any: &AnyKey,
    ) -> Result<Option<Answer>, AllocError>
        ensures { IfOk result (λ answer. answer ≡ certificate_answer self.now.hash
            self.now.moment key.now.name key.now.number (certificate_in any.now)) }
    {
        let Some(number) = key.number else {
            return Ok(None);
        };
        let AnyKey::Certified(cert) = any else {
            return Ok(None);
        };
        let text = self.certificate_text(alloc, key.name, number, cert)?;
        Ok(Some(Answer {
            text,
            revoked: false,
        }))
    }

    // The file and the line of a certificate, and its listing.
    fn certificate_text(
        &self,
        alloc: Global,
        name: &str,
        number: u64,
        cert: &Cert,
    ) -> Result<Bytes, AllocError>
        ensures { IfOk result (λ text. text
            ≡ certificate_text self.now.hash self.now.moment name.now number cert.now) }
    {
        let listing = list_cert(alloc, cert, self.hash, self.moment)?;
        let mut text = Vec::new(alloc);
        put!(&mut text; pieces!(Escaped(name.as_bytes()), b":", number, b":\n"), Words(&listing))?;
        Ok(Bytes::from_vec(text))
    }
}

// The suffix of the kind for a certificate.
fn certificate_mark(any: &AnyKey) -> &'static [u8]
    ensures { result.now ≡ certificate_mark (asked_of any.now).cert }
{
    match any {
        AnyKey::Certified(_) => b"-CERT",
        AnyKey::Plain(_) => b"",
    }
}

// A comment, or that there is none.
#[derive(Clone, Copy)]
struct Comment<'a>(&'a [u8]);

impl<'a> Printed for Comment<'a> {
    ghost text = { λ comment. comment_or_none comment.0.now };

    fn push_to(&self, out: &mut Vec<u8>) -> Result<(), AllocError> {
        if self.0.is_empty() {
            put!(out; b"no comment")
        } else {
            put!(out; Escaped(self.0))
        }
    }
}

// The line of a key, with its line feed: its size in bits, fingerprint, comment and kind.
fn list_line(alloc: Global, any: &AnyKey, print: &[u8], comment: &[u8]) -> Result<Bytes, AllocError>
    ensures { IfOk result (λ text.
        text ≡ list_line (plain_of any.now).bits print.now comment.now
        (short_name_of (plain_of any.now).kind ++ certificate_mark (asked_of any.now).cert)) }
{
    let key = any.plain();
    let kind = key.short_name().as_bytes();
    let mut text = Vec::new(alloc);
    put!(&mut text; u64::from(key.bits()), b" ", Words(print), b" ", Comment(comment), b" (",
        pieces!(Words(kind), Words(certificate_mark(any))), b")\n")?;
    Ok(Bytes::from_vec(text))
}

/// Lists each key or each certificate of a file on a writer that has not failed before, with
/// fingerprints by a hash (ssh-keygen(1), options -l and -L). The moment, in seconds since 1970, is
/// the one for which a certificate is reported as valid or not. The status is 0, or 255 if a fault
/// stops the run.
pub fn list_run<'a, W: Sink>(
    alloc: Global,
    mode: ListMode,
    hash: Hash,
    file: &'a Named<'a>,
    moment: u64,
    out: &mut W,
) -> Done<'a>
    requires { W.has_failed out.old ≡ false }
    ensures { Ends (list_run_of mode hash moment file.now) (W.taken out.old) (W.taken out.new)
        (W.has_failed out.new) result.status result.fault }
{
    let mut buffer = Vec::new(alloc);
    let printer = Printer::new(&mut buffer, out);
    let line = Vec::new(alloc);
    let mut run = Run {
        alloc,
        printer,
        line,
    };
    let listing = Listing { mode, hash, moment };
    let stop = print_file(&mut run, &listing, file).err();
    let Run {
        mut printer,
        line: _line,
        ..
    } = run;
    let done = printer.finish(stop);
    let Printer { out: _out, .. } = printer;
    done
}
