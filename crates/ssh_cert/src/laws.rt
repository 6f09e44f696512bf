//! Laws about every certificate and every list of bytes, each as the contract of a function that
//! does nothing. `read_cert` returns what the reader named here gives, and `subject` the subject.

ghost use Rattle.std.specs.Prelude.{◌≡◌, ◌↔◌, ℕ, List, Err, Ok};
ghost use Rattle.ssh_cert.specs.CertReading.{certificate_at};
ghost use Rattle.ssh_cert.specs.Cert.{Cert, IsCertificate};
ghost use Rattle.ssh_cert.specs.FirstFault.{IsFirstCertFault};
ghost use Rattle.ssh_cert.specs.Laws.{HasCutFault, IsCut};
ghost use Rattle.ssh_cert.specs.Layout.{IsCertificateText};
ghost use Rattle.krl_types.specs.Subject.{Subject};
ghost use Rattle.ssh_cert.specs.SubjectReading.{IsSubject, IsSubjectFault, subject_of};
ghost use Rattle.ssh_cert.specs.declared.fault.CertFault.{CertFault};
ghost use Rattle.ssh_cert.specs.declared.subject_fault.SubjectFault.{SubjectFault};
ghost use Rattle.ssh_wire.specs.Wire.{IsBytes};

/// The tables of a certificate spell the bytes that PROTOCOL.certkeys lists, field by field, and
/// nothing else.
pub fn certificate_is_these_bytes()
    ensures { (blob : List ℕ) (certificate : Cert)
        → IsCertificate blob certificate ↔ IsCertificateText blob certificate }
{}

/// Reading gives a certificate exactly where the bytes are its blob.
pub fn read_where_spelled()
    ensures { (blob : List ℕ) (certificate : Cert) → IsBytes blob
        → (certificate_at blob ≡ Ok certificate) ↔ IsCertificate blob certificate }
{}

/// Reading meets a fault exactly where it is the first fault of the bytes.
pub fn refused_by_first_fault()
    ensures { (blob : List ℕ) (fault : CertFault) → IsBytes blob
        → (certificate_at blob ≡ Err fault) ↔ IsFirstCertFault blob fault }
{}

/// Bytes have at most one first fault, and a blob of a certificate has none.
pub fn one_first_fault()
    ensures one { (blob : List ℕ) (a b : CertFault) → IsBytes blob
        → IsFirstCertFault blob a → IsFirstCertFault blob b → a ≡ b }
    ensures none { (blob : List ℕ) (certificate : Cert) (fault : CertFault) → IsBytes blob
        → IsCertificate blob certificate → IsFirstCertFault blob fault → ⊥ }
{}

/// A blob is the blob of one certificate.
pub fn one_certificate()
    ensures { (blob : List ℕ) (a b : Cert)
        → IsCertificate blob a → IsCertificate blob b → a ≡ b }
{}

/// A blob of a certificate that is truncated anywhere has the fault that a field is truncated.
pub fn cut_certificate()
    ensures { (blob front : List ℕ) (certificate : Cert) → IsBytes blob
        → IsCertificate blob certificate → IsCut front blob → HasCutFault front }
{}

/// Reading gives a subject exactly where the bytes are those of a plain key or of a certificate
/// with this subject.
pub fn asked_where_spelled()
    ensures { (blob : List ℕ) (asked : Subject) → IsBytes blob
        → (subject_of blob ≡ Ok asked) ↔ IsSubject blob asked }
{}

/// Bytes have no subject exactly where they have a first fault.
pub fn not_asked_by_first_fault()
    ensures { (blob : List ℕ) (fault : SubjectFault) → IsBytes blob
        → (subject_of blob ≡ Err fault) ↔ IsSubjectFault blob fault }
{}

/// A blob has one subject.
pub fn one_subject()
    ensures { (blob : List ℕ) (a b : Subject) → IsSubject blob a → IsSubject blob b → a ≡ b }
{}
