//! Faults as they are printed.

use ssh_cert::{CertFault, SubjectFault};
use ssh_key::KeyFault;
use ssh_wire::WireFault;
use test_fixtures::misprinted;

const SHORT: KeyFault = KeyFault::Wire(WireFault::Short);

const OF_CERTIFICATES: [(CertFault, &str); 9] = [
    (CertFault::Wire, "cert 1 Wire"),
    (CertFault::UnknownType, "cert 2 UnknownType"),
    (
        CertFault::Key(SHORT),
        "cert 3 Key, key 1 Wire, wire 1 Short",
    ),
    (CertFault::CertType, "cert 4 CertType"),
    (CertFault::Options, "cert 5 Options"),
    (CertFault::Principals, "cert 6 Principals"),
    (
        CertFault::Authority(KeyFault::Trailing),
        "cert 7 Authority, key 7 Trailing",
    ),
    (CertFault::Signature, "cert 8 Signature"),
    (CertFault::Trailing, "cert 9 Trailing"),
];

const OF_SUBJECTS: [(SubjectFault, &str); 3] = [
    (
        SubjectFault::Key(KeyFault::Point),
        "subject 1 Key, key 4 Point",
    ),
    (
        SubjectFault::Cert(CertFault::CertType),
        "subject 2 Cert, cert 4 CertType",
    ),
    (SubjectFault::NoMemory, "subject 3 NoMemory"),
];

#[test]
fn faults_print_their_numbers_and_names(rt: HostRuntime) {
    assert!(rt; misprinted(rt.alloc(), &OF_CERTIFICATES) == Ok(None));
    assert!(rt; misprinted(rt.alloc(), &OF_SUBJECTS) == Ok(None));
}
