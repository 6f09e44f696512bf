//! The principals, options and extensions of certificates.

use crate::tests::parts::{Part, with};
use ssh_cert::{Options, Strings, read_cert};

// Whether these names and data are all of the options.
fn are_options(mut options: Options<'_>, pairs: &[(&[u8], &[u8])]) -> bool {
    for (name, data) in pairs {
        let Some(option) = options.next() else {
            return false;
        };
        if option.name != *name || option.data != *data {
            return false;
        }
    }
    options.next().is_none()
}

// Whether these are all of the principals.
fn are_principals(mut principals: Strings<'_>, names: &[&[u8]]) -> bool {
    for name in names {
        if principals.next() != Some(*name) {
            return false;
        }
    }
    principals.next().is_none() && principals.next().is_none()
}

// Critical options, which are pairs. One has an empty name and empty data.
#[test]
fn options_in_their_order(rt: HostRuntime) {
    let list: [&[u8]; 4] = [b"force-command", b"\0\0\0\x02id", b"", b""];
    let blob = with(rt.alloc(), Part::Critical, &list).expect(&rt, "there is memory");
    let cert = read_cert(&blob).ok().expect(&rt, "it is a certificate");
    let pairs: [(&[u8], &[u8]); 2] = [(b"force-command", b"\0\0\0\x02id"), (b"", b"")];
    assert!(rt; are_options(cert.critical(), &pairs));
    assert!(rt; are_options(cert.extensions(), &[]) && are_principals(cert.principals(), &[]));
}

#[test]
fn extensions_and_principals_in_their_order(rt: HostRuntime) {
    let blob = with(rt.alloc(), Part::Extensions, &[b"permit-pty", b""]).expect(
        &rt,
        "there is memory",
    );
    let cert = read_cert(&blob).ok().expect(&rt, "it is a certificate");
    assert!(rt; are_options(cert.extensions(), &[(b"permit-pty", b"")]));
    let list: [&[u8]; 3] = [b"root", b"", b"admin"];
    let blob = with(rt.alloc(), Part::Principals, &list).expect(&rt, "there is memory");
    let cert = read_cert(&blob).ok().expect(&rt, "it is a certificate");
    assert!(rt; are_principals(cert.principals(), &list));
}
