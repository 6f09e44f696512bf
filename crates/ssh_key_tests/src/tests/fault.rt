//! The texts of faults.

use key_text::{FingerprintFault, LineFault, PrivateFault};
use ssh_key::KeyFault;
use ssh_wire::WireFault;
use test_fixtures::misprinted;

const OF_KEYS: [(KeyFault, &str); 8] = [
    (KeyFault::Wire(WireFault::Short), "key 1 Wire, wire 1 Short"),
    (KeyFault::UnknownType, "key 2 UnknownType"),
    (KeyFault::Curve, "key 3 Curve"),
    (KeyFault::Point, "key 4 Point"),
    (KeyFault::Length, "key 5 Length"),
    (KeyFault::Number, "key 6 Number"),
    (KeyFault::Trailing, "key 7 Trailing"),
    (KeyFault::TooLong, "key 8 TooLong"),
];

const OF_LINES: [(LineFault, &str); 4] = [
    (LineFault::NoKey, "line 1 NoKey"),
    (LineFault::Base64, "line 2 Base64"),
    (LineFault::WordDiffers, "line 3 WordDiffers"),
    (LineFault::NoMemory, "line 4 NoMemory"),
];

const OF_FINGERPRINTS: [(FingerprintFault, &str); 4] = [
    (FingerprintFault::Prefix, "fingerprint 1 Prefix"),
    (FingerprintFault::Base64, "fingerprint 2 Base64"),
    (FingerprintFault::Length, "fingerprint 3 Length"),
    (FingerprintFault::NoMemory, "fingerprint 4 NoMemory"),
];

const OF_CONTAINERS: [(PrivateFault, &str); 12] = [
    (PrivateFault::Armour, "private 1 Armour"),
    (PrivateFault::Base64, "private 2 Base64"),
    (PrivateFault::Magic, "private 3 Magic"),
    (PrivateFault::Encrypted, "private 4 Encrypted"),
    (PrivateFault::KeyCount, "private 5 KeyCount"),
    (PrivateFault::Check, "private 6 Check"),
    (
        PrivateFault::Key(KeyFault::Point),
        "private 7 Key, key 4 Point",
    ),
    (PrivateFault::PublicDiffers, "private 8 PublicDiffers"),
    (PrivateFault::Padding, "private 9 Padding"),
    (PrivateFault::Trailing, "private 10 Trailing"),
    (
        PrivateFault::Wire(WireFault::Short),
        "private 11 Wire, wire 1 Short",
    ),
    (PrivateFault::NoMemory, "private 12 NoMemory"),
];

#[test]
fn faults_print_their_numbers_and_names(rt: HostRuntime) {
    assert!(rt; misprinted(rt.alloc(), &OF_KEYS) == Ok(None));
    assert!(rt; misprinted(rt.alloc(), &OF_LINES) == Ok(None));
    assert!(rt; misprinted(rt.alloc(), &OF_FINGERPRINTS) == Ok(None));
    assert!(rt; misprinted(rt.alloc(), &OF_CONTAINERS) == Ok(None));
}
