//! The hashes of the keys that are asked about.

ghost use Rattle.std.specs.Prelude.{◌≡◌, ◌↔◌, [], ℕ, List, Contains, IfOk, IsTrue, OnOk};
ghost use Rattle.krl_queries.specs.Questions.{AreHashed, HashesOf};

use krl_entries::{Revocations, Texts};
use serial_set::Spans;
use sha1::Sha1;
use sha2::{Digest, Sha256};
use std::alloc::AllocError;
use std::collections::BTreeSet;

// A hash function, whose digests have this length.
pub(crate) trait KeyHash<const N: usize> {
    ghost hash: { List ℕ → List ℕ };

    // The digest of a key.
    fn of(key: &[u8]) -> [u8; N]
        ensures { result ≡ hash key.now };
}

impl KeyHash<20> for Sha1 {
    ghost use Rattle.sha1.specs.Sha1.{sha1};

    ghost hash = { sha1 };

    fn of(key: &[u8]) -> [u8; 20] {
        Sha1::digest(key)
    }
}

impl KeyHash<32> for Sha256 {
    ghost use Rattle.sha2.specs.Sha256.{sha256};

    ghost hash = { sha256 };

    fn of(key: &[u8]) -> [u8; 32] {
        Sha256::digest(key)
    }
}

// Whether a key that is asked about has this hash. The first call hashes all of these keys.
pub(crate) fn asks_hash<H: KeyHash<N>, S: Spans, const N: usize>(
    topics: &Revocations<S>,
    made: &mut bool,
    hashes: &mut BTreeSet<[u8; N]>,
    hash: &[u8; N],
) -> Result<bool, AllocError>
    requires { AreHashed made.old H.hash topics.now.keys hashes.old.keys }
    ensures hashed { AreHashed made.new H.hash topics.now.keys hashes.new.keys }
    ensures asked { IfOk result (λ asked. IsTrue asked
        ↔ ((blob : List ℕ) × (Contains topics.now.keys blob × (H.hash blob ≡ hash.now)))) }
{
    if *made {
        return Ok(hashes.contains(hash));
    }
    hashes.clear();
    hash_keys::<H, N>(topics.iter_keys(), hashes)?;
    *made = true;
    Ok(hashes.contains(hash))
}

// Adds the hash of each key.
fn hash_keys<H: KeyHash<N>, const N: usize>(
    keys: Texts<'_>,
    hashes: &mut BTreeSet<[u8; N]>,
) -> Result<(), AllocError>
    requires { hashes.old.keys ≡ [] }
    ensures { OnOk result (HashesOf H.hash keys.entry hashes.new.keys) }
{
    for key in keys {
        hashes.insert(H::of(key))?;
    }
    Ok(())
}
