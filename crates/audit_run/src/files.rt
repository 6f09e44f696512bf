//! The counts of files, and which files were audited.

ghost use Rattle.std.specs.Prelude.{◌≡◌, ◌+◌, ◌≤◌, OnOk, option_map};
ghost use Rattle.audit_lines.specs.Front.{fronts_of, is_read_by_lines};
ghost use Rattle.audit_run.specs.Visits.{free_from, is_seen, is_told, names_of, no_files};
ghost use Rattle.audit_run.specs.Visits.{with_audited, with_key, with_same, with_skipped};
ghost use Rattle.audit_run.specs.Entries.{key_of, way_by, way_of};

use crate::file_kind::Identity;
use audit_lines::{Fronts, is_read_by_lines};
use krl_audit::FileCounts;
use std::alloc::{AllocError, Global};
use std::collections::BTreeSet;

/// A file by its identity, and how its path says that it is read. A file with several names is
/// audited once for each of these ways, since a link would otherwise hide how sshd or ssh reads it.
pub(crate) type Key = [u64; 6];

// How many other names of one file are printed. The others are counted alone, since a user can give
// a file any number of names.
const MOST_NAMES: u64 = 20;

/// Why names of a directory are passed over.
#[derive(Clone, Copy)]
pub(crate) enum Skip {
    /// No file of this name is read.
    ByName,
    /// The command excludes the name.
    Excluded,
    /// It is a directory on another file system, and the audit stays on one.
    Elsewhere,
}

/// The counts of files, and which files were audited.
#[derive(Drop)]
pub struct Files {
    /// The counts of files.
    pub(crate) counts: FileCounts,
    /// In how many of the audited files a key is revoked.
    pub(crate) revoked: u64,
    /// The keys of the files that were audited.
    pub(crate) seen: BTreeSet<Key>,
    /// Other names of these files, by number.
    pub(crate) names: BTreeSet<(Key, u64)>,
}

/// The visits since a directory that is named was entered.
#[derive(Clone, Copy)]
pub struct Since {
    /// Whether a file was audited, now or before.
    pub(crate) gave: bool,
    /// Whether a name was passed over.
    pub(crate) passed: bool,
}

impl Since {
    /// Nothing.
    pub(crate) const NOTHING: Since = Since {
        gave: false,
        passed: false,
    };
}

impl Files {
    /// No file yet.
    pub(crate) fn new(alloc: Global) -> Files
        ensures { result ≡ no_files }
    {
        Files {
            counts: FileCounts::NONE,
            revoked: 0,
            seen: BTreeSet::new(alloc),
            names: BTreeSet::new(alloc),
        }
    }

    /// Keeps the key of a file that is audited now, if it has one.
    pub(crate) fn keep(&mut self, key: Option<Key>) -> Result<(), AllocError>
        ensures { OnOk result (self.new ≡ with_key key self.old) }
    {
        if let Some(key) = key {
            self.seen.insert(key)?;
        }
        Ok(())
    }

    /// Whether a file with this key was audited.
    pub(crate) fn has(&self, key: Key) -> bool
        ensures { result ≡ is_seen self.now key }
    {
        self.seen.contains(&key)
    }

    /// Counts a file that was audited, in which a key is revoked or not.
    pub(crate) fn count(&mut self, revoked: bool)
        ensures { self.new ≡ with_audited revoked self.old }
    {
        self.counts.audited = self.counts.audited.saturating_add(1);
        if revoked {
            self.revoked = self.revoked.saturating_add(1);
        }
    }

    // How many other names of the file with this key were met, up to as many as are printed.
    fn names_of(&self, key: Key) -> u64
        ensures { result ≡ names_of self.now key }
    {
        self.free_from(key, 0, MOST_NAMES)
    }

    // The first number from this one, of this many, that no other name of the file with this key
    // has.
    fn free_from(&self, key: Key, number: u64, left: u64) -> u64
        requires { number + left ≤ 20 }
        ensures { result ≡ free_from self.now key number left }
    {
        if left == 0 || !self.names.contains(&(key, number)) {
            return number;
        }
        self.free_from(key, number + 1, left - 1)
    }

    /// Whether the next other name of the file with this key is printed.
    pub(crate) fn is_told(&self, key: Key) -> bool
        ensures { result ≡ is_told self.now key }
    {
        self.names_of(key) < MOST_NAMES
    }

    /// Counts a name of a file that was audited before.
    pub(crate) fn count_same(&mut self, key: Key) -> Result<(), AllocError>
        ensures { OnOk result (self.new ≡ with_same key self.old) }
    {
        let number = self.names_of(key);
        self.names.insert((key, number))?;
        self.counts.same = self.counts.same.saturating_add(1);
        Ok(())
    }

    /// Counts names that are passed over for this reason.
    pub(crate) fn count_skipped(&mut self, why: Skip, count: u64)
        ensures { self.new ≡ with_skipped why count self.old }
    {
        match why {
            Skip::ByName => self.counts.skipped = self.counts.skipped.saturating_add(count),
            Skip::Excluded => self.counts.excluded = self.counts.excluded.saturating_add(count),
            Skip::Elsewhere => self.counts.elsewhere = self.counts.elsewhere.saturating_add(count),
        }
    }
}

/// The key of the file with this identity, as this name says that it is read, or if keys are found
/// anywhere in its lines.
pub(crate) fn key_of(read_as: Option<&str>, identity: Identity) -> Key
    ensures { result ≡ key_of (option_map (λ path. path.now) read_as.entry) identity }
{
    [
        identity.device,
        identity.number,
        identity.size,
        identity.changed,
        identity.nanoseconds,
        way_of(read_as),
    ]
}

// How a file is read, as a number.
fn way_of(read_as: Option<&str>) -> u64
    ensures { result ≡ way_of (option_map (λ path. path.now) read_as.entry) }
{
    match read_as {
        None => 6,
        Some(path) => way_by(path.as_bytes()),
    }
}

// How the name of a file says that it is read, as a number.
fn way_by(path: &[u8]) -> u64
    ensures { result ≡ way_by (fronts_of path.now) (is_read_by_lines path.now) }
{
    match (Fronts::of(path), is_read_by_lines(path)) {
        (Fronts::Hosts, false) => 0,
        (Fronts::Options, false) => 1,
        (Fronts::Either, false) => 2,
        (Fronts::Hosts, true) => 3,
        (Fronts::Options, true) => 4,
        (Fronts::Either, true) => 5,
    }
}
