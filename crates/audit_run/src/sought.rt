//! The files that sshd reads.

ghost use Rattle.std.specs.Prelude.{◌≡◌, IfOk, string_bytes, true};
ghost use Rattle.krl_audit.specs.Audit.{name_by};
ghost use Rattle.audit_run.specs.Entries.{VisitsTarget};
ghost use Rattle.audit_run.specs.Named.{Each};
ghost use Rattle.audit_run.specs.Sought.{IsAt, IsHostKey, IsSought, IsSoughtAs, IsSoughtAt};
ghost use Rattle.audit_run.specs.Sought.{IsKeysAt, as_keys, command_name, has_wildcards};
ghost use Rattle.audit_run.specs.Sought.{is_missing, is_wildcard, public_path};
ghost use Rattle.audit_run.specs.Visits.{Goes, Went};

use crate::entries::{Entry, audit_target};
use crate::file_kind::Found;
use crate::named::{audit_waiting, front_of, is_too_long, refuse_name};
use crate::round::{Round, Screen};
use crate::stop::Stop;
use crate::tree::Tree;
use audit_lines::Refusal;
use krl_audit::FileName;
use sshd_files::{SshdFile, SshdFileKind};
use std::alloc::{AllocError, Global};
use std::str;

/// Audits the files that sshd reads, of which only those that are there count.
pub(crate) fn audit_sought<T: Tree, W: Screen>(
    tree: &T,
    round: &mut Round<'_, '_, W>,
    files: &[SshdFile],
) -> Result<(), Stop>
    ensures { Went (λ whole. Each (IsSought (T.states tree.now)) whole files.now) result round.old
        round.new }
{
    for file in files {
        audit_path(tree, round, file.kind, file.path.as_slice())?;
    }
    Ok(())
}

// Audits what sshd reads at a path, or says why it cannot be that of a file.
fn audit_path<T: Tree, W: Screen>(
    tree: &T,
    round: &mut Round<'_, '_, W>,
    kind: SshdFileKind,
    path: &[u8],
) -> Result<(), Stop>
    ensures { Went (λ whole. IsSoughtAt (T.states tree.now) kind path.now whole) result round.old
        round.new }
{
    if is_too_long(path) {
        return refuse_name(round, front_of(path), Refusal::LongName);
    }
    let Ok(text) = str::from_utf8(path) else {
        return refuse_name(round, path, Refusal::Open);
    };
    audit_as_kind(tree, round, kind, text)
}

// Audits what sshd reads at a path, by what it is.
fn audit_as_kind<T: Tree, W: Screen>(
    tree: &T,
    round: &mut Round<'_, '_, W>,
    kind: SshdFileKind,
    path: &str,
) -> Result<(), Stop>
    ensures { Goes result (λ _. IsSoughtAs (T.states tree.now) kind path.now) round.old round.new }
{
    match kind {
        SshdFileKind::Keys => audit_keys(tree, round, path),
        SshdFileKind::HostKey => audit_host_key(tree, round, path),
        SshdFileKind::Command => {
            let name = command_name(round.auditor.run.alloc, path)?;
            round.audit(name.as_str(), Err(Refusal::NotAsked))
        }
        SshdFileKind::Output => audit_waiting(tree, round, keys_at(path)),
    }
}

// Audits lines of keys. A path with wildcards is not read.
fn audit_keys<T: Tree, W: Screen>(
    tree: &T,
    round: &mut Round<'_, '_, W>,
    path: &str,
) -> Result<(), Stop>
    ensures { Goes result (λ _. IsKeysAt (T.states tree.now) (has_wildcards path.now) path.now)
        round.old round.new }
{
    if has_wildcards(path.as_bytes()) {
        round.audit(path, Err(Refusal::Wildcards))
    } else {
        audit_at(tree, round, keys_at(path))
    }
}

// Whether sshd may read other files than the one at this path.
fn has_wildcards(path: &[u8]) -> bool
    ensures { result ≡ has_wildcards path.now }
{
    path.iter().any(|byte| is_wildcard(*byte))
}

// Whether it is a byte of a path that is expanded, or that escapes one (glob(7)).
fn is_wildcard(byte: u8) -> bool
    ensures { result ≡ is_wildcard byte }
{
    byte == b'*' || byte == b'?' || byte == b'[' || byte == b'\\'
}

// A file whose lines are read as those of authorized_keys.
fn keys_at(path: &str) -> FileName<'_>
    ensures { name_by result ≡ as_keys path.now }
{
    FileName {
        shown: path,
        read_as: Some("authorized_keys"),
    }
}

// A command that sshd runs for keys, as it is named.
fn command_name(alloc: Global, command: &str) -> Result<String, AllocError>
    ensures { IfOk result (λ name. string_bytes name ≡ command_name command.now) }
{
    let mut name = String::from_str(alloc, "AuthorizedKeysCommand ")?;
    name.push_str(command)?;
    Ok(name)
}

// The path of the public key of a host key.
fn public_path(alloc: Global, path: &str) -> Result<String, AllocError>
    ensures { IfOk result (λ public. string_bytes public ≡ public_path path.now) }
{
    let mut public = String::from_str(alloc, path)?;
    public.push_str(".pub")?;
    Ok(public)
}

// Audits the public key of a host key, in its own file or in that of the private key.
fn audit_host_key<T: Tree, W: Screen>(
    tree: &T,
    round: &mut Round<'_, '_, W>,
    path: &str,
) -> Result<(), Stop>
    ensures { Goes result (λ _. IsHostKey (T.states tree.now) path.now) round.old round.new }
{
    let public = public_path(round.auditor.run.alloc, path)?;
    let beside = public.as_str();
    let found = tree.look(beside, true);
    if is_missing(found) {
        let name = FileName {
            shown: path,
            read_as: Some(path),
        };
        return audit_at(tree, round, name);
    }
    let name = FileName {
        shown: beside,
        read_as: Some(beside),
    };
    audit_there(tree, round, name, found)
}

// Audits a file, if there is one.
fn audit_at<T: Tree, W: Screen>(
    tree: &T,
    round: &mut Round<'_, '_, W>,
    name: FileName<'_>,
) -> Result<(), Stop>
    ensures { Goes result (λ _. IsAt (T.states tree.now) (name_by name.entry)) round.old
        round.new }
{
    let found = tree.look(name.shown, true);
    if is_missing(found) {
        return Ok(());
    }
    audit_there(tree, round, name, found)
}

// Audits what was found.
fn audit_there<T: Tree, W: Screen>(
    tree: &T,
    round: &mut Round<'_, '_, W>,
    name: FileName<'_>,
    found: Result<Found, Refusal>,
) -> Result<(), Stop>
    ensures { Goes result (λ _. VisitsTarget (T.states tree.now) (name_by name.entry) true true
        found) round.old round.new }
{
    let entry = Entry {
        name,
        by_name: true,
        expected: true,
    };
    audit_target(tree, round, entry, found)
}

// Whether there is nothing at a path.
fn is_missing(found: Result<Found, Refusal>) -> bool
    ensures { result ≡ is_missing found }
{
    match found {
        Err(Refusal::Missing) => true,
        Ok(_) | Err(_) => false,
    }
}
