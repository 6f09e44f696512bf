//! Names of a directory, and what they lead to.

ghost use Rattle.std.specs.Prelude.{◌≡◌, ℕ, List, [], Option, IfSome, IfOk, Ok, false, is_some};
ghost use Rattle.std.specs.Prelude.{string_bytes};
ghost use Rattle.std.specs.Io.KnownBytes.{Consumes};
ghost use Rattle.std.specs.Result.{result_err};
ghost use Rattle.krl_audit.specs.Audit.{content_of, name_by};
ghost use Rattle.audit_run.specs.Paths.{path_in};
ghost use Rattle.audit_run.specs.Entries.{FailsAt, IsEntry, IsOpened, IsPrivateFile, IsRead};
ghost use Rattle.audit_run.specs.Entries.{IsTarget, VisitsTarget, audited_if, is_always};
ghost use Rattle.audit_run.specs.Names.{is_directory, is_link};
ghost use Rattle.audit_run.specs.Visits.{Goes, Meets, is_seen};
ghost use Rattle.audit_run.specs.declared.file_kind.FileKind.TheVariants.{File};

use crate::file_kind::{FileKind, Found, Opened};
use crate::files::{Key, Skip, key_of};
use crate::names::{Directory, is_never};
use crate::paths::{path_in, shown_path};
use crate::reading::{Reading, content_of, is_private, read_file, read_front};
use crate::round::{Round, Screen};
use crate::search::{name_in, selects_every};
use crate::selection::{Selection, selection_of};
use crate::stop::Stop;
use crate::tree::Tree;
use audit_lines::{Refusal, reads_every};
use krl_audit::FileName;
use std::str;

/// A path that leads to no directory, and the name by which a file there is read; whether it is read
/// by its name, or only if it begins as a private key file; and whether a file is expected there,
/// since sshd or ssh reads one of this name.
#[derive(Clone, Copy)]
pub(crate) struct Entry<'p> {
    pub(crate) name: FileName<'p>,
    pub(crate) by_name: bool,
    pub(crate) expected: bool,
}

/// Audits what a name of a directory leads to, unless the command excludes it. Answers its path
/// where that is a directory that is entered.
pub(crate) fn audit_entry<T: Tree, W: Screen>(
    tree: &T,
    round: &mut Round<'_, '_, W>,
    place: Directory<'_>,
    name: &[u8],
) -> Result<Option<String>, Stop>
    ensures entry { Goes result (λ below. IsEntry (T.states tree.now) place.entry.search
        place.entry.path.now name.now (is_some below)) round.old round.new }
    ensures below { IfOk result (λ below. IfSome below (λ path.
        string_bytes path ≡ path_in place.entry.path.now name.now)) }
{
    if tree.is_excluded(name) {
        round.skip(Skip::Excluded, 1);
        return Ok(None);
    }
    let alloc = round.auditor.run.alloc;
    let Ok(text) = str::from_utf8(name) else {
        let shown = shown_path(alloc, place.path, name)?;
        round.audit(shown.as_str(), Err(Refusal::Open))?;
        return Ok(None);
    };
    let path = path_in(alloc, place.path, text)?;
    let selection = selection_of(selects_every(place.search), name);
    if is_never(selection) {
        return Ok(Some(path));
    }
    let looked = tree.look(path.as_str(), false);
    if is_directory(looked) {
        return Ok(Some(path));
    }
    let found_at = path.as_str();
    let entry = Entry {
        name: name_in(place.search, found_at),
        by_name: is_always(selection),
        expected: is_always(selection_of(reads_every(place.path.as_bytes()), name)),
    };
    let target = target_of(tree, found_at, looked);
    audit_target(tree, round, entry, target)?;
    Ok(None)
}

/// Whether a directory was found.
pub(crate) fn is_directory(found: Result<Found, Refusal>) -> bool
    ensures { result ≡ is_directory found }
{
    match found {
        Ok(found) => found.kind.is_directory(),
        Err(_) => false,
    }
}

// Whether a link was found.
fn is_link(found: Result<Found, Refusal>) -> bool
    ensures { result ≡ is_link found }
{
    match found {
        Ok(found) => found.kind.is_link(),
        Err(_) => false,
    }
}

// Whether a file is read by its name.
fn is_always(selection: Selection) -> bool
    ensures { result ≡ is_always selection }
{
    match selection {
        Selection::Always => true,
        Selection::IfPrivate | Selection::Never => false,
    }
}

// The target of a path that was looked at: what was found there, or what is behind a link. A link
// to a directory is not followed.
fn target_of<T: Tree>(
    tree: &T,
    path: &str,
    looked: Result<Found, Refusal>,
) -> Result<Found, Refusal>
    ensures { IsTarget (T.states tree.now) path.now looked result }
{
    if !is_link(looked) {
        return looked;
    }
    let target = tree.look(path, true);
    if is_directory(target) {
        return Err(Refusal::DirectoryLink);
    }
    target
}

/// Audits what a path leads to, which is no directory, or says why it is not read. A pipe, a socket
/// or a device is not opened; the null device is an empty file.
pub(crate) fn audit_target<T: Tree, W: Screen>(
    tree: &T,
    round: &mut Round<'_, '_, W>,
    entry: Entry<'_>,
    target: Result<Found, Refusal>,
) -> Result<(), Stop>
    ensures { Goes result (λ _. VisitsTarget (T.states tree.now) (name_by entry.entry.name)
        entry.entry.by_name entry.entry.expected target) round.old round.new }
{
    let found = match target {
        Ok(found) => found,
        Err(refusal) => return round.audit(entry.name.shown, Err(refusal)),
    };
    match found.kind {
        FileKind::File => audit_file(tree, round, entry, found),
        FileKind::Null => audit_if(round, entry.by_name, entry.name, Ok(b"")),
        FileKind::Directory | FileKind::Link | FileKind::Other => {
            audit_if(round, entry.expected, entry.name, Err(Refusal::Irregular))
        }
    }
}

// Audits this content of a file, or skips its name.
fn audit_if<W: Screen>(
    round: &mut Round<'_, '_, W>,
    audited: bool,
    name: FileName<'_>,
    content: Result<&[u8], Refusal>,
) -> Result<(), Stop>
    ensures { Meets (audited_if audited (name_by name.entry) (content_of content.entry))
        (result_err result) round.old round.new }
{
    if audited {
        round.audit_as(None, name, content)
    } else {
        round.skip(Skip::ByName, 1);
        Ok(())
    }
}

// Audits a file that was a regular one when it was looked at.
fn audit_file<T: Tree, W: Screen>(
    tree: &T,
    round: &mut Round<'_, '_, W>,
    entry: Entry<'_>,
    found: Found,
) -> Result<(), Stop>
    requires { found.kind ≡ File }
    ensures { Goes result (λ _. VisitsTarget (T.states tree.now) (name_by entry.entry.name)
        entry.entry.by_name entry.entry.expected (Ok found)) round.old round.new }
{
    let path = entry.name.shown;
    let opened = match tree.open(path, Some(found))? {
        Ok(opened) => opened,
        Err(refusal) => return round.audit(path, Err(refusal)),
    };
    if !opened.is_file {
        return round.audit(path, Err(Refusal::Irregular));
    }
    let Opened { identity, file, .. } = opened;
    let text = round.take_text();
    let reading = Reading {
        identity,
        file,
        text,
    };
    if entry.by_name {
        audit_opened(tree, round, entry.name, reading)
    } else {
        audit_private(tree, round, entry.name, reading)
    }
}

// Audits an open regular file, of which nothing was read yet, only if it begins as a private key
// file.
fn audit_private<T: Tree, W: Screen>(
    tree: &T,
    round: &mut Round<'_, '_, W>,
    name: FileName<'_>,
    reading: Reading<T::File>,
) -> Result<(), Stop>
    requires working { T.File.has_failed reading.file ≡ false }
    requires empty { reading.text.items ≡ [] }
    ensures { Goes result (λ _. IsPrivateFile (T.states tree.now) (name_by name.entry)
        reading.identity (T.File.left reading.file)) round.old round.new }
{
    let mut reading = reading;
    if !read_front(&mut reading.file, &mut reading.text)? {
        let refusal = tree.why_unread(name.shown, &reading.file);
        round.text = reading.text;
        return round.audit(name.shown, Err(refusal));
    }
    if is_private(reading.text.as_slice()) {
        return audit_opened(tree, round, name, reading);
    }
    round.text = reading.text;
    round.skip(Skip::ByName, 1);
    Ok(())
}

/// Audits an open regular file, unless it was audited before.
pub(crate) fn audit_opened<T: Tree, W: Screen>(
    tree: &T,
    round: &mut Round<'_, '_, W>,
    name: FileName<'_>,
    reading: Reading<T::File>,
) -> Result<(), Stop>
    requires { T.File.has_failed reading.file ≡ false }
    ensures { (bytes : Option (List ℕ))
        → Consumes bytes (T.File.left reading.file) reading.text.items
        → Goes result (λ _. IsOpened (T.states tree.now) (name_by name.entry) reading.identity
        bytes) round.old round.new }
{
    let key = key_of(name.read_as, reading.identity);
    if round.files.has(key) {
        round.text = reading.text;
        round.say_same(key, name.shown)
    } else {
        audit_read(tree, round, name, Some(key), reading)
    }
}

/// Audits what is read of an open file, or says why there is nothing.
pub(crate) fn audit_read<T: Tree, W: Screen>(
    tree: &T,
    round: &mut Round<'_, '_, W>,
    name: FileName<'_>,
    key: Option<Key>,
    reading: Reading<T::File>,
) -> Result<(), Stop>
    requires new { IfSome key (λ new. is_seen round.old.tally.files new ≡ false) }
    requires working { T.File.has_failed reading.file ≡ false }
    ensures { (bytes : Option (List ℕ))
        → Consumes bytes (T.File.left reading.file) reading.text.items
        → Goes result (λ _. IsRead (FailsAt (T.states tree.now) name.entry.shown.now)
        (name_by name.entry) bytes key) round.old round.new }
{
    let Reading { file, text, .. } = reading;
    let mut file = file;
    let mut text = text;
    let read = read_file(tree, name.shown, &mut file, &mut text)?;
    let done = round.audit_as(key, name, content_of(read, text.as_slice()));
    round.text = text;
    done
}
