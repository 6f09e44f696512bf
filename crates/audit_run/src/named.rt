//! The files and directories that are named.

ghost use Rattle.std.specs.Prelude.{◌≡◌, ◌+◌, ◌<◌, ◌≤◌, ℕ, List, false, length, nat_lt, take};
ghost use Rattle.std.specs.Prelude.{IfSome, Ok, Some};
ghost use Rattle.line_pieces.specs.Visible.{visible_bytes};
ghost use Rattle.krl_audit.specs.Audit.{name_by};
ghost use Rattle.audit_run.specs.Named.{AreNamed, IsBroken, IsInput, IsNamed, IsOnList};
ghost use Rattle.audit_run.specs.Named.{IsOnNames, IsWaiting, input_after, most_name};
ghost use Rattle.audit_run.specs.Reading.{SomeFailed, left_in};
ghost use Rattle.audit_run.specs.Visits.{Goes, Took, Went, is_whole, refused};

use crate::entries::{Entry, audit_opened, audit_read, audit_target, is_directory};
use crate::file_kind::Opened;
use crate::reading::{Came, Reading, content_of, read_input};
use crate::round::{Round, Screen};
use crate::search::{Search, name_in};
use crate::stop::Stop;
use crate::tree::Tree;
use crate::walk::audit_directory;
use crate::zero_ended::ZeroEnded;
use audit_lines::Refusal;
use byte_streams::Source;
use krl_audit::FileName;
use line_pieces::visible_name;
use std::str;

// The most bytes of a name. Linux opens no path of more.
const NAME_LIMIT: usize = 4_096;

/// Audits the files and directories that the command names, and standard input where it is named.
pub(crate) fn audit_paths<T: Tree, I: Source + Drop, W: Screen>(
    tree: &T,
    round: &mut Round<'_, '_, W>,
    search: Search,
    paths: &[&str],
    input: I,
) -> Result<(), Stop>
    requires { I.has_failed input ≡ false }
    ensures { Went (λ whole. AreNamed (T.states tree.now) (SomeFailed I.has_failed) search whole
        (Some (I.left input)) paths.now) result round.old round.new }
{
    let mut input = Some(input);
    for path in paths {
        audit_named(tree, round, search, *path, &mut input)?;
    }
    Ok(())
}

// Audits a file or a directory that the command names, or standard input. A pipe is waited for.
fn audit_named<T: Tree, I: Source + Drop, W: Screen>(
    tree: &T,
    round: &mut Round<'_, '_, W>,
    search: Search,
    path: &str,
    input: &mut Option<I>,
) -> Result<(), Stop>
    requires { IfSome input.old (λ input. I.has_failed input ≡ false) }
    ensures named { Went (λ whole. IsNamed (T.states tree.now) (SomeFailed I.has_failed) search
        whole path.now (left_in I.left input.old)) result round.old round.new }
    ensures input { left_in I.left input.new ≡ input_after path.now (left_in I.left input.old) }
    ensures working { IfSome input.new (λ input. I.has_failed input ≡ false) }
{
    if path == "-" {
        return audit_input(round, name_in(search, path), input.take());
    }
    let found = tree.look(path, true);
    if is_directory(found) {
        return audit_directory(tree, round, search, path);
    }
    audit_waiting(tree, round, name_in(search, path))
}

// Audits standard input, unless it was read before.
fn audit_input<I: Source + Drop, W: Screen>(
    round: &mut Round<'_, '_, W>,
    name: FileName<'_>,
    input: Option<I>,
) -> Result<(), Stop>
    requires { IfSome input (λ input. I.has_failed input ≡ false) }
    ensures { Goes result (λ _. IsInput (SomeFailed I.has_failed) (left_in I.left input)
        (name_by name.entry)) round.old round.new }
{
    let Some(input) = input else {
        return round.audit_as(None, name, Ok(b""));
    };
    let mut input = input;
    let mut text = round.take_text();
    let read = read_input(&mut input, &mut text)?;
    let done = round.audit_as(None, name, content_of(read, text.as_slice()));
    round.text = text;
    done
}

/// Audits what the command names and is no directory, or says why it cannot. A regular file is
/// audited once.
pub(crate) fn audit_waiting<T: Tree, W: Screen>(
    tree: &T,
    round: &mut Round<'_, '_, W>,
    name: FileName<'_>,
) -> Result<(), Stop>
    ensures { Goes result (λ _. IsWaiting (T.states tree.now) (name_by name.entry)) round.old
        round.new }
{
    let opened = match tree.open(name.shown, None)? {
        Ok(opened) => opened,
        Err(refusal) => return round.audit(name.shown, Err(refusal)),
    };
    let Opened {
        is_file,
        identity,
        file,
    } = opened;
    let text = round.take_text();
    let reading = Reading {
        identity,
        file,
        text,
    };
    if is_file {
        audit_opened(tree, round, name, reading)
    } else {
        audit_read(tree, round, name, None, reading)
    }
}

/// Audits the files and directories whose names a reader gives, each ended by a zero byte. No pipe
/// is waited for. Returns false if the names cannot be read to their end.
pub(crate) fn audit_listed<T: Tree, N: Source + Drop, W: Screen>(
    tree: &T,
    round: &mut Round<'_, '_, W>,
    search: Search,
    names: N,
) -> Result<bool, Stop>
    ensures names { Took (λ result. IsOnNames (T.states tree.now) search (is_whole result)
        (N.left names)) result round.old round.new }
    ensures broken { result ≡ Ok false → IsBroken (SomeFailed N.has_failed) (N.left names) }
{
    let mut reader = ZeroEnded::new(names);
    let mut name = Vec::new(round.auditor.run.alloc);
    'names: loop {
        match reader.next(NAME_LIMIT, &mut name)? {
            Ok(()) => audit_one_listed(tree, round, search, name.as_slice())?,
            Err(Came::All) if name.is_empty() => return Ok(true),
            // The last name lacks its zero byte.
            Err(Came::All) => {
                audit_one_listed(tree, round, search, name.as_slice())?;
                return Ok(true);
            }
            Err(Came::More) => return Ok(false),
            Err(Came::Failed) => return Ok(false),
        }
    }
}

// Audits a file or a directory of a list of names.
fn audit_one_listed<T: Tree, W: Screen>(
    tree: &T,
    round: &mut Round<'_, '_, W>,
    search: Search,
    name: &[u8],
) -> Result<(), Stop>
    ensures { (full : List ℕ) → name.now ≡ take (most_name + 1) full
        → Went (λ whole. IsOnList (T.states tree.now) search whole full) result round.old
        round.new }
{
    if is_too_long(name) {
        return refuse_name(round, front_of(name), Refusal::LongName);
    }
    let Ok(text) = str::from_utf8(name) else {
        return refuse_name(round, name, Refusal::Open);
    };
    audit_text(tree, round, search, text)
}

// Audits a file or a directory of a list of names, whose name can be that of a file.
fn audit_text<T: Tree, W: Screen>(
    tree: &T,
    round: &mut Round<'_, '_, W>,
    search: Search,
    path: &str,
) -> Result<(), Stop>
    ensures { length path.now ≤ most_name
        → Went (λ whole. IsOnList (T.states tree.now) search whole path.now) result round.old
        round.new }
{
    let found = tree.look(path, true);
    if is_directory(found) {
        return audit_directory(tree, round, search, path);
    }
    let entry = Entry {
        name: name_in(search, path),
        by_name: true,
        expected: true,
    };
    audit_target(tree, round, entry, found)
}

/// Whether a name is longer than that of a file.
pub(crate) fn is_too_long(name: &[u8]) -> bool
    ensures { result ≡ nat_lt most_name (length name.now) }
{
    name.len() > NAME_LIMIT
}

/// The front of a name that is too long.
pub(crate) fn front_of(name: &[u8]) -> &[u8]
    requires { most_name < length name.now }
    ensures { result.now ≡ take most_name name.now }
{
    &name[..NAME_LIMIT]
}

/// Says that a name cannot be opened, as the audit shows names that are not UTF-8.
pub(crate) fn refuse_name<W: Screen>(
    round: &mut Round<'_, '_, W>,
    name: &[u8],
    refusal: Refusal,
) -> Result<(), Stop>
    ensures { Goes result (λ _ visits. visits ≡ refused (visible_bytes false name.now) refusal)
        round.old round.new }
{
    let shown = visible_name(round.auditor.run.alloc, name)?;
    round.audit(shown.as_str(), Err(refusal))
}
