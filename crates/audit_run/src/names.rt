//! The names of a directory that an audit goes to.

ghost use Rattle.std.specs.Prelude.{◌≡◌, ◌+◌, ◌∷◌, ◌++◌, [], ℕ, List, IfOk, OnOk};
ghost use Rattle.audit_run.specs.Names.{AreFound, IsWanted, MayBeDirectory, MayBeWanted};
ghost use Rattle.audit_run.specs.Names.{capped, is_dots, is_never, may_be_behind, passed_over};
ghost use Rattle.audit_run.specs.Search.{selects_every};
ghost use Rattle.audit_run.specs.Walk.{IsNamesOf};

use crate::entries::is_directory;
use crate::file_kind::Found;
use crate::paths::path_in;
use crate::reading::Came;
use crate::round::{Round, Screen};
use crate::search::{Search, selects_every};
use crate::selection::{Selection, is_sought, selection_of};
use crate::sorting::sort_names;
use crate::tree::Tree;
use crate::zero_ended::ZeroEnded;
use audit_lines::Refusal;
use std::alloc::{AllocError, Global};
use std::str;

/// A directory, and the search in it.
#[derive(Clone, Copy)]
pub(crate) struct Directory<'p> {
    pub(crate) path: &'p str,
    pub(crate) search: Search,
}

/// The names of a directory that an audit goes to, and how many others there are.
#[derive(Drop)]
pub(crate) struct Listing {
    pub(crate) names: Vec<Vec<u8>>,
    pub(crate) skipped: u64,
}

/// The names that an audit goes to of a directory that is named or was found, in their order, or
/// why they are not known.
pub(crate) fn names_in<T: Tree, W: Screen>(
    tree: &T,
    round: &mut Round<'_, '_, W>,
    place: Directory<'_>,
    named: bool,
) -> Result<Result<Listing, Refusal>, AllocError>
    ensures names { IfOk result (IsNamesOf (T.states tree.now)
        (selects_every place.entry.search) place.entry.path.now named) }
    ensures kept { round.new ≡ round.old }
{
    let alloc = round.auditor.run.alloc;
    let entered = tree.enter(place.path, named)?;
    let names = match entered {
        Ok(names) => names,
        Err(refusal) => return Ok(Err(refusal)),
    };
    let mut reader = ZeroEnded::new(names);
    let mut listing = Listing {
        names: Vec::new(alloc),
        skipped: 0,
    };
    'names: loop {
        let mut name = Vec::new(alloc);
        match reader.next(usize::MAX, &mut name)? {
            Ok(()) => take_name(alloc, tree, place, name, &mut listing)?,
            Err(Came::All) => {
                sort_names(&mut listing.names);
                return Ok(Ok(listing));
            }
            Err(Came::More) => return Ok(Err(Refusal::TooLong)),
            Err(Came::Failed) => {
                return Ok(Err(tree.why_broken(place.path, named, reader.source())));
            }
        }
        round.show();
    }
}

// Keeps a name if it may be read, or counts it.
fn take_name<T: Tree>(
    alloc: Global,
    tree: &T,
    place: Directory<'_>,
    name: Vec<u8>,
    listing: &mut Listing,
) -> Result<(), AllocError>
    ensures { let every = selects_every place.entry.search in
        (names : List (List ℕ)) → AreFound (T.states tree.now) every place.entry.path.now names
        listing.old → OnOk result (AreFound (T.states tree.now) every place.entry.path.now
        (names ++ name.items ∷ []) listing.new) }
{
    let wanted = is_wanted(alloc, tree, place, name.as_slice())?;
    if wanted {
        listing.names.push(name)?;
        return Ok(());
    }
    listing.skipped = with_passed(listing.skipped, name.as_slice());
    Ok(())
}

// A number of names that are passed over, with this one.
fn with_passed(skipped: u64, name: &[u8]) -> u64
    ensures { result ≡ capped (skipped + passed_over name.now) }
{
    if is_dots(name) {
        skipped
    } else {
        skipped.saturating_add(1)
    }
}

// Whether an audit goes to a name of a directory: by its name, or since it may be a directory. One
// that the command excludes is not looked at, and counted when it comes.
fn is_wanted<T: Tree>(
    alloc: Global,
    tree: &T,
    place: Directory<'_>,
    name: &[u8],
) -> Result<bool, AllocError>
    ensures { IfOk result (λ wanted. IsWanted (T.states tree.now)
        (selects_every place.entry.search) place.entry.path.now wanted name.now) }
{
    if is_dots(name) {
        return Ok(false);
    }
    if tree.is_excluded(name) {
        return Ok(true);
    }
    if !is_never(selection_of(selects_every(place.search), name)) {
        return Ok(true);
    }
    let Ok(text) = str::from_utf8(name) else {
        return Ok(true);
    };
    let path = path_in(alloc, place.path, text)?;
    Ok(may_be_directory(tree, path.as_str(), is_sought(name)))
}

// Whether a path is that of a directory, leads to one whose files are looked for, or cannot be
// looked at.
fn may_be_directory<T: Tree>(tree: &T, path: &str, sought: bool) -> bool
    ensures { MayBeDirectory (T.states tree.now) sought path.now result }
{
    match tree.look(path, false) {
        Ok(found) if found.kind.is_link() => may_be_wanted(tree, path, sought),
        Ok(found) => found.kind.is_directory(),
        Err(_) => true,
    }
}

// Whether a link leads to a directory whose files are looked for, by its own name or that of the
// directory, or cannot be looked at.
fn may_be_wanted<T: Tree>(tree: &T, path: &str, sought: bool) -> bool
    ensures { MayBeWanted (T.states tree.now) sought path.now result }
{
    let behind = tree.look(path, true);
    if !is_directory(behind) {
        return may_be_behind(behind);
    }
    let leads = tree.leads_to_sought(path);
    sought || leads
}

// Whether a link that is not known to lead to a directory may lead to one. One that leads to
// nothing leads to no directory.
fn may_be_behind(behind: Result<Found, Refusal>) -> bool
    ensures { result ≡ may_be_behind behind }
{
    match behind {
        Ok(_) => false,
        Err(Refusal::Missing) => false,
        Err(_) => true,
    }
}

// Whether a name is that of the directory itself, or of the one that it is in.
fn is_dots(name: &[u8]) -> bool
    ensures { result ≡ is_dots name.now }
{
    name == b".".as_slice() || name == b"..".as_slice()
}

/// Whether no file is read by its name.
pub(crate) fn is_never(selection: Selection) -> bool
    ensures { result ≡ is_never selection }
{
    match selection {
        Selection::Always | Selection::IfPrivate => false,
        Selection::Never => true,
    }
}
