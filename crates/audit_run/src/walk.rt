//! The directories that an audit enters, one below the other.

ghost use Rattle.std.specs.Prelude.{◌≡◌, ◌∷◌, ◌++◌, [], true, false, is_ok, OnOk, string_bytes};
ghost use Rattle.std.specs.Result.{result_err};
ghost use Rattle.audit_run.specs.Visits.{Goes, Meets, State, Went};
ghost use Rattle.audit_run.specs.Walk.{IsDirectory, IsEntered, IsEnteredBelow, MayTurn, Walked};
ghost use Rattle.audit_run.specs.Walk.{entering, is_settled, level_in, level_of, levels_of};
ghost use Rattle.audit_run.specs.Walk.{no_file};

use crate::entries::audit_entry;
use crate::files::{Since, Skip};
use crate::names::{Directory, names_in};
use crate::round::{Round, Screen};
use crate::search::{Search, search_in, selects_every};
use crate::stop::Stop;
use crate::tree::Tree;
use audit_lines::Refusal;
use std::alloc::AllocError;

/// A directory that was entered, the search in it, and its names that are left, of which the last
/// one is next.
#[derive(Drop)]
pub(crate) struct Entered {
    path: String,
    search: Search,
    names: Vec<Vec<u8>>,
}

/// Audits a directory that is named, and all below it. One that gives no file is not read, unless
/// all files are read and there is none.
pub(crate) fn audit_directory<T: Tree, W: Screen>(
    tree: &T,
    round: &mut Round<'_, '_, W>,
    search: Search,
    path: &str,
) -> Result<(), Stop>
    ensures { Went (λ whole. IsDirectory (T.states tree.now) search whole path.now) result
        round.old round.new }
{
    round.since = Since::NOTHING;
    let mut entered = Vec::new(round.auditor.run.alloc);
    let named = String::from_str(round.auditor.run.alloc, path)?;
    let first = enter(tree, round, search, true, named)?;
    push_below(&mut entered, first)?;
    walk(tree, round, search, path, entered)
}

// Goes on with the walk of a directory that is named, from the directories that were entered.
fn walk<T: Tree, W: Screen>(
    tree: &T,
    round: &mut Round<'_, '_, W>,
    search: Search,
    path: &str,
    entered: Vec<Entered>,
) -> Result<(), Stop>
    ensures { (begun : State)
        → Walked (T.states tree.now) search path.now 0 (levels_of entered.items) (entering begun)
        round.old
        → Went (λ whole. IsDirectory (T.states tree.now) search whole path.now) result begun
        round.new }
{
    let mut entered = entered;
    // A bound that no tree reaches, so that this ends whatever the tree answers.
    'turns: for _turn in 0..u64::MAX {
        let Some(last) = entered.pop() else {
            return end_directory(round, search, path);
        };
        take_turn(tree, round, search, last, &mut entered)?;
    }
    round.audit(path, Err(Refusal::Read))
}

// Goes to the next name of the directory that was entered last, or leaves it.
fn take_turn<T: Tree, W: Screen>(
    tree: &T,
    round: &mut Round<'_, '_, W>,
    search: Search,
    last: Entered,
    entered: &mut Vec<Entered>,
) -> Result<(), Stop>
    ensures { Goes result (λ _. MayTurn (is_ok result) (T.states tree.now) search
        (levels_of entered.old.items ++ level_of last ∷ []) (levels_of entered.new.items))
        round.old round.new }
{
    let mut last = last;
    let Some(name) = last.names.pop() else {
        return Ok(());
    };
    let place = Directory {
        path: last.path.as_str(),
        search: last.search,
    };
    let below = audit_entry(tree, round, place, name.as_slice())?;
    push_entered(entered, last)?;
    let Some(path) = below else {
        return Ok(());
    };
    let next = enter_below(tree, round, search, path)?;
    push_below(entered, next)?;
    Ok(())
}

// Enters a directory that was found, unless it is on another file system and the audit stays on
// one, or says why it cannot be entered.
fn enter_below<T: Tree, W: Screen>(
    tree: &T,
    round: &mut Round<'_, '_, W>,
    search: Search,
    path: String,
) -> Result<Option<Entered>, Stop>
    ensures { Goes result (λ level visits. IsEnteredBelow (T.states tree.now) search
        (string_bytes path) visits (level_in level)) round.old round.new }
{
    if tree.is_elsewhere(path.as_str()) {
        round.skip(Skip::Elsewhere, 1);
        return Ok(None);
    }
    enter(tree, round, search, false, path)
}

// Enters a directory that is named or was found, or says why it cannot be entered.
fn enter<T: Tree, W: Screen>(
    tree: &T,
    round: &mut Round<'_, '_, W>,
    search: Search,
    named: bool,
    path: String,
) -> Result<Option<Entered>, Stop>
    ensures { Goes result (λ level visits. IsEntered (T.states tree.now) search named
        (string_bytes path) visits (level_in level)) round.old round.new }
{
    let search = search_in(search, path.as_str());
    let place = Directory {
        path: path.as_str(),
        search,
    };
    let names = names_in(tree, round, place, named)?;
    match names {
        Ok(listing) => {
            round.skip(Skip::ByName, listing.skipped);
            let mut names = listing.names;
            names.reverse();
            Ok(Some(Entered {
                path,
                search,
                names,
            }))
        }
        Err(refusal) => {
            round.audit(path.as_str(), Err(refusal))?;
            Ok(None)
        }
    }
}

// Ends the audit of a directory that is named.
fn end_directory<W: Screen>(
    round: &mut Round<'_, '_, W>,
    search: Search,
    path: &str,
) -> Result<(), Stop>
    ensures { Meets (no_file search path.now round.old.since.gave round.old.since.passed)
        (result_err result) round.old round.new }
{
    if is_settled(search, round.since) {
        Ok(())
    } else {
        round.audit(path, Err(Refusal::NoFile))
    }
}

// Puts a directory on top of those that were entered.
fn push_entered(entered: &mut Vec<Entered>, last: Entered) -> Result<(), AllocError>
    ensures { OnOk result (levels_of entered.new.items
        ≡ levels_of entered.old.items ++ level_of last ∷ []) }
{
    entered.push(last)?;
    Ok(())
}

// Puts a directory on top of those that were entered, if it was entered.
fn push_below(entered: &mut Vec<Entered>, below: Option<Entered>) -> Result<(), AllocError>
    ensures { OnOk result (levels_of entered.new.items
        ≡ levels_of entered.old.items ++ level_in below) }
{
    match below {
        Some(last) => push_entered(entered, last),
        None => Ok(()),
    }
}

// Whether a directory that is named gave a file, or all files are read and there is none.
fn is_settled(search: Search, since: Since) -> bool
    ensures { result ≡ is_settled search since.gave since.passed }
{
    since.gave || (selects_every(search) && !since.passed)
}
