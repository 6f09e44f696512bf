//! Key IDs.
ghost use Rattle.std.specs.Prelude.{◌≡◌, ◌<◌, ◌↔◌, [], Contains, IfOk, IsTrue, MatchOption};
ghost use Rattle.std.specs.Prelude.{OnErr, OnOk, Some, length, slice_get};
ghost use Rattle.krl_entries.specs.Changes.{Puts};
ghost use Rattle.krl_entries.specs.Ids.{GoesTo};
ghost use Rattle.krl_entries.specs.Rising.{RisesBy, bytes_cmp};
ghost use Rattle.krl_entries.specs.Texts.{bytes_of, texts_of};

use crate::texts::{Texts, has_text, put_text};
use std::alloc::{AllocError, Global};
use std::cmp::Ordering;
use std::collections::BTreeSet;
use std::marker::Model;

// The largest number of key IDs in one vector. A set that is filled in order is half empty, so the
// same key IDs take nearly twice as much memory there. Beyond 256 most key IDs have at least two
// bytes, so a list has room for fewer of them.
const FEW: usize = 256;

// A few key IDs in order, or more of them in a set.
#[derive(Drop)]
pub(crate) enum Representation {
    Few(Vec<Vec<u8>>),
    Many(BTreeSet<Vec<u8>>),
}

/// A set of key IDs. Most authorities have few or none. Contracts see the list of them, in order.
#[derive(Drop)]
pub struct Ids {
    representation: Representation,
}

impl Model for Ids {
    ghost use Rattle.std.specs.Prelude.{ℕ, List};
    ghost use Rattle.krl_entries.specs.Ids.{FewRise, ids_of};

    ghost Value = { List (List ℕ) };

    ghost view = { λ ids. ids_of ids.representation };

    ghost invariant = { λ ids. FewRise ids.representation };
}

impl Ids {
    // No key IDs. Allocates nothing.
    pub(crate) fn new(alloc: Global) -> Ids
        ensures { result ≡ [] }
    {
        Ids {
            representation: Representation::Few(Vec::new(alloc)),
        }
    }

    // How many key IDs there are.
    pub(crate) fn len(&self) -> usize
        ensures { result ≡ length self.now }
    {
        match &self.representation {
            Representation::Few(few) => few.len(),
            Representation::Many(set) => set.len(),
        }
    }

    // Whether the set contains the key ID.
    pub(crate) fn has(&self, id: &[u8]) -> bool
        ensures { IsTrue result ↔ Contains self.now id.now }
    {
        match &self.representation {
            Representation::Few(few) => matches!(place_in(few.as_slice(), id), None),
            Representation::Many(set) => has_text(set, id),
        }
    }

    // The key ID at an index. If there are many, the call visits those before it.
    pub(crate) fn at(&self, index: usize) -> &[u8]
        requires { index < length self.now }
        ensures { slice_get self.now index ≡ Some result.now }
    {
        match &self.representation {
            Representation::Few(few) => few[index].as_slice(),
            Representation::Many(set) => Texts::many(set).at(index),
        }
    }

    // The key IDs, in the order of their bytes.
    pub(crate) fn iter(&self) -> Texts<'_>
        ensures { result ≡ self.now }
    {
        match &self.representation {
            Representation::Few(few) => Texts::few(few.as_slice()),
            Representation::Many(set) => Texts::many(set),
        }
    }

    // Adds a key ID, unless the set contains it.
    pub(crate) fn put(&mut self, alloc: Global, id: &[u8]) -> Result<(), AllocError>
        ensures ok { OnOk result (Puts self.old id.now self.new) }
        ensures refused { OnErr result (self.new ≡ self.old) }
    {
        match &mut self.representation {
            Representation::Many(set) => put_text(alloc, set, id),
            Representation::Few(few) => {
                if few.len() < FEW {
                    return put_few(alloc, few, id);
                }
                self.representation = Representation::Many(spread(alloc, few.as_slice(), id)?);
                Ok(())
            }
        }
    }
}

// The index at which a byte string belongs among a few in order, or `None` if it is one of them.
fn place_in(few: &[Vec<u8>], id: &[u8]) -> Option<usize>
    requires { RisesBy bytes_of few.now }
    ensures { MatchOption result (Contains (texts_of few.now) id.now)
        (λ at. GoesTo at id.now few.now) }
{
    few.binary_search_by(
        |text: &Vec<u8>| -> Ordering
            ensures { result ≡ bytes_cmp text.now.items id.entry.now }
        { compare(text.as_slice(), id) },
    )
    .err()
}

// Inserts a key ID into the vector at its place, unless the vector contains it.
fn put_few(alloc: Global, few: &mut Vec<Vec<u8>>, id: &[u8]) -> Result<(), AllocError>
    requires { RisesBy bytes_of few.old.items }
    ensures rise { RisesBy bytes_of few.new.items }
    ensures ok { OnOk result (Puts (texts_of few.old.items) id.now (texts_of few.new.items)) }
    ensures refused { OnErr result (few.new.items ≡ few.old.items) }
{
    let Some(at) = place_in(few.as_slice(), id) else {
        return Ok(());
    };
    grow(few)?;
    few.insert(at, Vec::from_slice(alloc, id)?)?;
    Ok(())
}

// Makes room for a quarter more, and at least four, if the vector is full. There are many such
// vectors, so unused room in each of them takes much memory.
fn grow(few: &mut Vec<Vec<u8>>) -> Result<(), AllocError>
    ensures { few.new.items ≡ few.old.items }
{
    if few.len() == few.capacity() {
        few.reserve_exact((few.len() / 4).max(4))?;
    }
    Ok(())
}

// A set of a few byte strings in order, and one more.
fn spread(alloc: Global, few: &[Vec<u8>], id: &[u8]) -> Result<BTreeSet<Vec<u8>>, AllocError>
    requires { RisesBy bytes_of few.now }
    ensures { IfOk result (λ set. Puts (texts_of few.now) id.now (texts_of set.keys)) }
{
    let mut texts = few.to_vec(alloc)?;
    put_few(alloc, &mut texts, id)?;
    BTreeSet::from_iter(alloc, texts)
}

// Compares two slices with one lifetime, as the comparison of slices requires.
fn compare<'a>(left: &'a [u8], right: &'a [u8]) -> Ordering
    ensures { result ≡ bytes_cmp left.now right.now }
{
    Ord::cmp(&left, &right)
}
