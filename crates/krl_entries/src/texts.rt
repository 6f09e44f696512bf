//! Sets of byte strings, and an iterator over them, in order.
ghost use Rattle.std.specs.Prelude.{◌≡◌, ◌<◌, ◌↔◌, Contains, IsTrue, OnErr, OnOk, Some, length};
ghost use Rattle.std.specs.Prelude.{slice_get};
ghost use Rattle.krl_entries.specs.Changes.{Puts};
ghost use Rattle.krl_entries.specs.Texts.{texts_of};

use std::alloc::{AllocError, Global};
use std::collections::BTreeSet;
use std::collections::btree_set::Iter;
use std::marker::Model;

// Whether a byte string is in a set.
pub(crate) fn has_text(set: &BTreeSet<Vec<u8>>, text: &[u8]) -> bool
    ensures { IsTrue result ↔ Contains (texts_of set.now.keys) text.now }
{
    set.contains(text)
}

// Adds a byte string to a set, unless the set contains it.
pub(crate) fn put_text(
    alloc: Global,
    set: &mut BTreeSet<Vec<u8>>,
    text: &[u8],
) -> Result<(), AllocError>
    ensures ok { OnOk result (Puts (texts_of set.old.keys) text.now (texts_of set.new.keys)) }
    ensures refused { OnErr result (set.new.keys ≡ set.old.keys) }
{
    set.insert(Vec::from_slice(alloc, text)?)?;
    Ok(())
}

// The source of the byte strings.
#[derive(Drop)]
pub(crate) enum Origin<'a> {
    Few(&'a [Vec<u8>]),
    Many(Iter<'a, Vec<u8>>),
    Sha1s(Iter<'a, [u8; 20]>),
    Sha256s(Iter<'a, [u8; 32]>),
}

/// An iterator over byte strings, in order. Contracts see the list of those that are left.
#[derive(Drop)]
pub struct Texts<'a> {
    origin: Origin<'a>,
}

impl<'a> Model for Texts<'a> {
    ghost use Rattle.std.specs.Prelude.{ℕ, List};
    ghost use Rattle.krl_entries.specs.Texts.{texts_left};

    ghost Value = { List (List ℕ) };

    ghost view = { λ texts. texts_left texts.origin };
}

impl<'a> Texts<'a> {
    // An iterator over the byte strings of a vector.
    pub(crate) fn few(texts: &'a [Vec<u8>]) -> Texts<'a>
        ensures { result ≡ texts_of texts.now }
    {
        Texts {
            origin: Origin::Few(texts),
        }
    }

    // An iterator over the byte strings of a set.
    pub(crate) fn many(texts: &'a BTreeSet<Vec<u8>>) -> Texts<'a>
        ensures { result ≡ texts_of texts.now.keys }
    {
        Texts {
            origin: Origin::Many(texts.iter()),
        }
    }

    // An iterator over SHA-1 hashes.
    pub(crate) fn sha1s(hashes: &'a BTreeSet<[u8; 20]>) -> Texts<'a>
        ensures { result ≡ hashes.now.keys }
    {
        Texts {
            origin: Origin::Sha1s(hashes.iter()),
        }
    }

    // An iterator over SHA-256 hashes.
    pub(crate) fn sha256s(hashes: &'a BTreeSet<[u8; 32]>) -> Texts<'a>
        ensures { result ≡ hashes.now.keys }
    {
        Texts {
            origin: Origin::Sha256s(hashes.iter()),
        }
    }

    // The byte string at an index. The call visits those before it.
    pub(crate) fn at(self, index: usize) -> &'a [u8]
        requires { index < length self }
        ensures { slice_get self.entry index ≡ Some result.now }
    {
        let mut left = index;
        for text in self {
            if left == 0 {
                return text;
            }
            left -= 1;
        }
        unreachable!()
    }
}

impl<'a> Iterator for Texts<'a> {
    ghost use Rattle.std.specs.Iterator.{YieldsFirstRef, item_count};

    type Item = &'a [u8];

    ghost next_gives = { YieldsFirstRef (λ texts. texts) };

    ghost remaining = { item_count (λ texts. texts) };

    fn next(&mut self) -> Option<&'a [u8]> {
        match &mut self.origin {
            Origin::Few(texts) => {
                let (first, rest) = texts.split_first()?;
                *texts = rest;
                Some(first.as_slice())
            }
            Origin::Many(iter) => {
                let text = iter.next()?;
                Some(text.as_slice())
            }
            Origin::Sha1s(iter) => {
                let hash = iter.next()?;
                Some(hash.as_slice())
            }
            Origin::Sha256s(iter) => {
                let hash = iter.next()?;
                Some(hash.as_slice())
            }
        }
    }
}
