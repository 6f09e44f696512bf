//! The chunks of a set: its only one, or those of pages.
ghost use Rattle.std.specs.Prelude.{◌≡◌, ◌^◌, ◌<◌, ◌≤◌, ◌⊎◌, ◌↔◌, [], length, false, All, IsTrue};
ghost use Rattle.std.specs.Prelude.{IfOk, OnOk, OnErr};
ghost use Rattle.std.specs.Option.{option_to_list};
ghost use Rattle.span_sets.specs.Chunk.{lo_of, hi_of, ChunksFrom};
ghost use Rattle.span_sets.specs.Chunks.{Replaces};
ghost use Rattle.span_sets.specs.Storage.{chunks_stored};
ghost use Rattle.span_sets.specs.Pages.{chunks_of};
ghost use Rattle.span_sets.specs.Positions.{IsListFrom, BlockWidened};

use crate::chunk::Chunk;
use crate::page::Page;
use crate::pages::{list_in, put_chunks, put_first, set_bits_in};
use std::alloc::{AllocError, Global};
use std::slice;

/// At most one chunk, which is stored without an allocation, or pages of chunks.
#[derive(Drop)]
pub enum Storage {
    Only(Option<Chunk>),
    Pages(Vec<Page>),
}

impl Storage {
    /// The consecutive chunks in one slice from the first that ends at a number or past it on.
    pub fn list_from(&self, number: u64) -> &[Chunk]
        requires { ChunksFrom 0 (chunks_stored self.now) }
        ensures { IsListFrom (chunks_stored self.now) number result.now }
    {
        match self {
            Storage::Only(only) => list_of(only, number),
            Storage::Pages(pages) => list_in(pages, number),
        }
    }

    /// Replaces all chunks that reach into the numbers from `lo` to `hi` with at most three chunks
    /// that rise. If an allocation fails, nothing changes.
    pub fn put(&mut self, alloc: Global, few: &[Chunk], lo: u64, hi: u64) -> Result<(), AllocError>
        requires order { ChunksFrom 0 (chunks_stored self.old) }
        requires whole { All (λ e. (hi_of e ≤ hi) ⊎ (hi < lo_of e)) (chunks_stored self.old) }
        requires few { (0 < length few.now) × (length few.now ≤ 3)
            × All (λ e. hi_of e ≤ hi) few.now }
        ensures put { OnOk result
            (Replaces (chunks_stored self.old) lo hi few.now (chunks_stored self.new)) }
        ensures refused { OnErr result (chunks_stored self.new ≡ chunks_stored self.old) }
    {
        match self {
            Storage::Only(only) => {
                *self = put_by_one(alloc, *only, few, lo, hi)?;
                Ok(())
            }
            Storage::Pages(pages) => put_chunks(pages, few, lo, hi),
        }
    }

    /// Sets bits in the block of their window, if there is one that they do not fill. Otherwise
    /// nothing changes.
    pub fn set_bits(&mut self, window: u64, bits: u64) -> bool
        requires order { ChunksFrom 0 (chunks_stored self.old) }
        requires window { window < 2 ^ 58 }
        ensures set { IsTrue result
            → BlockWidened (chunks_stored self.old) window bits (chunks_stored self.new) }
        ensures same { result ≡ false → chunks_stored self.new ≡ chunks_stored self.old }
    {
        match self {
            Storage::Only(only) => set_bits_of(only, window, bits),
            Storage::Pages(pages) => set_bits_in(pages, window, bits),
        }
    }
}

// The only chunk, if it ends at a number or past it.
fn list_of(only: &Option<Chunk>, number: u64) -> &[Chunk]
    ensures { IsListFrom (option_to_list only.now) number result.now }
{
    let Some(chunk) = only else {
        return &[];
    };
    if chunk.hi() < number {
        return &[];
    }
    slice::from_ref(chunk)
}

// Sets bits in the only chunk, if it is the block of their window and they do not fill it.
fn set_bits_of(only: &mut Option<Chunk>, window: u64, bits: u64) -> bool
    ensures set { IsTrue result
        → BlockWidened (option_to_list only.old) window bits (option_to_list only.new) }
    ensures same { result ≡ false → only.new ≡ only.old }
{
    let Some(chunk) = *only else {
        return false;
    };
    let Some(wider) = chunk.widened(window, bits) else {
        return false;
    };
    *only = Some(wider);
    true
}

// Adds chunks that rise to the only one. If that one reaches into the numbers from `lo` to `hi`,
// they replace it.
fn put_by_one(
    alloc: Global,
    only: Option<Chunk>,
    few: &[Chunk],
    lo: u64,
    hi: u64,
) -> Result<Storage, AllocError>
    requires order { ChunksFrom 0 (option_to_list only) }
    requires whole { All (λ e. (hi_of e ≤ hi) ⊎ (hi < lo_of e)) (option_to_list only) }
    requires few { (0 < length few.now) × (length few.now ≤ 3)
        × All (λ e. hi_of e ≤ hi) few.now }
    ensures { IfOk result
        (λ storage. Replaces (option_to_list only) lo hi few.now (chunks_stored storage)) }
{
    if few.len() == 1 && !lies_beside(only, lo, hi) {
        return Ok(Storage::Only(Some(few[0])));
    }
    let mut pages = pages_of(alloc, only)?;
    put_chunks(&mut pages, few, lo, hi)?;
    Ok(Storage::Pages(pages))
}

// Whether the only chunk lies beside the numbers from `lo` to `hi`.
fn lies_beside(only: Option<Chunk>, lo: u64, hi: u64) -> bool
    ensures { result ≡ false ↔ All (λ e. (lo ≤ hi_of e) × (lo_of e ≤ hi)) (option_to_list only) }
{
    match only {
        Some(chunk) => chunk.hi() < lo || hi < chunk.lo(),
        None => false,
    }
}

// Pages with the only chunk, if there is one.
fn pages_of(alloc: Global, only: Option<Chunk>) -> Result<Vec<Page>, AllocError>
    ensures { IfOk result (λ pages. chunks_of pages.items ≡ option_to_list only) }
{
    let mut pages = Vec::new(alloc);
    if let Some(chunk) = only {
        put_first(&mut pages, slice::from_ref(&chunk))?;
    }
    Ok(pages)
}
