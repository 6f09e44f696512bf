//! A page of chunks.
ghost use Rattle.std.specs.Prelude.{◌≡◌, ◌+◌, ◌*◌, ◌^◌, ◌<◌, ◌≤◌, ◌⊎◌, ◌∷◌, ◌++◌, [], length, take};
ghost use Rattle.std.specs.Prelude.{drop, false, All, IsTrue, IfOk, OnOk, OnErr};
ghost use Rattle.std.specs.Vec.{vec_len};
ghost use Rattle.span_sets.specs.Chunk.{lo_of, hi_of, ChunksFrom};
ghost use Rattle.span_sets.specs.Chunks.{Replaces};
ghost use Rattle.span_sets.specs.Positions.{end_of, CutTo, BlockWidened};

use crate::chunk::Chunk;
use crate::row::{insert_at, remove};
use crate::search::{HasEnd, count_ending_below, count_ending_upto};
use std::alloc::{AllocError, Global};

/// The maximum number of chunks of a page.
const PAGE_LEN: usize = 256;

// The maximum number of chunks that replace others in one change.
const MOST_NEW: usize = 3;

/// From 1 to 256 chunks, and the end of the last one.
#[derive(Drop)]
pub struct Page {
    items: Vec<Chunk>,
    end: u64,
    ghost some: { 0 < length items.items },
    ghost most: { length items.items ≤ 256 },
    ghost ending: { end ≡ end_of items.items },
}

impl Page {
    ghost use Rattle.span_sets.specs.Pages.{chunks_in};

    /// A page with exactly these chunks.
    pub fn of(alloc: Global, chunks: &[Chunk]) -> Result<Page, AllocError>
        requires some { 0 < length chunks.now }
        requires most { length chunks.now ≤ 256 }
        ensures { IfOk result (λ page. chunks_in page ≡ chunks.now) }
    {
        let items = Vec::from_slice(alloc, chunks)?;
        let end = last_end(&items);
        Ok(Page { items, end })
    }

    /// Its chunks.
    pub fn as_slice(&self) -> &[Chunk]
        ensures { result.now ≡ chunks_in self.now }
    {
        &self.items
    }

    /// Whether it has room for the chunks that one change adds.
    pub fn has_room(&self) -> bool
        ensures room { IsTrue result → length (chunks_in self.now) ≤ 253 }
        ensures full { result ≡ false → 253 < length (chunks_in self.now) }
    {
        self.items.len() <= PAGE_LEN - MOST_NEW
    }

    /// Replaces all chunks that reach into the numbers from `lo` to `hi` with at most three chunks
    /// that rise. `hi` splits no chunk.
    pub fn put(&mut self, few: &[Chunk], lo: u64, hi: u64) -> Result<(), AllocError>
        requires order { ChunksFrom 0 (chunks_in self.old) }
        requires whole { All (λ e. (hi_of e ≤ hi) ⊎ (hi < lo_of e)) (chunks_in self.old) }
        requires room { length (chunks_in self.old) ≤ 253 }
        requires few { (0 < length few.now) × (length few.now ≤ 3) }
        ensures put { OnOk result
            (Replaces (chunks_in self.old) lo hi few.now (chunks_in self.new)) }
        ensures refused { OnErr result (chunks_in self.new ≡ chunks_in self.old) }
    {
        let chunks = self.as_slice();
        let from = count_ending_below(chunks, lo);
        let to = from + count_ending_upto(&chunks[from..], hi);
        self.splice(from, to, few)
    }

    // Replaces the chunks from one position to another.
    fn splice(&mut self, from: usize, to: usize, few: &[Chunk]) -> Result<(), AllocError>
        requires order { from ≤ to }
        requires within { to ≤ length (chunks_in self.old) }
        requires room { length (chunks_in self.old) ≤ 253 }
        requires few { (0 < length few.now) × (length few.now ≤ 3) }
        ensures put { OnOk result (chunks_in self.new
            ≡ take from (chunks_in self.old) ++ (few.now ++ drop to (chunks_in self.old))) }
        ensures refused { OnErr result (chunks_in self.new ≡ chunks_in self.old) }
    {
        if from == to && few.len() == 1 {
            return self.put_between(from, few[0]);
        }
        self.put_more(from, to, few)
    }

    // Inserts one chunk.
    fn put_between(&mut self, at: usize, new: Chunk) -> Result<(), AllocError>
        requires within { at ≤ length (chunks_in self.old) }
        requires room { length (chunks_in self.old) ≤ 253 }
        ensures put { OnOk result (chunks_in self.new
            ≡ take at (chunks_in self.old) ++ new ∷ drop at (chunks_in self.old)) }
        ensures refused { OnErr result (chunks_in self.new ≡ chunks_in self.old) }
    {
        grow(&mut self.items)?;
        insert_at(&mut self.items, at, new)?;
        self.end = last_end(&self.items);
        Ok(())
    }

    // Replaces chunks as `splice` does, for any number of them, by building a new vector.
    fn put_more(&mut self, from: usize, to: usize, few: &[Chunk]) -> Result<(), AllocError>
        requires order { from ≤ to }
        requires within { to ≤ length (chunks_in self.old) }
        requires room { length (chunks_in self.old) ≤ 253 }
        requires few { (0 < length few.now) × (length few.now ≤ 3) }
        ensures put { OnOk result (chunks_in self.new
            ≡ take from (chunks_in self.old) ++ few.now ++ drop to (chunks_in self.old)) }
        ensures refused { OnErr result (chunks_in self.new ≡ chunks_in self.old) }
    {
        let left = self.items.len() - to;
        let mut items = Vec::with_capacity(*self.items.allocator(), from + few.len() + left)?;
        items.extend_from_slice(&self.items[..from])?;
        items.extend_from_slice(few)?;
        items.extend_from_slice(&self.items[to..])?;
        let end = last_end(&items);
        *self = Page { items, end };
        Ok(())
    }

    /// Sets bits in the block of their window, if there is one that they do not fill. Otherwise
    /// nothing changes.
    pub fn set_bits(&mut self, window: u64, bits: u64) -> bool
        requires order { ChunksFrom 0 (chunks_in self.old) }
        requires window { window < 2 ^ 58 }
        ensures set { IsTrue result
            → BlockWidened (chunks_in self.old) window bits (chunks_in self.new) }
        ensures same { result ≡ false → chunks_in self.new ≡ chunks_in self.old }
    {
        let at = count_ending_below(self.as_slice(), 64 * window);
        if at >= self.items.len() {
            return false;
        }
        let Some(wider) = self.items[at].widened(window, bits) else {
            return false;
        };
        self.items[at] = wider;
        true
    }

    /// Moves the back of the page into a new page. Near an end the page is split at the place of a
    /// chunk at `lo`, so that pages that are filled in order stay full, and otherwise in the
    /// middle. Both have room then.
    pub fn split(&mut self, lo: u64) -> Result<Page, AllocError>
        requires order { ChunksFrom 0 (chunks_in self.old) }
        requires full { 253 < length (chunks_in self.old) }
        ensures whole { IfOk result (λ back.
            chunks_in self.old ≡ chunks_in self.new ++ chunks_in back) }
        ensures room { OnOk result (length (chunks_in self.new) ≤ 253) }
        ensures back { IfOk result (λ back. length (chunks_in back) ≤ 253) }
        ensures refused { OnErr result (chunks_in self.new ≡ chunks_in self.old) }
    {
        let chunks = self.as_slice();
        let at = cut_position(count_ending_below(chunks, lo), chunks.len());
        let back = Page::of(*self.items.allocator(), &chunks[at..])?;
        self.keep_front(at);
        Ok(back)
    }

    // Keeps the first chunks.
    fn keep_front(&mut self, count: usize)
        requires some { 0 < count }
        requires within { count ≤ length (chunks_in self.old) }
        ensures { chunks_in self.new ≡ take count (chunks_in self.old) }
    {
        self.items.truncate(count);
        self.items.shrink_to_fit();
        self.end = last_end(&self.items);
    }

    /// Removes the chunks up to a number that splits none of them and is not past the last.
    pub fn cut_to(&mut self, number: u64)
        requires order { ChunksFrom 0 (chunks_in self.old) }
        requires whole { All (λ e. (hi_of e ≤ number) ⊎ (number < lo_of e))
            (chunks_in self.old) }
        requires past { number < end_of (chunks_in self.old) }
        ensures { CutTo (chunks_in self.old) number (chunks_in self.new) }
    {
        let count = count_ending_upto(self.as_slice(), number);
        self.cut_front(count);
    }

    // Removes the first chunks.
    fn cut_front(&mut self, count: usize)
        requires { count < length (chunks_in self.old) }
        ensures { chunks_in self.new ≡ drop count (chunks_in self.old) }
    {
        remove(&mut self.items, 0, count);
    }
}

impl HasEnd for Page {
    ghost use Rattle.span_sets.specs.Pages.{chunks_in};

    ghost end = { λ page. end_of (chunks_in page) };

    fn end(&self) -> u64 {
        self.end
    }
}

// The end of the last chunk.
fn last_end(items: &[Chunk]) -> u64
    requires { 0 < length items.now }
    ensures { result ≡ end_of items.now }
{
    items[items.len() - 1].hi()
}

// Makes room for a quarter more if there is none: there are many pages, and unused room in each of
// them costs memory.
fn grow(items: &mut Vec<Chunk>) -> Result<(), AllocError>
    ensures { items.new.items ≡ items.old.items }
{
    if items.len() == items.capacity() {
        items.reserve_exact((items.len() / 4).max(4))?;
    }
    Ok(())
}

// Where to split a full page of `len` chunks for a new one at `at`: there, if that is near an end,
// and otherwise in the middle. Both sides have room for a change, and neither is empty.
fn cut_position(at: usize, len: usize) -> usize
    requires { 6 ≤ len }
    ensures front { 3 ≤ result }
    ensures back { result + 3 ≤ len }
{
    let edge = len / 8;
    if at <= edge {
        at.max(3)
    } else if at >= len - edge {
        at.min(len - 3)
    } else {
        len / 2
    }
}
