//! A vector of pages of chunks.
ghost use Rattle.std.specs.Prelude.{◌≡◌, ◌+◌, ◌*◌, ◌^◌, ◌<◌, ◌≤◌, ◌⊎◌, ◌++◌, [], ℕ, length, take};
ghost use Rattle.std.specs.Prelude.{drop, slice_index_or, false, All, IsTrue, IfOk, OnOk, OnErr};
ghost use Rattle.std.specs.Vec.{vec_len};
ghost use Rattle.span_sets.specs.declared.page.Page.{Page};
ghost use Rattle.span_sets.specs.Chunk.{lo_of, hi_of, ChunksFrom};
ghost use Rattle.span_sets.specs.Chunks.{Replaces};
ghost use Rattle.span_sets.specs.Pages.{chunks_in, chunks_of, IsPageFor, IsSplit};
ghost use Rattle.span_sets.specs.Positions.{end_of, CutTo, IsListFrom, BlockWidened};

use crate::chunk::Chunk;
use crate::page::Page;
use crate::row::{insert_at, remove};
use crate::search::{HasEnd, count_ending_below, count_ending_upto};
use std::alloc::AllocError;

// How many pages end before a number.
fn pages_ending_below(pages: &[Page], number: u64) -> usize
    requires { ChunksFrom 0 (chunks_of pages.now) }
    ensures within { result ≤ length pages.now }
    ensures below { All (λ e. hi_of e < number) (chunks_of (take result pages.now)) }
    ensures reach { All (λ page. number ≤ end_of (chunks_in page)) (drop result pages.now) }
{
    count_ending_below(pages, number)
}

// How many pages end at a number or below it.
fn pages_ending_upto(pages: &[Page], number: u64) -> usize
    requires { ChunksFrom 0 (chunks_of pages.now) }
    ensures within { result ≤ length pages.now }
    ensures upto { All (λ e. hi_of e ≤ number) (chunks_of (take result pages.now)) }
    ensures past { All (λ page. number < end_of (chunks_in page)) (drop result pages.now) }
{
    count_ending_upto(pages, number)
}

/// The consecutive chunks in one page from the first that ends at a number or past it on.
pub fn list_in(pages: &[Page], number: u64) -> &[Chunk]
    requires { ChunksFrom 0 (chunks_of pages.now) }
    ensures { IsListFrom (chunks_of pages.now) number result.now }
{
    let at = pages_ending_below(pages, number);
    if at >= pages.len() {
        return &[];
    }
    list_in_page(&pages[at], number)
}

// The chunks of one page from the first that ends at a number or past it on.
fn list_in_page(page: &Page, number: u64) -> &[Chunk]
    requires { ChunksFrom 0 (chunks_in page.now) }
    ensures { (at : ℕ) × ((result.now ≡ drop at (chunks_in page.now))
        × All (λ e. hi_of e < number) (take at (chunks_in page.now))
        × All (λ e. number ≤ hi_of e) (drop at (chunks_in page.now))) }
{
    let chunks = page.as_slice();
    &chunks[count_ending_below(chunks, number)..]
}

// The page for chunks from `lo` on: the first that does not end before, or the last.
fn page_for(pages: &[Page], lo: u64) -> usize
    requires order { ChunksFrom 0 (chunks_of pages.now) }
    requires some { 0 < length pages.now }
    ensures within { result < length pages.now }
    ensures below { All (λ e. hi_of e < lo) (chunks_of (take result pages.now)) }
    ensures after { All (λ e. lo ≤ hi_of e) (chunks_of (drop (result + 1) pages.now)) }
{
    pages_ending_below(pages, lo).min(pages.len() - 1)
}

/// Replaces all chunks that reach into the numbers from `lo` to `hi` with at most three chunks that
/// rise. If an allocation fails, nothing changes.
pub fn put_chunks(pages: &mut Vec<Page>, few: &[Chunk], lo: u64, hi: u64) -> Result<(), AllocError>
    requires order { ChunksFrom 0 (chunks_of pages.old.items) }
    requires whole { All (λ e. (hi_of e ≤ hi) ⊎ (hi < lo_of e)) (chunks_of pages.old.items) }
    requires few { (0 < length few.now) × (length few.now ≤ 3)
        × All (λ e. hi_of e ≤ hi) few.now }
    ensures put { OnOk result
        (Replaces (chunks_of pages.old.items) lo hi few.now (chunks_of pages.new.items)) }
    ensures refused { OnErr result
        (chunks_of pages.new.items ≡ chunks_of pages.old.items) }
{
    if pages.is_empty() {
        put_first(pages, few)?;
        return Ok(());
    }
    let at = make_room(pages, lo)?;
    put_in(pages, at, few, lo, hi)
}

/// Makes the first page.
pub fn put_first(pages: &mut Vec<Page>, few: &[Chunk]) -> Result<(), AllocError>
    requires none { pages.old.items ≡ [] }
    requires some { (0 < length few.now) × (length few.now ≤ 3) }
    ensures put { OnOk result (chunks_of pages.new.items ≡ few.now ++ []) }
    ensures refused { OnErr result (pages.new.items ≡ pages.old.items) }
{
    let page = Page::of(*pages.allocator(), few)?;
    pages.push(page)?;
    Ok(())
}

// Puts chunks into the page where they belong, which has room, replacing those after it up to `hi`.
fn put_in(
    pages: &mut Vec<Page>,
    at: usize,
    few: &[Chunk],
    lo: u64,
    hi: u64,
) -> Result<(), AllocError>
    requires order { ChunksFrom 0 (chunks_of pages.old.items) }
    requires page { IsPageFor pages.old.items lo at }
    requires whole { All (λ e. (hi_of e ≤ hi) ⊎ (hi < lo_of e)) (chunks_of pages.old.items) }
    requires few { (0 < length few.now) × (length few.now ≤ 3)
        × All (λ e. hi_of e ≤ hi) few.now }
    ensures put { OnOk result
        (Replaces (chunks_of pages.old.items) lo hi few.now (chunks_of pages.new.items)) }
    ensures refused { OnErr result
        (chunks_of pages.new.items ≡ chunks_of pages.old.items) }
{
    pages[at].put(few, lo, hi)?;
    cut_after(pages, at, hi);
    Ok(())
}

// Removes the chunks up to a number from the pages after one, unless this page reaches past the
// number.
fn cut_after(pages: &mut Vec<Page>, at: usize, number: u64)
    requires within { at < length pages.old.items }
    requires order { ChunksFrom 0 (chunks_of (drop (at + 1) pages.old.items)) }
    requires whole { All (λ e. (hi_of e ≤ number) ⊎ (number < lo_of e))
        (chunks_of (drop (at + 1) pages.old.items)) }
    requires past { (d : Page)
        → number < end_of (chunks_in (slice_index_or pages.old.items at d))
        → All (λ e. number < lo_of e) (chunks_of (drop (at + 1) pages.old.items)) }
    ensures before { take (at + 1) pages.new.items ≡ take (at + 1) pages.old.items }
    ensures cut { CutTo (chunks_of (drop (at + 1) pages.old.items)) number
        (chunks_of (drop (at + 1) pages.new.items)) }
{
    if pages[at].end() > number {
        return;
    }
    cut_from(pages, at + 1, number);
}

// Removes the chunks up to a number from the pages from `from` on.
fn cut_from(pages: &mut Vec<Page>, from: usize, number: u64)
    requires within { from ≤ vec_len pages.old }
    requires order { ChunksFrom 0 (chunks_of (drop from pages.old.items)) }
    requires whole { All (λ e. (hi_of e ≤ number) ⊎ (number < lo_of e))
        (chunks_of (drop from pages.old.items)) }
    ensures before { take from pages.new.items ≡ take from pages.old.items }
    ensures cut { CutTo (chunks_of (drop from pages.old.items)) number
        (chunks_of (drop from pages.new.items)) }
{
    let gone = pages_ending_upto(&pages[from..], number);
    remove(pages, from, gone);
    if from < pages.len() {
        pages[from].cut_to(number);
    }
}

// The position of the page for chunks from `lo` on. A full page is split first.
fn make_room(pages: &mut Vec<Page>, lo: u64) -> Result<usize, AllocError>
    requires some { 0 < length pages.old.items }
    requires order { ChunksFrom 0 (chunks_of pages.old.items) }
    ensures same { chunks_of pages.new.items ≡ chunks_of pages.old.items }
    ensures page { IfOk result (λ at. IsPageFor pages.new.items lo at) }
{
    let at = page_for(pages, lo);
    if pages[at].has_room() {
        return Ok(at);
    }
    split_at(pages, at, lo)?;
    Ok(page_of_two(pages, at, lo))
}

// Splits a page into two.
fn split_at(pages: &mut Vec<Page>, at: usize, lo: u64) -> Result<(), AllocError>
    requires within { at < length pages.old.items }
    requires order { ChunksFrom 0 (chunks_of pages.old.items) }
    requires full { (d : Page) → 253 < length (chunks_in (slice_index_or pages.old.items at d)) }
    ensures same { chunks_of pages.new.items ≡ chunks_of pages.old.items }
    ensures split { OnOk result (IsSplit pages.old.items at pages.new.items) }
{
    pages.reserve(1)?;
    let back = pages[at].split(lo)?;
    let _ = insert_at(pages, at + 1, back);
    Ok(())
}

// Which of two pages is the one for chunks from `lo` on.
fn page_of_two(pages: &[Page], at: usize, lo: u64) -> usize
    requires order { ChunksFrom 0 (chunks_of pages.now) }
    requires within { at + 1 < length pages.now }
    requires below { All (λ e. hi_of e < lo) (chunks_of (take at pages.now)) }
    requires after { All (λ e. lo ≤ hi_of e) (chunks_of (drop (at + 2) pages.now)) }
    requires front { (d : Page) → length (chunks_in (slice_index_or pages.now at d)) ≤ 253 }
    requires back { (d : Page) → length (chunks_in (slice_index_or pages.now (at + 1) d)) ≤ 253 }
    ensures { IsPageFor pages.now lo result }
{
    if pages[at].end() < lo { at + 1 } else { at }
}

/// Sets bits in the block of their window, if there is one that they do not fill. Otherwise nothing
/// changes.
pub fn set_bits_in(pages: &mut Vec<Page>, window: u64, bits: u64) -> bool
    requires order { ChunksFrom 0 (chunks_of pages.old.items) }
    requires window { window < 2 ^ 58 }
    ensures set { IsTrue result
        → BlockWidened (chunks_of pages.old.items) window bits (chunks_of pages.new.items) }
    ensures same { result ≡ false
        → chunks_of pages.new.items ≡ chunks_of pages.old.items }
{
    let at = pages_ending_below(pages, 64 * window);
    if at >= pages.len() {
        return false;
    }
    pages[at].set_bits(window, bits)
}
