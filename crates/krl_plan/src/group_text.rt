//! The subsection that names a group of runs.

ghost use Rattle.std.specs.Prelude.{◌≡◌, ◌<◌, ◌≤◌, ◌∷◌, [], ◌++◌, length, OnOk};
ghost use Rattle.std.specs.List.{flat_map};
ghost use Rattle.serial_set.specs.Span.{IsRuns};
ghost use Rattle.ssh_wire.specs.Wire.{number};
ghost use Rattle.krl_plan.specs.declared.group.Sort.TheVariants.{Serials, Range, Bitmap};
ghost use Rattle.krl_plan.specs.Plan.{Allows, IsSmall, reach};
ghost use Rattle.krl_plan.specs.Written.{group_text, serials_of};

use crate::bitmap::put_bits;
use crate::group::Sort;
use crate::string::{begin_string, end_string};
use krl_format::{BITMAP, RANGE, SERIALS};
use serial_set::Span;
use ssh_wire::{put_byte, put_u32, put_u64};
use std::alloc::AllocError;

// Appends a subsection of this sort that names exactly these runs.
pub(crate) fn put_group(out: &mut Vec<u8>, sort: Sort, runs: &[Span]) -> Result<(), AllocError>
    requires some { 0 < length runs.now }
    requires rising { IsRuns runs.now }
    requires allowed { Allows sort runs.now }
    ensures { OnOk result (out.new.items ≡ out.old.items ++ group_text sort runs.now) }
{
    match sort {
        Sort::Serials => put_listed(out, runs),
        Sort::Range => put_range(out, runs),
        Sort::Bitmap => put_bitmap(out, runs),
    }
}

// Appends the subsection that lists each serial of the runs.
fn put_listed(out: &mut Vec<u8>, runs: &[Span]) -> Result<(), AllocError>
    requires rising { IsRuns runs.now }
    requires allowed { Allows Serials runs.now }
    ensures { OnOk result (out.new.items ≡ out.old.items ++ group_text Serials runs.now) }
{
    let at = begin_string(out, SERIALS)?;
    for run in runs {
        put_serials(out, *run)?;
    }
    end_string(out, at);
    Ok(())
}

// Appends the one or two serials of a run.
fn put_serials(out: &mut Vec<u8>, run: Span) -> Result<(), AllocError>
    requires ordered { run.lo ≤ run.hi }
    requires small { IsSmall run }
    ensures { OnOk result (out.new.items
        ≡ out.old.items ++ flat_map (number 8) (serials_of (run ∷ []))) }
{
    put_u64(out, run.lo)?;
    if run.lo < run.hi {
        put_u64(out, run.hi)?;
    }
    Ok(())
}

// Appends the subsection of the first and the last serial of a run.
fn put_range(out: &mut Vec<u8>, runs: &[Span]) -> Result<(), AllocError>
    requires rising { IsRuns runs.now }
    requires allowed { Allows Range runs.now }
    ensures { OnOk result (out.new.items ≡ out.old.items ++ group_text Range runs.now) }
{
    put_byte(out, RANGE)?;
    put_u32(out, 16)?;
    put_u64(out, runs[0].lo)?;
    put_u64(out, runs[0].hi)?;
    Ok(())
}

// Appends the subsection of a first serial and the bits from there on.
fn put_bitmap(out: &mut Vec<u8>, runs: &[Span]) -> Result<(), AllocError>
    requires some { 0 < length runs.now }
    requires rising { IsRuns runs.now }
    requires allowed { Allows Bitmap runs.now }
    ensures { OnOk result (out.new.items ≡ out.old.items ++ group_text Bitmap runs.now) }
{
    let size = (reach_of(runs) as u32 + 1) / 8 + 1;
    put_byte(out, BITMAP)?;
    put_u32(out, 12 + size)?;
    put_u64(out, runs[0].lo)?;
    put_u32(out, size)?;
    put_bits(out, runs, size)?;
    Ok(())
}

// How far the last serial is from the first.
fn reach_of(runs: &[Span]) -> u64
    requires some { 0 < length runs.now }
    requires rising { IsRuns runs.now }
    ensures { result ≡ reach runs.now }
{
    runs[runs.len() - 1].hi - runs[0].lo
}
