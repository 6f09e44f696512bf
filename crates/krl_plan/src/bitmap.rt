//! The bitmap of some runs: a bit for each serial from the first one on (PROTOCOL.krl).

ghost use Rattle.std.specs.Prelude.{◌≡◌, ◌+◌, ◌-◌, ◌*◌, ◌^◌, ◌<◌, length, OnOk, ◌++◌};
ghost use Rattle.serial_set.specs.Span.{IsRuns, has};
ghost use Rattle.krl_plan.specs.Written.{Above, bitmap_of, bits_of, first_of};

use serial_set::Span;
use ssh_wire::put_byte;
use std::alloc::AllocError;

// Appends the bytes of a bitmap of the runs, the highest first.
pub(crate) fn put_bits(out: &mut Vec<u8>, runs: &[Span], size: u32) -> Result<(), AllocError>
    requires some { 0 < length runs.now }
    requires rising { IsRuns runs.now }
    ensures { OnOk result
        (out.new.items ≡ out.old.items ++ bitmap_of runs.now (first_of runs.now) size) }
{
    let first = u128::from(runs[0].lo);
    let mut count = runs.len();
    for index in (0..size).rev() {
        let byte = byte_at(runs, &mut count, first + 8 * u128::from(index));
        put_byte(out, byte)?;
    }
    Ok(())
}

// The bits of eight consecutive serials. All but the first `count` runs begin above them.
fn byte_at(runs: &[Span], count: &mut usize, base: u128) -> u8
    requires rising { IsRuns runs.now }
    requires base { base < 2 ^ 100 }
    requires above { Above runs.now count.old (base + 8) }
    ensures bits { result ≡ bits_of runs.now base 8 }
    ensures above { Above runs.now count.new base }
{
    let mut byte = 0;
    for bit in (0..8u8).rev() {
        let set = has_serial(runs, count, base + u128::from(bit));
        byte = 2 * byte + u8::from(set);
    }
    byte
}

// Whether the runs have a serial. All but the first `count` runs begin above it.
fn has_serial(runs: &[Span], count: &mut usize, serial: u128) -> bool
    requires rising { IsRuns runs.now }
    requires above { Above runs.now count.old (serial + 1) }
    ensures has { result ≡ has runs.now serial }
    ensures above { Above runs.now count.new (serial + 1) }
{
    while *count > 0 {
        let run = runs[*count - 1];
        if u128::from(run.lo) <= serial {
            return serial <= u128::from(run.hi);
        }
        *count -= 1;
    }
    false
}
