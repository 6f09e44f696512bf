//! The runs of one byte's bits, read from the highest bit to the lowest.
ghost use Rattle.std.specs.Prelude.{◌≡◌, ◌+◌, ◌*◌, ◌^◌, ◌≤◌, ◌<◌, ◌⊎◌, ℕ, ◌++◌, [], ◌∷◌, length};
ghost use Rattle.std.specs.Prelude.{reverse, Some, None, MatchOption, IfSome, SomeIff, All, ⊤};
ghost use Rattle.std.specs.Option.{option_to_list, option_map_or};
ghost use Rattle.serial_set.specs.Span.{SpanCovers, Covers, IsRunsOf};
ghost use Rattle.serial_set.specs.Finished.{finished_of};
ghost use Rattle.serial_set.specs.BitRuns.{BitNames, IsInStep};

use crate::finished::Finished;
use crate::span::Span;

/// The run that may still grow, and those that cannot.
#[derive(Drop)]
pub struct ByteRuns {
    pub pending: Option<Span>,
    pub finished: Finished,
}

impl ByteRuns {
    // A set bit: its serial extends the pending run by one below it, or begins a run.
    fn extend(&mut self, serial: u64)
        ensures pending { self.new.pending ≡ Some (record {
          lo = serial;
          hi = option_map_or (λ run. run.hi) self.old.pending serial;
        }) }
        ensures finished { self.new.finished ≡ self.old.finished }
    {
        let hi = match self.pending {
            Some(run) => run.hi,
            None => serial,
        };
        self.pending = Some(Span { lo: serial, hi });
    }

    // A bit that is not set.
    fn close(&mut self)
        requires { self.old.finished.count + length (option_to_list self.old.pending) ≤ 4 }
        ensures pending { self.new.pending ≡ None }
        ensures finished { finished_of self.new.finished
            ≡ finished_of self.old.finished ++ option_to_list self.old.pending }
        ensures count { self.new.finished.count
            ≡ self.old.finished.count + length (option_to_list self.old.pending) }
    {
        if let Some(run) = self.pending {
            self.finished.push(run);
            self.pending = None;
        }
    }
}

// The serial of a set bit. The bit's position is `position + bit`, and 0 is not a serial.
fn serial_at(offset: u64, position: u64, byte: u8, bit: u8) -> Option<u64>
    requires position { position < 2 ^ 63 }
    requires bit { bit < 8 }
    requires fits { (s : ℕ) → BitNames (offset + position) byte s → s < 2 ^ 64 }
    ensures { let serial = offset + position + bit in
        SomeIff result (BitNames (offset + position) byte serial) serial }
{
    if byte >> bit & 1 == 0 {
        return None;
    }
    let serial = offset + (position + u64::from(bit));
    if serial == 0 { None } else { Some(serial) }
}

/// Continues the run that is pending after the byte before, with a byte whose lowest bit represents
/// `offset + position`.
pub fn runs_of_byte(pending: Option<Span>, offset: u64, position: u64, byte: u8) -> ByteRuns
    requires position { position < 2 ^ 63 }
    requires in_step { IsInStep (offset + position + 8) pending }
    requires fits { (s : ℕ) → BitNames (offset + position) byte s → s < 2 ^ 64 }
    ensures runs { IsRunsOf (option_to_list result.pending ++ reverse (finished_of result.finished))
        (λ s. Covers (option_to_list pending) s ⊎ BitNames (offset + position) byte s) }
    ensures in_step { IsInStep (offset + position) result.pending }
    ensures ends { All (λ run. ¬ SpanCovers run (offset + position)) (finished_of result.finished) }
    ensures four_more { length (finished_of result.finished)
        + length (option_to_list result.pending) ≤ length (option_to_list pending) + 4 }
{
    let mut runs = ByteRuns {
        pending,
        finished: Finished::none(),
    };
    if byte == 0 && pending.is_none() {
        return runs;
    }
    for bit in (0..8).rev() {
        match serial_at(offset, position, byte, bit) {
            Some(serial) => runs.extend(serial),
            None => runs.close(),
        }
    }
    runs
}
