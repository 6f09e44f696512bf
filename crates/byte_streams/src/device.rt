//! Where bytes come from and where they go, and how devices fail.

ghost use Rattle.std.specs.Prelude.{◌≡◌, ℕ, ◌<◌, ◌≤◌, List, Option, Bool, true, length, take, IfOk};
ghost use Rattle.std.specs.Prelude.{is_err};
ghost use Rattle.std.specs.Io.KnownBytes.{Consumes, ReadConsumes, WriteAppends};
ghost use Rattle.byte_streams.specs.Device.{IsPart};

/// A device failed. It fails from then on.
#[derive(Clone, Copy, PartialEq, Eq)]
pub struct Failed;

/// A reader that stays failed once it has failed.
pub trait Source {
    // the bytes left, if the type knows them
    ghost left: { Self → Option (List ℕ) };

    // whether a read has failed
    ghost has_failed: { Self → Bool };

    // the bytes in its buffer
    ghost buffered: { Self → List ℕ };

    /// Reads into the front of a slice, and returns how many bytes. If the slice has room, it reads
    /// none only at the end.
    fn read(&mut self, into: &mut [u8]) -> Result<usize, Failed>
        ensures part { IsPart result into.new }
        ensures bytes { ReadConsumes (left self.old) (left self.new) result into.new }
        ensures failed { has_failed self.new ≡ is_err result }
        ensures for_good { has_failed self.old ≡ true → has_failed self.new ≡ true };

    /// Whether a read has failed.
    fn failed(&self) -> bool
        ensures { result ≡ has_failed self.now };

    /// The bytes in its buffer, which come next: none if it has no buffer.
    fn buffer(&self) -> &[u8]
        ensures { result.now ≡ buffered self.now };

    /// Takes bytes from the front of the buffer. Cannot fail.
    fn consume(&mut self, count: usize)
        requires { count ≤ length (buffered self.old) }
        ensures bytes { Consumes (left self.old) (left self.new)
            (take count (buffered self.old)) }
        ensures failed { has_failed self.new ≡ has_failed self.old };
}

/// A writer that stays failed once it has failed.
pub trait Sink {
    // the bytes taken, if the type knows them
    ghost taken: { Self → Option (List ℕ) };

    // whether a write has failed
    ghost has_failed: { Self → Bool };

    /// Takes bytes from the front of a slice, and returns how many: at least one, unless the slice
    /// is empty. A failed write took none.
    fn write(&mut self, bytes: &[u8]) -> Result<usize, Failed>
        ensures part { IsPart result bytes.now }
        ensures some { IfOk result (λ n. 0 < length bytes.now → 0 < n) }
        ensures bytes { WriteAppends (taken self.old) (taken self.new) result bytes.now }
        ensures failed { has_failed self.new ≡ is_err result }
        ensures for_good { has_failed self.old ≡ true → has_failed self.new ≡ true };

    /// Whether a write has failed.
    fn failed(&self) -> bool
        ensures { result ≡ has_failed self.now };
}
